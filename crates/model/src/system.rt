// The modelled system, by its arrays.
ghost use Rattle.turns.specs.Turn.{Holds};

use places::arrays::Arrays;

// A sound state in its arrays, which each event changes in place.
#[derive(Drop)]
pub struct System {
    pub(crate) arrays: Arrays,
    ghost holds: { Holds arrays.numbers arrays.cells },
}
