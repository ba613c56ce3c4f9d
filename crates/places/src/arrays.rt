// The modelled system in two arrays, which are changed in place.
ghost use Rattle.std.specs.Prelude.{◌≡◌, replicate};
ghost use Rattle.locks.specs.Cells.{WORDS};
ghost use Rattle.places.specs.Places.{NUMBERS};

use crate::fields::{NUMBERS, Numbers};
use locks::cells::{Cells, WORDS};

// Kept flat, as numbers with names: the project's rule for the state (docs/DECISIONS.md, decision 132).
#[derive(Clone, Copy)]
pub struct Arrays {
    // The processes and the counts.
    pub numbers: Numbers,
    // The lock rows.
    pub cells: Cells,
}

impl Arrays {
    pub fn zeros() -> Arrays
        ensures numbers { result.numbers ≡ replicate NUMBERS 0 }
        ensures cells { result.cells ≡ replicate WORDS 0 }
    {
        Arrays {
            numbers: [0; NUMBERS],
            cells: [0; WORDS],
        }
    }
}
