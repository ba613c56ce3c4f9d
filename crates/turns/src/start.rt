// The fresh state in the arrays.
ghost use Rattle.std.specs.Prelude.{◌≡◌, replicate};
ghost use Rattle.rules.specs.State.{fresh, laid};
ghost use Rattle.locks.specs.Cells.{WORDS};
ghost use Rattle.places.specs.Places.{NUMBERS};
ghost use Rattle.turns.specs.Turn.{Holds, state_in};

use places::fields::*;

// The fresh state, in arrays of zeros: process 1 at place 0, which ignores every signal but kill.
pub fn begin(m: &mut Numbers)
    requires { m.old ≡ replicate NUMBERS 0 }
    ensures { Holds m.new (replicate WORDS 0) × (state_in m.new (replicate WORDS 0) ≡ laid fresh) }
{
    m[PID] = 1;
    m[REACTIONS] = IGNORE;
    m[REACTIONS + 1] = IGNORE;
    m[REACTIONS + 3] = IGNORE;
    m[REACTIONS + 4] = IGNORE;
    m[REACTIONS + 5] = IGNORE;
    m[REACTIONS + 6] = IGNORE;
    m[LIVE] = 1;
    m[NEXT] = 2;
}
