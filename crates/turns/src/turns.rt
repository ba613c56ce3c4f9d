// One event, on arrays that hold a sound state and are changed in place.
ghost use Rattle.std.specs.Prelude.{◌≡◌};
ghost use Rattle.rules.specs.Calls.{do_call, called};
ghost use Rattle.rules.specs.Step.{of_caller, outcome};
ghost use Rattle.places.specs.Settled.{Asking, Settles, asker, shown};
ghost use Rattle.turns.specs.Kinds.{IsKind};
ghost use Rattle.turns.specs.Turn.{Holds, Turned};
ghost use Rattle.turns.specs.declared.kinds.EventKind.TheVariants.{OfCaller};

use crate::kinds::*;
use calls::{Registers, fshell, own_call, report, take};
use locking::{lock, unlock};
use locks::words::words_of;
use numbers::class_of;
use places::answers::*;
use places::arrays::Arrays;
use places::fields::*;
use rules::calls::*;
use rules::outcome::*;
use rules::state::*;
use signals::{exit, kill, tick};

// The number of the indirect call.
const INDIRECT: u8 = 0x51;

// The call c of the process at place i.
fn do_call(arrays: &mut Arrays, i: usize, c: Call, e: Event) -> Result<Reply, Refusal>
    requires { Asking arrays.old i }
    ensures { Settles (shown arrays.old) (do_call c (asker arrays.old i) e (shown arrays.old)) result arrays.new }
{
    let r = Registers {
        d1: e.d1 as u32,
        d2: e.d2 as u32,
        d3: e.d3,
        a0: e.a0,
    };
    // The length of the sequence, 0 if none is named.
    let n = if e.named { e.d3 } else { 0 };
    match c {
        Call::Own(own) => own_call(&mut arrays.numbers, i, own, r),
        Call::Lock => lock(arrays, i, r.d2, n, words_of(e.seq)),
        Call::Unlock => unlock(arrays, i, n, words_of(e.seq)),
        Call::Kill => kill(arrays, i, r.d2, r.d3),
        Call::Exit => exit(arrays, i),
        Call::FShell => fshell(&mut arrays.numbers, i, r.d1, r.d2),
        Call::Indirect => Err(Refusal::Badcall),
    }
}

// The number is in the event, or for the indirect call in D0.
fn call(arrays: &mut Arrays, i: usize, e: Event) -> Result<Reply, Refusal>
    requires { Asking arrays.old i }
    ensures { Settles (shown arrays.old) (called (asker arrays.old i) e (shown arrays.old)) result arrays.new }
{
    let number = if e.call == INDIRECT {
        e.d0
    } else {
        e.call as u16
    };
    match class_of(number) {
        Class::Modelled(c) => do_call(arrays, i, c, e),
        Class::NotModelled => Err(Refusal::Notmodelled),
        Class::BadCall => Err(Refusal::Badcall),
    }
}

// What the process at place i, which is awake, asks.
fn act(arrays: &mut Arrays, i: usize, asked: Asked, e: Event) -> Result<Reply, Refusal>
    requires { Asking arrays.old i × IsKind e.kind (OfCaller asked) }
    ensures { Settles (shown arrays.old) (of_caller (asker arrays.old i) e (shown arrays.old)) result arrays.new }
{
    match asked {
        Asked::Take => Ok(take(&mut arrays.numbers, i)),
        Asked::Report => Ok(report(&arrays.numbers, i)),
        Asked::Call => {
            if of(&arrays.numbers, i, PENDING) != 0 {
                return Err(Refusal::Trap);
            }
            call(arrays, i, e)
        }
    }
}

// The checks of an event in their order, and what it comes to.
fn outcome(arrays: &mut Arrays, e: Event) -> Result<Reply, Refusal>
    requires { Holds arrays.old.numbers arrays.old.cells }
    ensures { Settles (shown arrays.old) (outcome e (shown arrays.old)) result arrays.new }
{
    let asked = match EventKind::try_from(e.kind)? {
        EventKind::Tick => return Ok(tick(arrays)),
        EventKind::OfCaller(asked) => asked,
    };
    let Some(i) = find(&arrays.numbers, e.caller as u32) else {
        return Err(Refusal::Badcaller);
    };
    if of(&arrays.numbers, i, SLEEP) != AWAKE {
        return Err(Refusal::Asleep);
    }
    act(arrays, i, asked, e)
}

// One event: its answer, and the arrays after it.
pub fn turn(arrays: &mut Arrays, e: Event) -> Reply
    requires { Holds arrays.old.numbers arrays.old.cells }
    ensures { Turned arrays.old.numbers arrays.old.cells e result arrays.new.numbers arrays.new.cells }
{
    reply(outcome(arrays, e))
}
