// A signal arrives.
ghost use Rattle.std.specs.Prelude.{◌≡◌, true, false, ◌<◌, ◌≤◌, get_or, MatchResult};
ghost use Rattle.locks.specs.Lists.{between};
ghost use Rattle.rules.specs.State.{pids};
ghost use Rattle.rules.specs.Outcome.{badcall};
ghost use Rattle.rules.specs.Signals.{roused, trapped, arrives};
ghost use Rattle.places.specs.Places.{place_of};
ghost use Rattle.places.specs.Places.{PLACES, LIVE, Turns};
ghost use Rattle.places.specs.Settled.{Show, Whole, asker, shown};

use crate::endings::*;
use locks::rows::Part;
use places::arrays::Arrays;
use places::fields::*;
use rules::outcome::Refusal;

// A signal by its number, 1 to 7.
#[derive(Clone, Copy, Debug)]
pub(crate) struct Signal {
    pub(crate) number: usize,
    ghost known: { (1 ≤ number) × (number ≤ 7) },
}

impl TryFrom<u32> for Signal {
    type Error = Refusal;

    ghost try_from_gives = { λ n r. MatchResult r (λ s. (s.number ≡ n) × (between 1 7 n ≡ true)) (λ e. (e ≡ badcall) × (between 1 7 n ≡ false)) };

    fn try_from(number: u32) -> Result<Signal, Refusal> {
        if !(1..=7).contains(&number) {
            return Err(Refusal::Badcall);
        }
        Ok(Signal {
            number: number as usize,
        })
    }
}

fn rouse(m: &mut Numbers, i: usize)
    requires { i < PLACES }
    ensures { Turns roused m.old i m.new }
{
    if of(m, i, SLEEP) != AWAKE {
        let seconds = of(m, i, SECONDS);
        wake(m, i, BY_SIGNAL, seconds);
    }
}

fn trap(m: &mut Numbers, i: usize, signal: Signal, a: u32)
    requires { i < PLACES }
    ensures { Turns (trapped signal.number a) m.old i m.new }
{
    let k = signal.number - 1;
    let pending = of(m, i, PENDING);
    set(m, i, PENDING, pending | (1u32 << k));
    set(m, i, TRAPS + k, a);
    set(m, i, REACTIONS + k, IGNORE);
    rouse(m, i);
}

// The signal arrives at the process at place i, the first of its PID.
pub(crate) fn arrive(arrays: &mut Arrays, i: usize, signal: Signal)
    requires { Whole arrays.old × (i < get_or arrays.old.numbers LIVE 0) × (i ≡ place_of (asker arrays.old i).pid (pids (shown arrays.old).procs)) }
    ensures { Show arrays.new (arrives signal.number (asker arrays.old i).pid (shown arrays.old)) }
{
    let a = of(&arrays.numbers, i, REACTIONS + signal.number - 1);
    if a == IGNORE {
        return;
    }
    let pid = of(&arrays.numbers, i, PID);
    if a == ABORT {
        end_process(arrays, pid);
        return;
    }
    trap(&mut arrays.numbers, i, signal, a);
    lose_rows(arrays, pid, Part::Waiting);
}
