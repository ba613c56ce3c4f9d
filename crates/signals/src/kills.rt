// Kill and exit. The caller is the process at place i.
ghost use Rattle.std.specs.Prelude.{◌≡◌, ◌<◌, get_or};
ghost use Rattle.rules.specs.State.{pids};
ghost use Rattle.rules.specs.Signals.{arrives};
ghost use Rattle.rules.specs.Calls.{do_exit, send_kill, outlived};
ghost use Rattle.rules.specs.declared.state.Event.{Event};
ghost use Rattle.places.specs.Places.{place_of};
ghost use Rattle.places.specs.Places.{LIVE};
ghost use Rattle.places.specs.Settled.{Asking, Settles, asker, shown};

use crate::endings::*;
use crate::masks::*;
use crate::signals::*;
use places::answers::Reply;
use places::arrays::Arrays;
use places::fields::*;
use rules::outcome::*;

pub fn exit(arrays: &mut Arrays, i: usize) -> Result<Reply, Refusal>
    requires { Asking arrays.old i }
    ensures { Settles (shown arrays.old) (do_exit (asker arrays.old i) (shown arrays.old)) result arrays.new }
{
    let pid = of(&arrays.numbers, i, PID);
    if pid == 1 {
        return Err(Refusal::Badcall);
    }
    let before = Before::note(&arrays.numbers);
    end_process(arrays, pid);
    Ok(before.settle(&arrays.numbers, AnswerKind::CallerEnded))
}

// The signal comes to the process at place j; caller ended, or done where it lives on.
fn send(arrays: &mut Arrays, i: usize, j: usize, signal: Signal) -> Reply
    requires { Asking arrays.old i × (j < get_or arrays.old.numbers LIVE 0) × (j ≡ place_of (asker arrays.old j).pid (pids (shown arrays.old).procs)) }
    ensures { Settles (shown arrays.old) (outlived (asker arrays.old i).pid (arrives signal.number (asker arrays.old j).pid (shown arrays.old))) (Ok result) arrays.new }
{
    let pid = of(&arrays.numbers, i, PID);
    let before = Before::note(&arrays.numbers);
    arrive(arrays, j, signal);
    let kind = if find(&arrays.numbers, pid).is_some() {
        AnswerKind::Done
    } else {
        AnswerKind::CallerEnded
    };
    before.settle(&arrays.numbers, kind)
}

pub fn kill(arrays: &mut Arrays, i: usize, d2: u32, d3: u32) -> Result<Reply, Refusal>
    requires { Asking arrays.old i }
    ensures { (e : Event) → e.d2 ≡ d2 → e.d3 ≡ d3 → Settles (shown arrays.old) (send_kill (asker arrays.old i) e (shown arrays.old)) result arrays.new }
{
    let signal = Signal::try_from(d2)?;
    if !(2..=65535).contains(&d3) {
        return Err(Refusal::Badcall);
    }
    let Some(j) = find(&arrays.numbers, d3) else {
        return Err(Refusal::Noproc);
    };
    let user = of(&arrays.numbers, i, USER);
    if user != 0 && user != of(&arrays.numbers, j, USER) {
        return Err(Refusal::Priv);
    }
    Ok(send(arrays, i, j, signal))
}
