// One second.
ghost use Rattle.std.specs.Prelude.{◌≡◌, true, List, map, ℕ, ◌-◌, ◌<◌, eqb, length, get_or};
ghost use Rattle.locks.specs.Lists.{any};
ghost use Rattle.rules.specs.State.{no_process, with_alarm, pids};
ghost use Rattle.rules.specs.Clock.{slept, rings, alarms, ticked};
ghost use Rattle.rules.specs.Outcome.{done, answered};
ghost use Rattle.rules.specs.Sound.{sound_machine};
ghost use Rattle.rules.specs.declared.state.Process.{Process};
ghost use Rattle.places.specs.Places.{place_of, wakes_by};
ghost use Rattle.places.specs.Places.{PLACES, LIVE, USED, NEXT, Procs, Housed, Turns, procs_in};
ghost use Rattle.locking.specs.Granted.{Sweeps};
ghost use Rattle.places.specs.Settled.{Settles, Show, Whole, asker, shown};
ghost use Rattle.signals.specs.Noted.{Noted};

use crate::masks::*;
use crate::signals::*;
use places::answers::*;
use places::arrays::Arrays;
use places::fields::*;
use rules::outcome::AnswerKind;

// A timed sleeper loses a second; whether it wakes.
fn lose_second(m: &mut Numbers, i: usize) -> bool
    requires { i < PLACES }
    ensures { Turns slept m.old i m.new × ((ps : List Process) (used next : ℕ) → Procs m.old ps used next → i < length ps → result ≡ wakes_by slept (get_or ps i no_process)) }
{
    if of(m, i, SLEEP) != FOR_TIME {
        return false;
    }
    let seconds = of(m, i, SECONDS);
    if seconds == 1 {
        wake(m, i, BY_TIME, 0);
        return true;
    }
    if seconds != 0 {
        set(m, i, SECONDS, seconds - 1);
    }
    false
}

fn lose_alarm(m: &mut Numbers, i: usize)
    requires { i < PLACES }
    ensures { Turns (λ p. with_alarm (p.alarm - 1) p) m.old i m.new }
{
    let alarm = of(m, i, ALARM);
    if alarm != 0 {
        set(m, i, ALARM, alarm - 1);
    }
}

// A second of each process by itself; the mask of those who wake.
fn second(m: &mut Numbers) -> u32
    requires { Housed m.old }
    ensures { Sweeps (λ p. with_alarm (p.alarm - 1) (slept p)) m.old m.new result }
{
    let mut woken: u32 = 0;
    let mut bit: u32 = 1;
    for i in 0..m[LIVE] as usize {
        if lose_second(m, i) {
            woken += bit;
        }
        lose_alarm(m, i);
        bit *= 2;
    }
    woken
}

fn alarm_due(m: &Numbers) -> bool
    requires { Housed m.now }
    ensures { result ≡ any (λ p. eqb p.alarm 1) (procs_in m.now) }
{
    (0..m[LIVE] as usize).any(|i| of(m, i, ALARM) == 1)
}

// All timed sleepers lose a second. Kept apart from `second`, which lowers the alarms and tells who wakes in the same loop.
fn pass_second(m: &mut Numbers)
    requires { Housed m.old }
    ensures { Procs m.new (map slept (procs_in m.old)) (get_or m.old USED 0) (get_or m.old NEXT 0) }
{
    for i in 0..m[LIVE] as usize {
        lose_second(m, i);
    }
}

// The alarm of the process at place k loses a second, and sends signal 5 when it reaches 0.
fn ring(arrays: &mut Arrays, k: usize)
    requires { Whole arrays.old × (k < get_or arrays.old.numbers LIVE 0) × (k ≡ place_of (asker arrays.old k).pid (pids (shown arrays.old).procs)) }
    ensures { Show arrays.new (rings (asker arrays.old k) (shown arrays.old)) }
{
    let alarm = of(&arrays.numbers, k, ALARM);
    lose_alarm(&mut arrays.numbers, k);
    if alarm == 1 {
        arrive(arrays, k, Signal { number: 5 });
    }
}

// The alarms of those who lived before, each in the machine that those before it left.
fn ring_all(arrays: &mut Arrays, before: &Before)
    requires { Whole arrays.old }
    ensures { (ps : List Process) → Noted ps before.now → Show arrays.new (alarms (pids ps) (shown arrays.old)) }
{
    for past in before.processes() {
        if let Some(k) = find(&arrays.numbers, past.pid) {
            ring(arrays, k);
        }
    }
}

fn loud_second(arrays: &mut Arrays) -> Reply
    requires { Whole arrays.old }
    ensures { Settles (shown arrays.old) (answered done 0 0 (ticked (shown arrays.old))) (Ok result) arrays.new }
{
    let before = Before::note(&arrays.numbers);
    pass_second(&mut arrays.numbers);
    ring_all(arrays, &before);
    before.settle(&arrays.numbers, AnswerKind::Done)
}

pub fn tick(arrays: &mut Arrays) -> Reply
    requires { Whole arrays.old × (sound_machine (shown arrays.old) ≡ true) }
    ensures { Settles (shown arrays.old) (answered done 0 0 (ticked (shown arrays.old))) (Ok result) arrays.new }
{
    if alarm_due(&arrays.numbers) {
        return loud_second(arrays);
    }
    let woken = second(&mut arrays.numbers);
    with_masks(AnswerKind::Done, woken, 0)
}
