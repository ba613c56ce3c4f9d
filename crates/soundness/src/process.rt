// One process of a sound state, and one that is unused.
ghost use Rattle.std.specs.Prelude.{◌≡◌, cond, eqb};
ghost use Rattle.rules.specs.State.{for_lock};
ghost use Rattle.rules.specs.Sound.{zero_process, sleep_fits, wake_fits, addressed, traps_fit, reactions_fit};
ghost use Rattle.soundness.specs.Waiting.{sound_waiting};

use numbers::in_priority;
use rules::state::*;

// The numbers of the sleeps, for the patterns of a match.
const AWAKE: u8 = Sleep::Awake as u8;

const FOR_SIGNAL: u8 = Sleep::ForSignal as u8;

const FOR_LOCK: u8 = Sleep::ForLock as u8;

const FOR_TIME: u8 = Sleep::ForTime as u8;

pub(crate) fn zero_process(p: &Process) -> bool
    ensures { result ≡ zero_process p.now }
{
    *p == Process::default()
}

#[tactic(auto, unfolding(rules::specs::Sound::sleep_fits))]
fn sleep_fits(r: Rest) -> bool
    ensures { result ≡ sleep_fits r.sleep r.seconds }
{
    match r.sleep {
        AWAKE | FOR_SIGNAL | FOR_LOCK => r.seconds == 0,
        FOR_TIME => 1 <= r.seconds,
        _ => false,
    }
}

#[tactic(auto, unfolding(rules::specs::Sound::wake_fits))]
fn wake_fits(r: Rest) -> bool
    ensures { result ≡ wake_fits r.wake r.left }
{
    r.wake <= Wake::ByTime as u8 && (r.wake == Wake::BySignal as u8 || r.left == 0)
}

// Signal i + 1 is pending, or has no address.
fn is_addressed(pending: u8, traps: [u32; 7]) -> bool
    ensures { result ≡ addressed pending 0 traps }
{
    for (i, a) in traps.iter().enumerate() {
        if (pending >> i) % 2 == 0 && *a != 0 {
            return false;
        }
    }
    true
}

#[tactic(auto, unfolding(rules::specs::Sound::traps_fit))]
fn traps_fit(g: Signals) -> bool
    ensures { result ≡ traps_fit g.pending g.traps }
{
    g.pending < 128 && (g.pending >> 2) % 2 == 0 && is_addressed(g.pending, g.traps)
}

fn reactions_fit(pid: u16, r: [u32; 7]) -> bool
    ensures { result ≡ reactions_fit pid r }
{
    r[2] == 0 && (pid != 1 || r == [1, 1, 0, 1, 1, 1, 1])
}

// The rows of the process that wait are `waiting` in number.
fn lock_fits(waiting: usize, sleep: u8) -> bool
    ensures { result ≡ eqb waiting (cond (eqb sleep for_lock) 1 0) }
{
    waiting == usize::from(sleep == FOR_LOCK)
}

#[tactic(auto, unfolding(crate::specs::Waiting::sound_waiting, rules::specs::Sound::quiet))]
pub(crate) fn sound_process(p: &Process, waiting: usize) -> bool
    ensures { result ≡ sound_waiting waiting p.now }
{
    sleep_fits(p.rest)
        && wake_fits(p.rest)
        && (p.rest.sleep == AWAKE || p.signals.pending == 0)
        && traps_fit(p.signals)
        && in_priority(p.priority)
        && reactions_fit(p.pid, p.signals.reactions)
        && lock_fits(waiting, p.rest.sleep)
}
