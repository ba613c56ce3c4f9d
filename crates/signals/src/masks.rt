// Who woke and who ended in an event, by comparison of the processes before and after it.
ghost use Rattle.std.specs.Prelude.{◌≡◌, List, ℕ, ◌<◌, ◌≤◌, get_or, take};
ghost use Rattle.places.specs.Places.{PLACES};

use places::answers::*;
use places::fields::*;
use rules::outcome::AnswerKind;

// A process, as it was before an event.
#[derive(Clone, Copy, Debug, Default)]
pub(crate) struct Past {
    pub(crate) pid: u32,
    sleep: u32,
}

impl Past {
    ghost use Rattle.places.specs.Places.{LIVE, Housed, procs_in};
    ghost use Rattle.signals.specs.Noted.{up_at};

    // It slept then, and the process at place k is awake.
    fn is_up(self, m: &Numbers, k: usize) -> bool
        requires { Housed m.now × (k < get_or m.now LIVE 0) }
        ensures { result ≡ up_at (procs_in m.now) k self.sleep }
    {
        self.sleep != AWAKE && of(m, k, SLEEP) == AWAKE
    }
}

// In fixed memory: so a count beside the array.
// The processes before an event, each at its place; `live` of them lived.
#[derive(Clone, Copy, Debug)]
pub(crate) struct Before {
    processes: [Past; PLACES],
    live: usize,
    ghost fits: { live ≤ PLACES },
}

// Three functions note, act and settle, line by line: the act of loud_second reads `before`, so a closure would be handed it and is no shorter.
impl Before {
    ghost use Rattle.rules.specs.State.{Machine};
    ghost use Rattle.rules.specs.Outcome.{kind_number};
    ghost use Rattle.rules.specs.Step.{woken_mask, ended_mask};
    ghost use Rattle.rules.specs.Reply.{four_of};
    ghost use Rattle.places.specs.Places.{Housed, Lays, procs_in};
    ghost use Rattle.places.specs.Settled.{masked};
    ghost use Rattle.signals.specs.Noted.{Noted};

    pub(crate) fn note(m: &Numbers) -> Before
        requires { Housed m.now }
        ensures { Noted (procs_in m.now) result }
    {
        let live = m[LIVE] as usize;
        // A `for`, since with array::from_fn an exit with 2 processes took 36 ns in place of 23.
        let mut processes = [Past::default(); PLACES];
        for i in 0..live {
            processes[i] = Past {
                pid: of(m, i, PID),
                sleep: of(m, i, SLEEP),
            };
        }
        Before { processes, live }
    }

    pub(crate) fn processes(&self) -> &[Past]
        ensures { result.now ≡ take self.now.live self.now.processes }
    {
        &self.processes[..self.live]
    }

    // Who woke and who ended since: mask bit i is the process that was at place i.
    pub(crate) fn settle(&self, m: &Numbers, kind: AnswerKind) -> Reply
        requires { Housed m.now }
        ensures { (s u : Machine) (t : List ℕ) → Noted s.procs self.now → Lays m.now t u → result ≡ four_of (masked (kind_number kind) (woken_mask s u) (ended_mask s u)) }
    {
        let mut woken: u32 = 0;
        let mut ended: u32 = 0;
        let mut bit: u32 = 1;
        for past in self.processes() {
            match find(m, past.pid) {
                Some(k) if past.is_up(m, k) => woken += bit,
                Some(_) => {}
                None => ended += bit,
            }
            bit *= 2;
        }
        with_masks(kind, woken, ended)
    }
}
