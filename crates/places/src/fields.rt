// The processes and the counts, in one array of numbers that is changed in place.
ghost use Rattle.std.specs.Prelude.{◌≡◌, ◌+◌, ◌*◌, ◌<◌, get_or, set, MatchOption};
ghost use Rattle.rules.specs.State.{pids};
ghost use Rattle.places.specs.Places.{place_of};
ghost use Rattle.places.specs.Places.{PLACE, PLACES, LIVE, Housed, procs_in, waked};

use rules::state::{Sleep, Wake};

// A place has the numbers of one process, and each number its name.
pub const PLACE: usize = 28;

pub const PID: usize = 0;

pub const USER: usize = 1;

pub const GROUP: usize = 4;

pub const PRIORITY: usize = 7;

pub const ALARM: usize = 8;

pub const SLEEP: usize = 9;

pub const WAKE: usize = 10;

pub const SECONDS: usize = 11;

pub const LEFT: usize = 12;

pub const PENDING: usize = 13;

pub const REACTIONS: usize = 14;

pub const TRAPS: usize = 21;

// How many processes may live, and how many rows may be used.
pub const PLACES: usize = 16;

pub const ROWS: usize = 32;

// Behind the places: how many processes live, how many rows are used, and the next PID.
pub const LIVE: usize = PLACES * PLACE;

pub const USED: usize = LIVE + 1;

pub const NEXT: usize = USED + 1;

pub const NUMBERS: usize = NEXT + 1;

pub type Numbers = [u32; NUMBERS];

// What a reaction, a sleep and a last wake are: numbers, since they are stored in the array of numbers and compared with its numbers.
pub const ABORT: u32 = 0;

pub const IGNORE: u32 = 1;

pub const AWAKE: u32 = Sleep::Awake as u32;

pub const FOR_SIGNAL: u32 = Sleep::ForSignal as u32;

pub const FOR_LOCK: u32 = Sleep::ForLock as u32;

pub const FOR_TIME: u32 = Sleep::ForTime as u32;

pub const BY_GRANT: u32 = Wake::ByGrant as u32;

pub const BY_SIGNAL: u32 = Wake::BySignal as u32;

pub const BY_TIME: u32 = Wake::ByTime as u32;

// Number f of the process at place i.
pub fn of(m: &Numbers, i: usize, f: usize) -> u32
    requires { (i < PLACES) × (f < PLACE) }
    ensures { result ≡ get_or m.now (i * PLACE + f) 0 }
{
    m[i * PLACE + f]
}

pub fn set(m: &mut Numbers, i: usize, f: usize, n: u32)
    requires { (i < PLACES) × (f < PLACE) }
    ensures { m.new ≡ set m.old (i * PLACE + f) n }
{
    m[i * PLACE + f] = n;
}

pub fn wake(m: &mut Numbers, i: usize, reason: u32, left: u32)
    requires { i < PLACES }
    ensures { m.new ≡ waked m.old i reason left }
{
    m[i * PLACE + SLEEP] = AWAKE;
    m[i * PLACE + WAKE] = reason;
    m[i * PLACE + SECONDS] = 0;
    m[i * PLACE + LEFT] = left;
}

// The place of the first process of that PID. None: no process has it.
pub fn find(m: &Numbers, pid: u32) -> Option<usize>
    requires { Housed m.now }
    ensures { MatchOption result (get_or m.now LIVE 0 ≡ place_of pid (pids (procs_in m.now))) (λ i. (i < get_or m.now LIVE 0) × (i ≡ place_of pid (pids (procs_in m.now)))) }
{
    for i in 0..m[LIVE] as usize {
        if of(m, i, PID) == pid {
            return Some(i);
        }
    }
    None
}
