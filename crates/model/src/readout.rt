// A state and an answer, read out of the arrays.
ghost use Rattle.std.specs.Prelude.{◌≡◌, true, ◌++◌, ℕ, ◌+◌, ◌*◌, ◌<◌, ◌≤◌, get_or};
ghost use Rattle.locks.specs.Lists.{padded};
ghost use Rattle.locks.specs.Rows.{no_row};
ghost use Rattle.locks.specs.Words.{digits};
ghost use Rattle.rules.specs.State.{no_process};
ghost use Rattle.rules.specs.declared.state.Answer.{Answer};
ghost use Rattle.locks.specs.Cells.{CELL, CELLS, OWNER, rows_in};
ghost use Rattle.places.specs.Places.{LIVE, PLACE, PLACES, ROWS, procs_in};
ghost use Rattle.model.specs.Fields.{Narrow, Slim, Small, ids_at, numbers_at, process_at, rest_at, row_at};
ghost use Rattle.rules.specs.Reply.{four_of};
ghost use Rattle.turns.specs.Turn.{Holds, state_in};

use locks::cells::*;
use locks::rows::{Row, Table};
use places::answers::*;
use places::arrays::Arrays;
use places::fields::*;
use rules::state::*;

fn three_at(m: &Numbers, i: usize, at: usize) -> Ids
    requires { (i < PLACES) × (at + 2 < PLACE) × Slim (ids_at m.now i at) }
    ensures { result ≡ ids_at m.now i at }
{
    Ids {
        effective: m[i * PLACE + at] as u16,
        login: m[i * PLACE + (at + 1)] as u16,
        program: m[i * PLACE + (at + 2)] as u16,
    }
}

fn seven_at(m: &Numbers, i: usize, at: usize) -> [u32; 7]
    requires { (i < PLACES) × (at + 6 < PLACE) }
    ensures { result ≡ numbers_at m.now i at }
{
    let from = i * PLACE + at;
    let mut xs = [0; 7];
    xs.copy_from_slice(&m[from..from + 7]);
    xs
}

fn rest_at(m: &Numbers, i: usize) -> Rest
    requires { (i < PLACES) × ((rest_at m.now i).sleep < 256) × ((rest_at m.now i).wake < 256) }
    ensures { result ≡ rest_at m.now i }
{
    Rest {
        sleep: m[i * PLACE + SLEEP] as u8,
        wake: m[i * PLACE + WAKE] as u8,
        seconds: m[i * PLACE + SECONDS],
        left: m[i * PLACE + LEFT],
    }
}

fn process_at(m: &Numbers, i: usize) -> Process
    requires { (i < PLACES) × Narrow (process_at m.now i) }
    ensures { result ≡ process_at m.now i }
{
    Process {
        pid: of(m, i, PID) as u16,
        user: three_at(m, i, USER),
        group: three_at(m, i, GROUP),
        priority: of(m, i, PRIORITY),
        signals: Signals {
            reactions: seven_at(m, i, REACTIONS),
            pending: of(m, i, PENDING) as u8,
            traps: seven_at(m, i, TRAPS),
        },
        alarm: of(m, i, ALARM),
        rest: rest_at(m, i),
    }
}

fn processes_in(m: &Numbers) -> [Process; 16]
    requires { (get_or m.now LIVE 0 ≤ PLACES) × ((i : ℕ) → i < get_or m.now LIVE 0 → Narrow (process_at m.now i)) }
    ensures { result ≡ padded PLACES no_process (procs_in m.now) }
{
    let mut procs = [Process::default(); 16];
    for i in 0..m[LIVE] as usize {
        procs[i] = process_at(m, i);
    }
    procs
}

fn rows_in(t: &Cells, used: usize) -> [Row; 32]
    requires { (used ≤ ROWS) × ((i : ℕ) → i < used → get_or t.now (i * CELL + OWNER) 0 < 65536) }
    ensures { result ≡ padded ROWS no_row (rows_in t.now used) }
{
    let mut rows = [Row::default(); 32];
    for i in 0..used {
        rows[i] = Row::from(cell_at(t, i));
    }
    rows
}

// The state that the arrays hold.
pub(crate) fn state_in(arrays: &Arrays) -> State
    requires { Holds arrays.now.numbers arrays.now.cells }
    ensures { result ≡ state_in arrays.now.numbers arrays.now.cells }
{
    let m = &arrays.numbers;
    let used = m[USED] as usize;
    State {
        procs: processes_in(m),
        live: m[LIVE] as usize,
        table: Table {
            rows: rows_in(&arrays.cells, used),
            used,
        },
        next: m[NEXT],
    }
}

// The answer that four numbers tell. Not `From<Reply>`: a reply is a plain array, and `Answer` stands in `rules`.
pub fn answer_in(out: &Reply) -> Answer
    ensures { (a : Answer) → out.now ≡ four_of a → Small a → result ≡ a }
{
    let first = out[0];
    Answer {
        kind: (first / 16777216 % 256) as u8,
        number: (first / 65536 % 256) as u8,
        woken: (first % 65536) as u16,
        ended: (out[1] / 65536 % 65536) as u16,
        d3: out[2],
        a0: out[3],
    }
}
