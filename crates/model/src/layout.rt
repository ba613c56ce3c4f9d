// A state laid out in the arrays.
ghost use Rattle.std.specs.Prelude.{◌≡◌, true, ◌+◌, ◌<◌, ◌≤◌, length, replicate, take};
ghost use Rattle.locks.specs.Lists.{all};
ghost use Rattle.locks.specs.Words.{fit_row};
ghost use Rattle.rules.specs.State.{fresh, laid, view};
ghost use Rattle.rules.specs.Sound.{sound};
ghost use Rattle.locks.specs.Pieces.{stores};
ghost use Rattle.places.specs.Places.{NUMBERS, PLACE, PLACES, ROWS, whole};
ghost use Rattle.places.specs.Settled.{Show};
ghost use Rattle.locks.specs.Cells.{CELL, CELLS, WORDS, Rows, Tells};
ghost use Rattle.model.specs.Fields.{Slim, Unnumbered, fields, plain_at, seven_at, three_at};

use locks::cells::*;
use locks::rows::Row;
use places::arrays::Arrays;
use places::fields::*;
use rules::state::*;

// Three ids, from number `at` of place i on.
fn put_three(m: &mut Numbers, i: usize, at: usize, ids: Ids)
    requires { (i < PLACES) × (at + 2 < PLACE) }
    ensures { Slim ids × (m.new ≡ stores PLACE m.old i (three_at at ids)) }
{
    m[i * PLACE + at] = ids.effective as u32;
    m[i * PLACE + (at + 1)] = ids.login as u32;
    m[i * PLACE + (at + 2)] = ids.program as u32;
}

fn put_seven(m: &mut Numbers, i: usize, at: usize, xs: &[u32; 7])
    requires { (i < PLACES) × (at + 6 < PLACE) }
    ensures { (length xs.now ≡ 7) × (m.new ≡ stores PLACE m.old i (seven_at at xs.now)) }
{
    let from = i * PLACE + at;
    m[from..from + 7].copy_from_slice(xs);
}

// The numbers that stand alone.
fn put_plain(m: &mut Numbers, i: usize, p: &Process)
    requires { i < PLACES }
    ensures { m.new ≡ stores PLACE m.old i (plain_at p.now) }
{
    m[i * PLACE + PID] = p.pid as u32;
    m[i * PLACE + PRIORITY] = p.priority;
    m[i * PLACE + ALARM] = p.alarm;
    m[i * PLACE + SLEEP] = p.rest.sleep as u32;
    m[i * PLACE + WAKE] = p.rest.wake as u32;
    m[i * PLACE + SECONDS] = p.rest.seconds;
    m[i * PLACE + LEFT] = p.rest.left;
    m[i * PLACE + PENDING] = p.signals.pending as u32;
}

fn put_process(m: &mut Numbers, i: usize, p: &Process)
    requires { i < PLACES }
    ensures { (whole p.now ≡ true) × (m.new ≡ stores PLACE m.old i (fields p.now)) }
{
    put_plain(m, i, p);
    put_three(m, i, USER, p.user);
    put_three(m, i, GROUP, p.group);
    put_seven(m, i, REACTIONS, &p.signals.reactions);
    put_seven(m, i, TRAPS, &p.signals.traps);
}

// Each process in its place.
fn put_processes(procs: &[Process], m: &mut Numbers)
    requires { (length procs.now ≤ PLACES) × (m.old ≡ replicate NUMBERS 0) }
    ensures { Unnumbered m.new procs.now }
{
    for (i, p) in procs.iter().enumerate() {
        put_process(m, i, p);
    }
}

// Each row in its cell.
fn put_rows(rows: &[Row], t: &mut Cells)
    requires { (length rows.now ≤ ROWS) × (all fit_row rows.now ≡ true) × (t.old ≡ replicate WORDS 0) }
    ensures { Rows t.new rows.now }
{
    for (i, r) in rows.iter().enumerate() {
        append(t, i, Cell::from(*r));
    }
}

// The state s, in its arrays.
pub(crate) fn lay_out(s: State) -> Arrays
    requires { sound s ≡ true }
    ensures { Show result (view s) × (s ≡ laid (view s)) }
{
    let mut arrays = Arrays::zeros();
    put_processes(&s.procs[..s.live], &mut arrays.numbers);
    put_rows(&s.table.rows[..s.table.used], &mut arrays.cells);
    arrays.numbers[LIVE] = s.live as u32;
    arrays.numbers[USED] = s.table.used as u32;
    arrays.numbers[NEXT] = s.next;
    arrays
}
