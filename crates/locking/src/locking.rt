// Lock and unlock. The caller is the process at place i.
ghost use Rattle.std.specs.Prelude.{◌≡◌, ◌||◌, eqb, leb, true, false, [], ◌∷◌, ◌++◌, List, ℕ, ◌≤◌, ◌<◌, ◌-◌, length, take, get_or, MatchResult};
ghost use Rattle.locks.specs.Lists.{all, between};
ghost use Rattle.rules.specs.Outcome.{badcall};
ghost use Rattle.locks.specs.Words.{is_byte, value};
ghost use Rattle.locks.specs.Cells.{CELLS, Names, Tells, Shows};
ghost use Rattle.locks.specs.declared.rows.Row.{Row};
ghost use Rattle.rules.specs.Calls.{bad_sequence, row_of, do_lock, do_unlock};
ghost use Rattle.rules.specs.declared.state.Process.{Process};
ghost use Rattle.rules.specs.declared.state.Event.{Event};
ghost use Rattle.rules.specs.State.{no_process};
ghost use Rattle.places.specs.Places.{PLACES, USED, Laid, Procs};
ghost use Rattle.places.specs.Settled.{Asked, Asking, Sequence, Settles, Whole, asker, shown};
ghost use Rattle.locking.specs.Granted.{Granted, Named, Released, is_granted};
ghost use Rattle.locking.specs.Queued.{Fills, MayNot, MayWait, held_or_full, waits_or_not};

use chains::leads_back;
use locks::cells::*;
use locks::rows::{Part, Standing};
use locks::words::Words;
use places::answers::*;
use places::arrays::Arrays;
use places::fields::*;
use rules::outcome::*;

// A sequence has at most so many bytes.
const LONGEST: u32 = 16;

// The forms of lock, by D2: who asks conditionally does not wait.
#[derive(Clone, Copy, Debug, PartialEq, Eq)]
struct Form {
    shared: bool,
    conditional: bool,
}

impl TryFrom<u32> for Form {
    type Error = Refusal;

    ghost try_from_gives = { λ n r. MatchResult r (λ f. (n ≤ 3) × (f.shared ≡ (eqb n 0 || eqb n 2)) × (f.conditional ≡ leb 2 n)) (λ e. (e ≡ badcall) × (3 < n)) };

    fn try_from(number: u32) -> Result<Form, Refusal> {
        let (shared, conditional) = match number {
            0 => (true, false),
            1 => (false, false),
            2 => (true, true),
            3 => (false, true),
            _ => return Err(Refusal::Badcall),
        };
        Ok(Form {
            shared,
            conditional,
        })
    }
}

// The process at place i sleeps for a lock, and none of its rows waits.
fn is_granted(m: &Numbers, t: &Cells, used: usize, i: usize) -> bool
    requires { (i < PLACES) × (used ≤ CELLS) }
    ensures { (ps : List Process) (rows : List Row) (next : ℕ) → Procs m.now ps used next → i < length ps → Shows t.now rows → length rows ≡ used → result ≡ is_granted rows (get_or ps i no_process) }
{
    of(m, i, SLEEP) == FOR_LOCK && !is_waiting(t, used, of(m, i, PID) as u64)
}

// Rows have gone: a lock sleeper none of whose rows waits wakes. The mask of those.
pub fn grant(m: &mut Numbers, t: &Cells) -> u32
    requires { Laid m.old t.now }
    ensures { Granted m.old t.now m.new result }
{
    let used = m[USED] as usize;
    let mut woken: u32 = 0;
    let mut bit: u32 = 1;
    for i in 0..m[LIVE] as usize {
        if is_granted(m, t, used, i) {
            wake(m, i, BY_GRANT, 0);
            woken += bit;
        }
        bit *= 2;
    }
    woken
}

// That part of the rows of c's owner goes, and who waits no longer wakes: the mask of those.
pub fn release(arrays: &mut Arrays, c: Cell, part: Part) -> u32
    requires { Whole arrays.old × Named part c }
    ensures { (result < 65536) × ((r : Row) → Names part c r → Released part r (shown arrays.old) arrays.new result) }
{
    let used = arrays.numbers[USED] as usize;
    let left = take_out(&mut arrays.cells, used, c, part);
    arrays.numbers[USED] = left as u32;
    grant(&mut arrays.numbers, &arrays.cells)
}

// The first n of the eight bytes of w; all of them from 8 on.
fn first_bytes(w: u64, n: u32) -> u64
    ensures { (xs : List ℕ) → all is_byte xs ≡ true → length xs ≡ 8 → w ≡ value xs → result ≡ value (take n xs) }
{
    if n < 8 { w % (1u64 << (n * 8)) } else { w }
}

// The row asked for: the first n of the sixteen bytes, and zeros.
fn row_of(pid: u32, n: u32, bytes: Words, shared: bool) -> Cell
    requires { n ≤ 16 }
    ensures { (p : Process) (e : Event) → Sequence e n bytes.low bytes.high → p.pid ≡ pid → bad_sequence e ≡ false → Tells result (row_of p e shared) }
{
    Cell {
        owner: pid as u64,
        kind: if shared { n as u64 + SHARED } else { n as u64 },
        low: first_bytes(bytes.low, n),
        high: if n < 8 {
            0
        } else {
            first_bytes(bytes.high, n - 8)
        },
    }
}

// The sequence has a length that a row can have.
fn check_length(n: u32) -> Result<(), Refusal>
    ensures { MatchResult result (λ _. (1 ≤ n) × (n ≤ 16)) (λ r. (r ≡ badcall) × (between 1 16 n ≡ false)) }
{
    if n < 1 || LONGEST < n {
        return Err(Refusal::Badcall);
    }
    Ok(())
}

// The row comes last, behind `used` others.
fn hold(arrays: &mut Arrays, used: usize, c: Cell) -> Result<Reply, Refusal>
    requires { Fills arrays.old.numbers arrays.old.cells used }
    ensures { (r : Row) → Tells c r → Settles (shown arrays.old) (held_or_full r (shown arrays.old)) result arrays.new }
{
    if used == ROWS {
        return Err(Refusal::Lcktable);
    }
    append(&mut arrays.cells, used, c);
    arrays.numbers[USED] = (used + 1) as u32;
    Ok(plain(AnswerKind::Done, 0, 0))
}

// The last row, which is new and waits, may do so: it closes no chain, and there is room for it.
fn may_wait(t: &Cells, last: usize) -> Result<(), Refusal>
    requires { last < CELLS }
    ensures { (rows : List Row) (r : Row) → Shows t.now (rows ++ r ∷ []) → length rows ≡ last → MatchResult result (λ _. MayWait rows r) (MayNot rows r) }
{
    if leads_back(t, last) {
        return Err(Refusal::Deadlock);
    }
    if last == ROWS {
        return Err(Refusal::Lcktable);
    }
    Ok(())
}

// The row comes last and waits, unless that would be a deadlock or it has no room; its owner sleeps.
fn queue(arrays: &mut Arrays, i: usize, used: usize, c: Cell) -> Result<Reply, Refusal>
    requires { Asking arrays.old i × (used ≡ get_or arrays.old.numbers USED 0) }
    ensures { (r : Row) → Tells c r → Settles (shown arrays.old) (waits_or_not (asker arrays.old i) r (shown arrays.old)) result arrays.new }
{
    append(&mut arrays.cells, used, c);
    if let Err(refusal) = may_wait(&arrays.cells, used) {
        drop_last(&mut arrays.cells, used);
        return Err(refusal);
    }
    arrays.numbers[USED] = (used + 1) as u32;
    set(&mut arrays.numbers, i, SLEEP, FOR_LOCK);
    set(&mut arrays.numbers, i, SECONDS, 0);
    Ok(plain(AnswerKind::NowAsleep, 0, 0))
}

// The sequence is the first n of sixteen bytes; n is 0 if none is named.
pub fn lock(arrays: &mut Arrays, i: usize, d2: u32, n: u32, bytes: Words) -> Result<Reply, Refusal>
    requires { Asking arrays.old i × Asked n bytes.low bytes.high }
    ensures { (e : Event) → Sequence e n bytes.low bytes.high → e.d2 ≡ d2 → Settles (shown arrays.old) (do_lock (asker arrays.old i) e (shown arrays.old)) result arrays.new }
{
    let form = Form::try_from(d2)?;
    check_length(n)?;
    let used = arrays.numbers[USED] as usize;
    let c = row_of(of(&arrays.numbers, i, PID), n, bytes, form.shared);
    match stands(&arrays.cells, used, c) {
        Standing::Held => Err(Refusal::Held),
        Standing::Free => hold(arrays, used, c),
        Standing::Waits if form.conditional => Err(Refusal::Locked),
        Standing::Waits => queue(arrays, i, used, c),
    }
}

pub fn unlock(arrays: &mut Arrays, i: usize, n: u32, bytes: Words) -> Result<Reply, Refusal>
    requires { Asking arrays.old i × Asked n bytes.low bytes.high }
    ensures { (e : Event) → Sequence e n bytes.low bytes.high → Settles (shown arrays.old) (do_unlock (asker arrays.old i) e (shown arrays.old)) result arrays.new }
{
    check_length(n)?;
    let used = arrays.numbers[USED] as usize;
    let c = row_of(of(&arrays.numbers, i, PID), n, bytes, false);
    if !has_twin(&arrays.cells, used, c) {
        return Err(Refusal::Notlocked);
    }
    let woken = release(arrays, c, Part::Twin);
    Ok(with_masks(AnswerKind::Done, woken, 0))
}
