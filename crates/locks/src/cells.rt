// Lock rows in their array: which conflict, which wait, and what stays when rows come and go.
ghost use Rattle.std.specs.Prelude.{◌≡◌, not, List, [], ◌∷◌, ◌++◌, ℕ, ◌≤◌, ◌<◌, length, take};
ghost use Rattle.locks.specs.Lists.{is_zero};
ghost use Rattle.locks.specs.Rows.{same_sequence, conflict, twin, has_twin, standing_of, waits, waiting_of, goes};
ghost use Rattle.locks.specs.Cells.{CELLS, Rows, Shows, Tells, Names, Left, cell_at, cell_set};
ghost use Rattle.locks.specs.Gaps.{Closed};
ghost use Rattle.locks.specs.declared.rows.Row.{Row};
ghost use Rattle.locks.specs.declared.rows.Part.{Part};

use crate::rows::{Part, Standing};

// The rows lie in a flat array of numbers, and their count in another (docs/DECISIONS.md, decision 132): so cells by their offsets, and
// `used` beside the array.

// The numbers of a cell, and where each stands.
pub const CELL: usize = 4;

pub const OWNER: usize = 0;

const KIND: usize = 1;

const LOW: usize = 2;

const HIGH: usize = 3;

// In KIND: the length of the sequence, and this more where the row is shared.
pub const SHARED: u64 = 256;

// Every row, and the one that is asked for.
pub const CELLS: usize = 33;

// The numbers of all cells.
pub const WORDS: usize = CELL * CELLS;

pub type Cells = [u64; WORDS];

#[derive(Clone, Copy, Debug, Default, PartialEq, Eq)]
pub struct Cell {
    pub owner: u64,
    pub kind: u64,
    pub low: u64,
    pub high: u64,
}

pub fn cell_at(t: &Cells, i: usize) -> Cell
    requires { i < CELLS }
    ensures { result ≡ cell_at t.now i }
{
    Cell {
        owner: t[i * CELL + OWNER],
        kind: t[i * CELL + KIND],
        low: t[i * CELL + LOW],
        high: t[i * CELL + HIGH],
    }
}

fn put_cell(t: &mut Cells, i: usize, c: Cell)
    requires { i < CELLS }
    ensures { t.new ≡ cell_set t.old i c }
{
    t[i * CELL + OWNER] = c.owner;
    t[i * CELL + KIND] = c.kind;
    t[i * CELL + LOW] = c.low;
    t[i * CELL + HIGH] = c.high;
}

fn same_sequence(a: Cell, b: Cell) -> bool
    ensures { (p q : Row) → Tells a p → Tells b q → result ≡ same_sequence p q }
{
    a.low == b.low && a.high == b.high && a.kind % SHARED == b.kind % SHARED
}

pub fn conflicts(a: Cell, b: Cell) -> bool
    ensures { (p q : Row) → Tells a p → Tells b q → result ≡ conflict p q }
{
    a.low == b.low
        && a.owner != b.owner
        && (a.kind < SHARED || b.kind < SHARED)
        && same_sequence(a, b)
}

// The row c waits behind the first n.
fn waits_behind(t: &Cells, n: usize, c: Cell) -> bool
    requires { n ≤ CELLS }
    ensures { (rows : List Row) (r : Row) → Shows t.now rows → n ≤ length rows → Tells c r → result ≡ waits (take n rows) r }
{
    // (0..n).any(..) took 7 to 12 % longer, here and in is_waiting.
    for i in 0..n {
        if conflicts(c, cell_at(t, i)) {
            return true;
        }
    }
    false
}

// A row of that owner waits. A sleeper's row that waits is its last, so the loop goes backward.
pub fn is_waiting(t: &Cells, used: usize, owner: u64) -> bool
    requires { used ≤ CELLS }
    ensures { (rows : List Row) → Shows t.now rows → length rows ≡ used → result ≡ not (is_zero (length (waiting_of owner rows))) }
{
    for i in (0..used).rev() {
        let c = cell_at(t, i);
        if c.owner == owner && waits_behind(t, i, c) {
            return true;
        }
    }
    false
}

// The row x is of c's owner and for its sequence.
fn is_twin(c: Cell, x: Cell) -> bool
    ensures { (r q : Row) → Tells c r → Tells x q → result ≡ twin r q }
{
    x.owner == c.owner && same_sequence(c, x)
}

// The owner of c has a row for its sequence.
pub fn has_twin(t: &Cells, used: usize, c: Cell) -> bool
    requires { used ≤ CELLS }
    ensures { (rows : List Row) (r : Row) → Shows t.now rows → length rows ≡ used → Tells c r → result ≡ has_twin r rows }
{
    (0..used).any(|i| is_twin(c, cell_at(t, i)))
}

// How the request c stands to the rows.
pub fn stands(t: &Cells, used: usize, c: Cell) -> Standing
    requires { used ≤ CELLS }
    ensures { (rows : List Row) (r : Row) → Shows t.now rows → length rows ≡ used → Tells c r → result ≡ standing_of rows r }
{
    let mut standing = Standing::Free;
    for i in 0..used {
        let x = cell_at(t, i);
        if same_sequence(c, x) {
            if x.owner == c.owner {
                return Standing::Held;
            }
            if x.kind < SHARED || c.kind < SHARED {
                standing = Standing::Waits;
            }
        }
    }
    standing
}

// The new row comes last.
pub fn append(t: &mut Cells, used: usize, c: Cell)
    requires { used < CELLS }
    ensures { (rows : List Row) (r : Row) → Rows t.old rows → length rows ≡ used → Tells c r → Rows t.new (rows ++ r ∷ []) }
{
    put_cell(t, used, c);
}

// The last row goes.
pub fn drop_last(t: &mut Cells, used: usize)
    requires { used < CELLS }
    ensures { (rows : List Row) (r : Row) → Rows t.old (rows ++ r ∷ []) → length rows ≡ used → Rows t.new rows }
{
    put_cell(t, used, Cell::default());
}

// The row x, behind the k rows that stay of those ahead of it, is of the part of the rows of c's owner that goes.
fn is_gone(t: &Cells, k: usize, c: Cell, x: Cell, part: Part) -> bool
    requires { k ≤ CELLS }
    ensures { (rows : List Row) (r q : Row) → Shows t.now rows → k ≤ length rows → Names part c r → Tells x q → result ≡ goes part r (take k rows) q }
{
    if x.owner != c.owner {
        return false;
    }
    match part {
        Part::Twin => same_sequence(c, x),
        Part::All => true,
        Part::Waiting => waits_behind(t, k, x),
    }
}

// The part of the rows of c's owner goes, and the others move up; how many stay. What lies behind them is as it was.
fn close_up(t: &mut Cells, used: usize, c: Cell, part: Part) -> usize
    requires { used ≤ CELLS }
    ensures few { result ≤ used }
    ensures closed { (rows : List Row) (r : Row) → Rows t.old rows → length rows ≡ used → Names part c r → Closed part r rows t.new result }
{
    let mut k = 0;
    for i in 0..used {
        let x = cell_at(t, i);
        if !is_gone(t, k, c, x, part) {
            if k < i {
                put_cell(t, k, x);
            }
            k += 1;
        }
    }
    k
}

// Rows of c's owner go: the one for its sequence, all, or those that wait. How many stay. What lies behind them becomes zero.
pub fn take_out(t: &mut Cells, used: usize, c: Cell, part: Part) -> usize
    requires { used ≤ CELLS }
    ensures { (rows : List Row) (r : Row) → Rows t.old rows → length rows ≡ used → Names part c r → Left part r rows t.new result }
{
    let k = close_up(t, used, c, part);
    t[k * CELL..used * CELL].fill(0);
    k
}
