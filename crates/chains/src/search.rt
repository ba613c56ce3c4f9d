// The search for a chain of waits that leads from a new row back to its caller, over the rows where they lie. One row is held
// against another only when the search comes to that pair.
ghost use Rattle.std.specs.Prelude.{◌≡◌, true, ◌↔◌, List, [], ◌∷◌, ◌++◌, ℕ, ◌<◌, length};
ghost use Rattle.locks.specs.declared.rows.Row.{Row};
ghost use Rattle.chains.specs.Chains.{Link, Chain};
ghost use Rattle.locks.specs.Cells.{CELLS, Shows};
ghost use Rattle.chains.specs.Search.{owner_at, First, Leads, Ready, Searched};

use locks::cells::*;

// The first row of the owner of row a.
fn first_row(t: &Cells, a: usize) -> usize
    requires { a < CELLS }
    ensures { First t.now a result }
{
    let p = t[a * CELL + OWNER];
    // (0..a).find(..).unwrap_or(a) is proved too, and leads_back took 3 to 5 % longer with it.
    for i in 0..a {
        if t[i * CELL + OWNER] == p {
            return i;
        }
    }
    a
}

// From the owner of row i to its own rows, the first of which is `from`, each held against the rows ahead of it. The caller's new
// row is the last: the first pair whose row ahead is the caller's closes the chain, and the search stops there.
#[cycle(owner_to_row_row_to_owners)]
fn owner_to_row(t: &Cells, last: usize, i: usize, from: usize, opened: &mut [bool; CELLS]) -> bool
    requires { Ready last i opened.old × First t.now i from }
    ensures { Searched t.now last (owner_at t.now i) (Leads t.now last (owner_at t.now i)) opened.old result opened.new }
{
    let p = cell_at(t, i).owner;
    let c = cell_at(t, last).owner;
    let mut found = false;
    'pairs: for w in from..=last {
        let x = cell_at(t, w);
        if x.owner == p {
            for a in 0..w {
                let y = cell_at(t, a);
                if conflicts(x, y) && (y.owner == c || row_to_owners(t, last, a, opened)) {
                    found = true;
                    break 'pairs;
                }
            }
        }
    }
    found
}

// From row a, which is in the way of a row that the search came to, to its owner, and on if that is not opened yet.
#[cycle(owner_to_row_row_to_owners)]
fn row_to_owners(t: &Cells, last: usize, a: usize, opened: &mut [bool; CELLS]) -> bool
    requires { Ready last a opened.old × (owner_at t.now a ≡ owner_at t.now last → ⊥) }
    ensures { Searched t.now last (owner_at t.now a) (◌≡◌ (owner_at t.now a)) opened.old result opened.new }
{
    let k = first_row(t, a);
    if opened[k] {
        return false;
    }
    opened[k] = true;
    owner_to_row(t, last, a, k, opened)
}

// From the last row, which is new, a chain leads back to its owner.
pub fn leads_back(t: &Cells, last: usize) -> bool
    requires { last < CELLS }
    ensures { (rows : List Row) (r : Row) → Shows t.now (rows ++ r ∷ []) → length rows ≡ last → (result ≡ true) ↔ Chain (Link (rows ++ r ∷ [])) r.owner r.owner }
{
    let mut opened = [false; CELLS];
    let from = first_row(t, last);
    owner_to_row(t, last, last, from, &mut opened)
}
