// Lock rows of a sound state.
ghost use Rattle.std.specs.Prelude.{◌≡◌, false, true, ◌≤◌, drop, length, MatchOption};
ghost use Rattle.locks.specs.Lists.{all, is_zero};
ghost use Rattle.locks.specs.Rows.{zero_row, sound_row};
ghost use Rattle.locks.specs.Cells.{Tells};
ghost use Rattle.soundness.specs.Waiting.{AreFound};

use crate::waiters::Waiters;
use locks::cells::*;
use locks::rows::*;

pub(crate) fn zero_row(r: &Row) -> bool
    ensures { result ≡ zero_row r.now }
{
    *r == Row::default()
}

// Only zeros stand behind the first n bytes.
fn ends_at(bytes: [u8; 16], n: u8) -> bool
    ensures { result ≡ all is_zero (drop n bytes) }
{
    16 <= n || u128::from_le_bytes(bytes) >> (u32::from(n) * 8) == 0
}

// `ns` are the PIDs of the live, here and in the functions below.
#[tactic(auto, using(crate::proofs::Lists::all_same), unfolding(locks::specs::Rows::sound_row))]
fn sound_row(r: &Row, ns: &[u16]) -> bool
    ensures { result ≡ sound_row ns.now r.now }
{
    (1..=16).contains(&r.len) && ns.contains(&r.owner) && ends_at(r.bytes, r.len)
}

// None: the row is not sound.
fn cell_of(r: &Row, ns: &[u16]) -> Option<Cell>
    ensures { MatchOption result (sound_row ns.now r.now ≡ false) (λ c. (sound_row ns.now r.now ≡ true) × Tells c r.now) }
{
    if !sound_row(r, ns) {
        return None;
    }
    Some(Cell::from(*r))
}

// The rows that wait. None: a row is not sound, or has a twin.
pub(crate) fn waiters_of(rows: &[Row], ns: &[u16]) -> Option<Waiters>
    requires { length rows.now ≤ 32 }
    ensures { AreFound ns.now rows.now result }
{
    let mut cells: Cells = [0; WORDS];
    let mut owners = [0; 32];
    let mut count = 0;
    // The first bytes of the rows so far: a row whose first byte is new meets none of them.
    let mut seen = [false; 256];
    for (i, r) in rows.iter().enumerate() {
        let c = cell_of(r, ns)?;
        let first = usize::from(r.bytes[0]);
        if seen[first] {
            match stands(&cells, i, c) {
                Standing::Held => return None,
                Standing::Waits => {
                    owners[count] = r.owner;
                    count += 1;
                }
                Standing::Free => {}
            }
        }
        seen[first] = true;
        append(&mut cells, i, c);
    }
    Some(Waiters { owners, count })
}
