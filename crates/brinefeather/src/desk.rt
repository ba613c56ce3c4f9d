// The routines for the C desk. A Result is handed over as one number: the C interface (desk/brinefeather.h) has no other.
ghost use Rattle.std.specs.Prelude.{◌≡◌};
ghost use Rattle.marker.specs.Key.{keyed};
ghost use Rattle.marker.specs.Mark.{marked};
ghost use Rattle.brinefeather.specs.Desk.{refusal_number, mark_number, key_number};

use marker::mark;
use marker::marks::Counts;
use papers::layout::Refusal;

// The number of a refusal, with its offset in the 16 bits above, if it has one.
fn refusal_number(r: Refusal) -> u64
    ensures { result ≡ refusal_number r }
{
    let number = r.number() as u64;
    match r {
        Refusal::Badpaper(offset) | Refusal::Badsheet(offset) => number + 65536 * (offset as u64),
        Refusal::Blank | Refusal::Noroom => number,
    }
}

fn mark_number(m: Result<Counts, Refusal>) -> u64
    ensures { result ≡ mark_number m }
{
    match m {
        Ok(c) => (((c.total as u64) * 65536 + (c.right as u64)) * 65536 + (c.missing as u64))
            * 65536
            + (c.surplus as u64),
        Err(r) => refusal_number(r),
    }
}

fn key_number(k: Result<usize, Refusal>) -> u64
    ensures { result ≡ key_number k }
{
    match k {
        Ok(length) => length as u64,
        Err(r) => refusal_number(r),
    }
}

pub fn brinefeather_mark(paper: &[u8], sheet: &[u8]) -> u64
    ensures { result ≡ mark_number (marked paper.now sheet.now) }
{
    mark_number(mark(paper, sheet))
}

pub fn brinefeather_key(paper: &[u8], key: &mut [u8]) -> u64
    ensures { (result ≡ key_number (keyed paper.now key.old).0) × (key.new ≡ (keyed paper.now key.old).1) }
{
    key_number(marker::key(paper, key))
}
