// What an accepted call puts into the buffer.
ghost use Rattle.std.specs.Prelude.{◌≡◌, ◌++◌, ◌+◌, ◌*◌, ◌≤◌, length, take, drop};
ghost use Rattle.forms.specs.Form.{entry_bytes, paper_header};

use crate::records::*;
use papers::entries::Entry;

// Puts an item at the start, before the n bytes that stand there.
#[inline(always)]
fn put_item<const N: usize>(out: &mut [u8], n: usize, item: &[u8; N])
    requires { N + n ≤ length out.old }
    ensures { out.new ≡ item.now ++ take n out.old ++ drop (N + n) out.old }
{
    out.copy_within(..n, N);
    out[..N].copy_from_slice(item);
}

// Writes a header, and puts an item k bytes behind it, before the n bytes that stand there.
#[inline(always)]
fn lay<const N: usize>(out: &mut [u8], header: &[u8; 12], k: usize, n: usize, item: &[u8; N])
    requires { 12 + k + (N + n) ≤ length out.old }
    ensures { out.new ≡ header.now ++ take k (drop 12 out.old) ++ item.now ++ take n (drop (12 + k) out.old) ++ drop (12 + k + (N + n)) out.old }
{
    out[..12].copy_from_slice(header);
    put_item(&mut out[12 + k..], n, item);
}

// The two below share `lay`: the header's counts, the place and what stands behind it differ, and are all that each says.
// One event more, behind the events and before the sequences: the counts are those before it.
pub(crate) fn lay_event(out: &mut [u8], events: u16, sequences: u16, e: Entry)
    requires { (events + 1 ≤ 1000) × (sequences ≤ 64) × (12 + 20 * events + (20 + 16 * sequences) ≤ length out.old) }
    ensures { out.new ≡ paper_header (events + 1) sequences ++ take (20 * events) (drop 12 out.old) ++ entry_bytes e ++ take (16 * sequences) (drop (12 + 20 * events) out.old) ++ drop (12 + 20 * events + (20 + 16 * sequences)) out.old }
{
    let header = paper_header(events + 1, sequences);
    let behind = 16 * (sequences as usize);
    lay(
        out,
        &header,
        20 * (events as usize),
        behind,
        &entry_bytes(e),
    );
}

// One sequence more, behind the sequences of a paper without events: the count is the one before it.
pub(crate) fn lay_sequence(out: &mut [u8], sequences: u16, s: [u8; 16])
    requires { (sequences + 1 ≤ 64) × (12 + 16 * sequences + 16 ≤ length out.old) }
    ensures { out.new ≡ paper_header 0 (sequences + 1) ++ take (16 * sequences) (drop 12 out.old) ++ s ++ drop (12 + 16 * sequences + 16) out.old }
{
    let header = paper_header(0, sequences + 1);
    lay(out, &header, 16 * (sequences as usize), 0, &s);
}
