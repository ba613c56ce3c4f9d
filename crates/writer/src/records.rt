// The bytes of an event and of a paper's header.
ghost use Rattle.std.specs.Prelude.{◌≡◌, ◌≤◌};
ghost use Rattle.forms.specs.Form.{entry_bytes, paper_header};

use papers::entries::Entry;

pub(crate) fn entry_bytes(e: Entry) -> [u8; 20]
    ensures { result ≡ entry_bytes e }
{
    let mut bytes = [0; 20];
    bytes[0] = e.kind;
    bytes[1] = e.call;
    bytes[2..4].copy_from_slice(&e.caller.to_be_bytes());
    bytes[4..6].copy_from_slice(&e.d0.to_be_bytes());
    bytes[6..8].copy_from_slice(&e.d1.to_be_bytes());
    bytes[8..10].copy_from_slice(&e.d2.to_be_bytes());
    bytes[10..14].copy_from_slice(&e.d3.to_be_bytes());
    bytes[14..18].copy_from_slice(&e.a0.to_be_bytes());
    bytes[18..].copy_from_slice(&e.sequence.to_be_bytes());
    bytes
}

// The header of a paper with these counts.
#[inline(always)]
pub(crate) fn paper_header(events: u16, sequences: u16) -> [u8; 12]
    requires { (events ≤ 1000) × (sequences ≤ 64) }
    ensures { result ≡ paper_header events sequences }
{
    let sequences_at = 12 + 20 * events;
    let length = sequences_at + 16 * sequences;
    let numbers = [1, events, 12, sequences, sequences_at, length];
    let mut bytes = [0; 12];
    // Not `chunks_exact_mut`: after it a proof knows the length of the bytes and none of them.
    for (k, x) in numbers.iter().enumerate() {
        bytes[2 * k..2 * k + 2].copy_from_slice(&x.to_be_bytes());
    }
    bytes
}
