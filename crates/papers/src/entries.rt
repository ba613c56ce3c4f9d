// An event as the paper has it.
ghost use Rattle.std.specs.Prelude.{◌≡◌};
ghost use Rattle.papers.specs.Bytes.{run};
ghost use Rattle.papers.specs.Entries.{entry_at};

use crate::bytes::*;

// With the number of its sequence, 0 for none.
#[derive(Clone, Copy)]
pub struct Entry {
    pub kind: u8,
    pub call: u8,
    pub caller: u16,
    pub d0: u16,
    pub d1: u16,
    pub d2: u16,
    pub d3: u32,
    pub a0: u32,
    pub sequence: u16,
}

// The event whose 20 bytes stand at `at`.
pub(crate) fn entry_at(file: &[u8], at: u32) -> Entry
    ensures { result ≡ entry_at file.now at }
{
    let bytes: [u8; 20] = bytes_at(file, at);
    Entry {
        kind: bytes[0],
        call: bytes[1],
        caller: number(&bytes, 2),
        d0: number(&bytes, 4),
        d1: number(&bytes, 6),
        d2: number(&bytes, 8),
        d3: long_number(&bytes, 10),
        a0: long_number(&bytes, 14),
        sequence: number(&bytes, 18),
    }
}

// The event that is given alone, by its 20 bytes.
pub fn entry_of(event: &[u8]) -> Entry
    ensures { result ≡ entry_at event.now 0 }
{
    entry_at(event, 0)
}

// The sequence that is given alone, by its 16 bytes.
pub fn sequence_of(sequence: &[u8]) -> [u8; 16]
    ensures { result ≡ run sequence.now 0 16 }
{
    bytes_at(sequence, 0)
}
