// The writer's routines for the C desk. A writer is a number: the paper's length, its events and its sequences.
ghost use Rattle.std.specs.Prelude.{◌≡◌};
ghost use Rattle.papers.specs.Bytes.{run};
ghost use Rattle.papers.specs.Entries.{entry_at};
ghost use Rattle.forms.specs.Adding.{added, event as event_item, sequence as sequence_item};
ghost use Rattle.brinefeather.specs.Desk.{writer_of, writer_number, added_number};

use forms::items::*;
use papers::{entry_of, sequence_of};
use writer::{add_event, add_sequence};

// A function, and no `From`: Writer is another crate's. The length is not read back.
fn writer_of(n: u64) -> Writer
    ensures { result ≡ writer_of n }
{
    Writer {
        events: (n / 65536 % 65536) as u16,
        sequences: (n % 65536) as u16,
    }
}

fn writer_number(w: Writer) -> u64
    ensures { result ≡ writer_number w }
{
    let length = w.length() as u64;
    let events = u64::from(w.events);
    let sequences = u64::from(w.sequences);
    (length * 65536 + events) * 65536 + sequences
}

fn added_number(a: Result<Writer, Refusal>) -> u64
    ensures { result ≡ added_number a }
{
    match a {
        Ok(w) => writer_number(w),
        Err(r) => u64::from(r.number()),
    }
}

pub fn brinefeather_add_sequence(writer: u64, paper: &mut [u8], sequence: &[u8]) -> u64
    ensures { (result ≡ added_number (added (writer_of writer) paper.old (sequence_item (run sequence.now 0 16))).0) × (paper.new ≡ (added (writer_of writer) paper.old (sequence_item (run sequence.now 0 16))).1) }
{
    added_number(add_sequence(writer_of(writer), paper, sequence_of(sequence)))
}

pub fn brinefeather_add_event(writer: u64, paper: &mut [u8], event: &[u8]) -> u64
    ensures { (result ≡ added_number (added (writer_of writer) paper.old (event_item (entry_at event.now 0))).0) × (paper.new ≡ (added (writer_of writer) paper.old (event_item (entry_at event.now 0))).1) }
{
    added_number(add_event(writer_of(writer), paper, entry_of(event)))
}
