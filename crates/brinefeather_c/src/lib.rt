// The archive that C links: the routines under C's names. Each does what the one of that name in `brinefeather` does.
#![tactic(auto)]

ghost use Rattle.std.specs.Prelude.{◌≡◌};
ghost use Rattle.papers.specs.Bytes.{run};
ghost use Rattle.papers.specs.Entries.{entry_at};
ghost use Rattle.forms.specs.Adding.{added, event as event_item, sequence as sequence_item};
ghost use Rattle.marker.specs.Key.{keyed};
ghost use Rattle.marker.specs.Mark.{marked};
ghost use Rattle.brinefeather.specs.Desk.{mark_number, key_number, writer_of, added_number};

#[unsafe(no_mangle)]
pub extern "C" fn brinefeather_mark(paper: &[u8], sheet: &[u8]) -> u64
    ensures { result ≡ mark_number (marked paper.now sheet.now) }
{
    brinefeather::brinefeather_mark(paper, sheet)
}

#[unsafe(no_mangle)]
pub extern "C" fn brinefeather_key(paper: &[u8], key: &mut [u8]) -> u64
    ensures { (result ≡ key_number (keyed paper.now key.old).0) × (key.new ≡ (keyed paper.now key.old).1) }
{
    brinefeather::brinefeather_key(paper, key)
}

#[unsafe(no_mangle)]
pub extern "C" fn brinefeather_add_sequence(writer: u64, paper: &mut [u8], sequence: &[u8]) -> u64
    ensures { (result ≡ added_number (added (writer_of writer) paper.old (sequence_item (run sequence.now 0 16))).0) × (paper.new ≡ (added (writer_of writer) paper.old (sequence_item (run sequence.now 0 16))).1) }
{
    brinefeather::brinefeather_add_sequence(writer, paper, sequence)
}

#[unsafe(no_mangle)]
pub extern "C" fn brinefeather_add_event(writer: u64, paper: &mut [u8], event: &[u8]) -> u64
    ensures { (result ≡ added_number (added (writer_of writer) paper.old (event_item (entry_at event.now 0))).0) × (paper.new ≡ (added (writer_of writer) paper.old (event_item (entry_at event.now 0))).1) }
{
    brinefeather::brinefeather_add_event(writer, paper, event)
}
