// The two calls of a writer, with their refusals in their order.
ghost use Rattle.std.specs.Prelude.{◌≡◌};
ghost use Rattle.forms.specs.Adding.{event, sequence, begins, is_broken, added};
ghost use Rattle.writer.specs.Reading.{finds};
ghost use Rattle.writer.specs.Refusing.{checked};

use crate::laying::*;
use forms::items::*;
use papers::entries::Entry;
use papers::{layout, paper};

// Whether the reader found a sound paper with so many events; without any it is refused as blank.
fn finds(read: Result<u16, layout::Refusal>, events: u16) -> bool
    ensures { result ≡ finds read events }
{
    match read {
        Ok(n) => n == events,
        Err(layout::Refusal::Blank) => events == 0,
        Err(_) => false,
    }
}

// Whether the buffer begins with a paper of the writer's counts. Its length and its events' count give the other count.
fn begins_with(w: Writer, out: &[u8]) -> bool
    ensures { result ≡ begins w out.now }
{
    out.get(..w.length())
        .is_some_and(|p| finds(paper(p), w.events))
}

// Whether the writer had its first call and the buffer does not begin with its paper.
#[tactic(auto, unfolding(forms::specs::Adding::is_broken))]
fn is_broken(w: Writer, out: &[u8]) -> bool
    ensures { result ≡ is_broken w out.now }
{
    w != Writer::default() && !begins_with(w, out)
}

// The four refusals, in their order: the item's kind says whether it is misplaced or one too many, and how many bytes it adds.
// Not an enum or a trait of items: it would take five methods, each written for both items, in place of the five steps that each call has.
fn check(w: Writer, out: &[u8], misplaced: bool, full: bool, more: u16) -> Result<(), Refusal>
    ensures { result ≡ checked w out.now misplaced full more }
{
    if is_broken(w, out) {
        return Err(Refusal::Badpaper);
    }
    if misplaced {
        return Err(Refusal::Order);
    }
    if full {
        return Err(Refusal::Full);
    }
    if out.len() < w.length() + usize::from(more) {
        return Err(Refusal::Noroom);
    }
    Ok(())
}

pub fn add_sequence(w: Writer, out: &mut [u8], s: [u8; 16]) -> Result<Writer, Refusal>
    ensures { (result, out.new) ≡ added w out.old (sequence s) }
{
    let misplaced = w.events != 0;
    let full = 64 <= w.sequences;
    check(w, out, misplaced, full, 16)?;
    lay_sequence(out, w.sequences, s);
    Ok(Writer {
        sequences: w.sequences + 1,
        ..w
    })
}

pub fn add_event(w: Writer, out: &mut [u8], e: Entry) -> Result<Writer, Refusal>
    ensures { (result, out.new) ≡ added w out.old (event e) }
{
    let misplaced = w.sequences < e.sequence;
    let full = 1000 <= w.events;
    check(w, out, misplaced, full, 20)?;
    lay_event(out, w.events, w.sequences, e);
    Ok(Writer {
        events: w.events + 1,
        ..w
    })
}
