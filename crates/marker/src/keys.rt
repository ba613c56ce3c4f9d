// The key of a paper, written into a lent buffer.
ghost use Rattle.std.specs.Prelude.{◌≡◌, ◌++◌, map, ◌+◌, ◌*◌, ◌≤◌, length, drop};
ghost use Rattle.rules.specs.State.{laid, fresh};
ghost use Rattle.rules.specs.Play.{answers_from};
ghost use Rattle.papers.specs.Bytes.{joined};
ghost use Rattle.papers.specs.Events.{events_from};
ghost use Rattle.papers.specs.Answers.{answer_bytes, sheet_header};
ghost use Rattle.marker.specs.Key.{keyed};

use model::System;
use papers::layout::Refusal;
use papers::{event, header, paper, put_reply};

// Puts the answers to the paper's first n events at the start of what is left of the key.
fn put_answers(p: &[u8], n: u16, out: &mut [u8])
    requires { 16 * n ≤ length out.old }
    ensures { out.new ≡ joined (map answer_bytes (answers_from (laid fresh) (events_from p.now 12 n))) ++ drop (16 * n) out.old }
{
    // The loop of `right_places` plays the paper too. An iterator of the answers would spare each two lines, and take a struct and an impl that state its items again.
    let mut system = System::fresh();
    for i in 0..n {
        let answer = system.turn(event(p, i));
        put_reply(&mut out[16 * (i as usize)..], &answer);
    }
}

// Writes the header and the answers to the paper's first n events.
fn put_key(p: &[u8], n: u16, out: &mut [u8])
    requires { 6 + 16 * n ≤ length out.old }
    ensures { out.new ≡ sheet_header n ++ joined (map answer_bytes (answers_from (laid fresh) (events_from p.now 12 n))) ++ drop (6 + 16 * n) out.old }
{
    let head = header(n);
    out[..6].copy_from_slice(&head);
    put_answers(p, n, &mut out[6..]);
}

// Writes the key of a paper, all of it or no byte, and gives its length.
#[tactic(auto, unfolding(crate::specs::Key::keyed))]
pub fn key(p: &[u8], out: &mut [u8]) -> Result<usize, Refusal>
    ensures { (result, out.new) ≡ keyed p.now out.old }
{
    let n = paper(p)?;
    let length = 6 + 16 * (n as usize);
    if out.len() < length {
        return Err(Refusal::Noroom);
    }
    put_key(p, n, out);
    Ok(length)
}
