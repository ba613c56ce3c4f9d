// A sheet marked by its paper.
ghost use Rattle.std.specs.Prelude.{◌≡◌, map};
ghost use Rattle.rules.specs.State.{laid, fresh};
ghost use Rattle.rules.specs.Play.{answers_from};
ghost use Rattle.papers.specs.Bytes.{sixteens_from};
ghost use Rattle.papers.specs.Events.{events_from};
ghost use Rattle.papers.specs.Answers.{answer_bytes};
ghost use Rattle.marker.specs.Mark.{right_places, marked, is_perfect};

use model::System;
use papers::layout::Refusal;
use papers::{event, paper, sheet, stands_at};

// The counts of a mark.
#[derive(Clone, Copy, Debug, PartialEq, Eq)]
pub struct Counts {
    pub total: u16,
    pub right: u16,
    pub missing: u16,
    pub surplus: u16,
}

// In how many of the first n places the sheet has the answer to the paper's event.
fn right_places(p: &[u8], sheet: &[u8], n: u16) -> u16
    ensures { result ≡ right_places (map answer_bytes (answers_from (laid fresh) (events_from p.now 12 n))) (sixteens_from sheet.now 6 n) }
{
    // The loop of `put_answers` plays the paper too. An iterator of the answers would spare each two lines, and take a struct and an impl that state its items again.
    let mut system = System::fresh();
    let mut right: u16 = 0;
    for i in 0..n {
        let answer = system.turn(event(p, i));
        if stands_at(sheet, i, &answer) {
            right += 1;
        }
    }
    right
}

// Marks a sheet by its paper, which is played once, as far as the sheet has answers.
#[tactic(auto, unfolding(crate::specs::Mark::marked))]
pub fn mark(p: &[u8], s: &[u8]) -> Result<Counts, Refusal>
    ensures { result ≡ marked p.now s.now }
{
    let total = paper(p)?;
    let answers = sheet(s)?;
    Ok(Counts {
        total,
        right: right_places(p, s, total.min(answers)),
        missing: total.saturating_sub(answers),
        surplus: answers.saturating_sub(total),
    })
}

// Whether every event was answered rightly, with no answer over.
pub fn perfect(m: Result<Counts, Refusal>) -> bool
    ensures { result ≡ is_perfect m }
{
    m.is_ok_and(|m| m.right == m.total && m.surplus == 0)
}
