// Plays stories. Each line is written again, an event with what it was answered: a line that begins with a digit is an event, = is the fresh
// state, ! changes the state by hand, ? looks at it, and anything else is a comment.
ghost use Rattle.std.specs.Prelude.{◌≡◌, List, ℕ};
ghost use Rattle.rules.specs.Step.{step_of};
ghost use Rattle.model.specs.System.{Plays};

use crate::hand::{peek, poke};
use crate::reading::event;
use model::{System, answer_in, fresh, step};
use rules::state::{Answer, Event, State};
use std::{fmt, io};

// A story as far as it is played: its state, for `step`, and a system, for `turn`, which is in the same state until that is changed by hand.
// The system plays on then, so no Option: each event goes through both.
#[derive(Drop)]
struct Story {
    state: State,
    system: System,
    by_hand: bool,
}

// An answer as a story tells it: its outcome, and what is not 0.
#[derive(Clone, Copy)]
struct Told(Answer);

impl fmt::Display for Told {
    fn fmt<W: fmt::Write>(&self, f: &mut fmt::Formatter<W>) -> fmt::Result {
        let a = self.0;
        f.write_str(outcome(a.kind))?;
        tell(f, " ", u32::from(a.number))?;
        tell(f, " woken ", u32::from(a.woken))?;
        tell(f, " ended ", u32::from(a.ended))?;
        tell(f, " D3 ", a.d3)?;
        tell(f, " A0 ", a.a0)
    }
}

fn tell<W: fmt::Write>(f: &mut fmt::Formatter<W>, name: &str, n: u32) -> fmt::Result {
    if n == 0 {
        return Ok(());
    }
    write!(f, "{name}{n}")
}

// The kinds of rules::state::Answer, which are numbers there.
fn outcome(kind: u8) -> &'static str {
    match kind {
        0 => " -> done",
        1 => " -> asleep",
        2 => " -> caller ended",
        3 => " -> refused",
        _ => "",
    }
}

fn begun() -> Story {
    Story {
        state: fresh(),
        system: System::fresh(),
        by_hand: false,
    }
}

// What `step` answers; it should be what `turn` does too, where the story has not changed the state by hand.
fn play_event(rt: &impl Print, story: &mut Story, e: Event) -> io::Result<()>
    ensures stepped { story.new.state ≡ (step_of story.old.state e).state }
    ensures turned { (out : List ℕ) × Plays story.old.system e out story.new.system }
{
    let turned = answer_in(&story.system.turn(e));
    let stepped = step(story.state, e);
    story.state = stepped.state;
    print!(rt; "{}", Told(stepped.answer))?;
    if !story.by_hand && turned != stepped.answer {
        print!(rt; " and turn differs")?;
    }
    Ok(())
}

fn play_line(rt: &impl Print, story: &mut Story, line: &[u8]) -> io::Result<()> {
    rt.write_all(line)?;
    match line {
        [b'=', ..] => *story = begun(),
        [b'!', rest @ ..] => {
            poke(&mut story.state, rest);
            story.by_hand = true;
        }
        [b'?', rest @ ..] => {
            let field = peek(&story.state, rest);
            print!(rt; " -> {field}")?;
        }
        [b'0'..=b'9', ..] => play_event(rt, story, event(line))?,
        _ => {}
    }
    println!(rt; "")
}

fn play(rt: &impl Print, text: &[u8]) -> io::Result<()> {
    let mut story = begun();
    for line in text.split_inclusive(|c| *c == b'\n') {
        play_line(rt, &mut story, line.strip_suffix(b"\n").unwrap_or(line))?;
    }
    Ok(())
}

// The stories are on standard input.
pub(crate) fn play_all(rt: &(impl Print + Input)) -> io::Result<()> {
    let mut text = [0u8; 65536];
    let n = files::fill(&mut rt.reader(), &mut text)?;
    play(rt, &text[..n])
}
