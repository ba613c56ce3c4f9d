// An answer as four numbers: its sixteen bytes, the first of each four the highest.
ghost use Rattle.std.specs.Prelude.{◌≡◌, ◌<◌};
ghost use Rattle.rules.specs.Outcome.{kind_number};
ghost use Rattle.rules.specs.Reply.{four_of};
ghost use Rattle.places.specs.Settled.{answer_of, masked, told};

use rules::outcome::*;

// Kept packed: the four numbers are what a key is written from and a sheet is compared with, four bytes at a time.
pub type Reply = [u32; 4];

// In the first number: the kind stands above its 24th bit, the refusal's number above its 16th.
const KIND_BIT: u32 = 16777216;

const NUMBER_BIT: u32 = 65536;

pub fn refusal(number: u8) -> Reply
    ensures { result ≡ four_of (answer_of 3 number 0 0) }
{
    let kind = AnswerKind::Refused as u32;
    [kind * KIND_BIT + number as u32 * NUMBER_BIT, 0, 0, 0]
}

pub fn plain(kind: AnswerKind, d3: u32, a0: u32) -> Reply
    ensures { result ≡ four_of (answer_of (kind_number kind) 0 d3 a0) }
{
    [kind as u32 * KIND_BIT, 0, d3, a0]
}

pub fn with_masks(kind: AnswerKind, woken: u32, ended: u32) -> Reply
    requires { (woken < 65536) × (ended < 65536) }
    ensures { result ≡ four_of (masked (kind_number kind) woken ended) }
{
    [kind as u32 * KIND_BIT + woken, ended * NUMBER_BIT, 0, 0]
}

// The answer of an event that was answered or refused.
pub fn reply(answer: Result<Reply, Refusal>) -> Reply
    ensures { result ≡ told answer }
{
    match answer {
        Ok(reply) => reply,
        Err(r) => refusal(r as u8),
    }
}
