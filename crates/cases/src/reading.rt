// Lines of a story: numbers apart by spaces.
ghost use Rattle.std.specs.Prelude.{◌<◌, length, IfSome, OnSome};

use rules::state::Event;

// What is left to read of a line.
#[derive(Drop)]
pub(crate) struct Line<'a> {
    rest: &'a [u8],
}

impl<'a> Line<'a> {
    pub(crate) fn new(rest: &'a [u8]) -> Line<'a> {
        Line { rest }
    }

    // In base 10 or 16; what does not fit 32 bits goes.
    pub(crate) fn number(&mut self, base: u32) -> u32 {
        self.skip_spaces();
        let mut value: u32 = 0;
        while let Some(d) = self.digit(base) {
            value = value.wrapping_mul(base).wrapping_add(d);
        }
        value
    }

    fn skip_spaces(&mut self) {
        while let [b' ', rest @ ..] = self.rest {
            self.rest = rest;
        }
    }

    fn digit(&mut self, base: u32) -> Option<u32>
        ensures { OnSome result (length self.new.rest.now < length self.old.rest.now) }
    {
        let (c, rest) = self.rest.split_first()?;
        let d = digit(*c).filter(|d| *d < base)?;
        self.rest = rest;
        Some(d)
    }

    // Up to a space.
    fn word(&mut self) -> &'a [u8] {
        self.skip_spaces();
        let end = self
            .rest
            .iter()
            .position(|c| *c == b' ')
            .unwrap_or(self.rest.len());
        let (word, rest) = self.rest.split_at(end);
        self.rest = rest;
        word
    }
}

fn digit(c: u8) -> Option<u32>
    ensures { IfSome result (λ d. d < 16) }
{
    match c {
        b'0'..=b'9' => Some(u32::from(c - b'0')),
        b'A'..=b'F' => Some(u32::from(c - b'A' + 10)),
        _ => None,
    }
}

// Kind, call (in base 16), caller, D0 to D3, A0, and the bytes of a sequence or - for none.
pub(crate) fn event(line: &[u8]) -> Event {
    let mut line = Line::new(line);
    let kind = low_byte(line.number(10));
    let call = low_byte(line.number(16));
    let caller = low_half(line.number(10));
    let d0 = low_half(line.number(10));
    let d1 = low_half(line.number(10));
    let d2 = low_half(line.number(10));
    let d3 = line.number(10);
    let a0 = line.number(10);
    let word = line.word();
    Event {
        kind,
        call,
        caller,
        d0,
        d1,
        d2,
        d3,
        a0,
        named: word.first().is_some_and(|c| *c != b'-'),
        seq: sequence(word),
    }
}

pub(crate) fn low_byte(n: u32) -> u8 {
    (n % 256) as u8
}

pub(crate) fn low_half(n: u32) -> u16 {
    (n % 65536) as u16
}

// The first 16 bytes of the word.
pub(crate) fn sequence(word: &[u8]) -> [u8; 16] {
    let mut bytes = [0; 16];
    let n = word.len().min(16);
    bytes[..n].copy_from_slice(&word[..n]);
    bytes
}
