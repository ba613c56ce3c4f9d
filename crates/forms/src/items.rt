// What a writer of papers holds, and why it refuses.
ghost use Rattle.std.specs.Prelude.{◌≡◌};
ghost use Rattle.forms.specs.Adding.{length_for, number_of};

// How many events and sequences the paper so far has.
#[derive(Clone, Copy, Debug, Default, PartialEq, Eq)]
pub struct Writer {
    pub events: u16,
    pub sequences: u16,
}

impl Writer {
    // The bytes of the paper so far.
    pub fn length(self) -> usize
        ensures { result ≡ length_for self }
    {
        12 + 20 * usize::from(self.events) + 16 * usize::from(self.sequences)
    }
}

// The refusals of a writer, in the order of their tests, with their numbers.
#[derive(Clone, Copy, Debug, PartialEq, Eq)]
pub enum Refusal {
    Badpaper = 15,
    Order = 26,
    Full = 20,
    Noroom = 18,
}

impl Refusal {
    pub fn number(self) -> u8
        ensures { result ≡ number_of self }
    {
        self as u8
    }
}
