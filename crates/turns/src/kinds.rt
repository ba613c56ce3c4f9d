// What an event asks, by the number of its kind.
ghost use Rattle.std.specs.Prelude.{◌≡◌, false, MatchResult};
ghost use Rattle.locks.specs.Lists.{between};
ghost use Rattle.rules.specs.Outcome.{badcall};
ghost use Rattle.turns.specs.Kinds.{IsKind};

use rules::outcome::Refusal;

// What a live process that is awake may ask.
#[derive(Clone, Copy, Debug, PartialEq, Eq)]
pub enum Asked {
    Call,
    Take,
    Report,
}

#[derive(Clone, Copy, Debug, PartialEq, Eq)]
pub enum EventKind {
    Tick,
    OfCaller(Asked),
}

impl TryFrom<u8> for EventKind {
    type Error = Refusal;

    ghost try_from_gives = { λ n r. MatchResult r (IsKind n) (λ e. (e ≡ badcall) × (between 1 4 n ≡ false)) };

    fn try_from(number: u8) -> Result<EventKind, Refusal> {
        match number {
            1 => Ok(EventKind::OfCaller(Asked::Call)),
            2 => Ok(EventKind::Tick),
            3 => Ok(EventKind::OfCaller(Asked::Take)),
            4 => Ok(EventKind::OfCaller(Asked::Report)),
            _ => Err(Refusal::Badcall),
        }
    }
}
