// How an event is answered, and the refusals of events by their numbers.

// The kind of an answer.
#[derive(Clone, Copy, Debug, PartialEq, Eq)]
pub enum AnswerKind {
    Done = 0,
    NowAsleep = 1,
    CallerEnded = 2,
    Refused = 3,
}

// The refusals of events, with the numbers that the table of refusals gives them.
#[derive(Clone, Copy, Debug, PartialEq, Eq)]
pub enum Refusal {
    Badstate = 1,
    Badcaller = 2,
    Asleep = 3,
    Trap = 4,
    Badcall = 5,
    Notmodelled = 6,
    Priv = 7,
    Noproc = 8,
    Nomemory = 9,
    Held = 10,
    Locked = 11,
    Deadlock = 12,
    Lcktable = 13,
    Notlocked = 14,
}
