// Processes end, signals arrive, seconds pass.
#![tactic(auto)]

mod clock;
mod endings;
mod kills;
mod masks;
mod signals;

pub use crate::clock::tick;
pub use crate::kills::{exit, kill};
