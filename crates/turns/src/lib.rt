// One event, on arrays that hold the state and are changed in place.
#![tactic(auto)]

mod kinds;
mod start;
mod turns;

pub use crate::start::begin;
pub use crate::turns::turn;
