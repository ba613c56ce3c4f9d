// One process in its place: the calls that touch their caller alone, take, the wake report; its child.
#![tactic(auto)]

mod child;
mod own;

pub use crate::child::fshell;
pub use crate::own::{Registers, own_call, report, take};
