// What a number is by itself: the class of a call number, whether a priority lies in its range.
#![tactic(auto)]

mod class;
mod priority;

pub use crate::class::class_of;
pub use crate::priority::in_priority;
