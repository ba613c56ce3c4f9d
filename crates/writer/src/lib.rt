// A writer of papers: takes the sequences and then the events, one after another, and lays out a complete paper in a lent buffer.
#![tactic(auto)]

mod adding;
mod laying;
mod records;

pub use crate::adding::{add_event, add_sequence};
