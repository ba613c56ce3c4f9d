// The routines that C calls: each answers one 64-bit number.
#![tactic(auto)]

mod desk;
mod writing;

pub use crate::desk::{brinefeather_key, brinefeather_mark};
pub use crate::writing::{brinefeather_add_event, brinefeather_add_sequence};
