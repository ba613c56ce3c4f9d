// Lock and unlock, and who wakes when rows have gone.
#![tactic(auto)]

mod locking;

pub use crate::locking::{grant, lock, release, unlock};
