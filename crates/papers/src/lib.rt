// Papers and sheets as bytes: their layout, the events of a paper, the answers of a sheet.
#![tactic(auto)]

mod answers;
mod bytes;
pub mod entries;
mod events;
pub mod layout;

pub use crate::answers::{answer_bytes, header, place, put_reply, stands_at};
pub use crate::entries::{entry_of, sequence_of};
pub use crate::events::event;
pub use crate::layout::{paper, sheet};
