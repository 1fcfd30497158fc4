//! What is written into a journal of each change, and what a journal brings back.
#![tactic(auto)]

mod batches;
mod fault;
mod histories;
mod key_history;
mod laws;
mod payloads;
mod state;
mod watches;

pub use batches::{book_items, file_items, message_item, message_items};
pub use fault::ReplayFault;
pub use laws::{pruning_law, record_law, replay_laws};
pub use payloads::{Replayed, replay};
pub use state::KeyState;
