//! The payloads of a journal: batches of items, each with one spelling in bytes.
#![tactic(auto)]

mod item;
mod reading;
mod version;
mod writing;

pub use item::{BadAt, JournalItem};
pub use reading::{check_batch, decode};
pub use version::JournalVersion;
pub use writing::encode;
