//! The batches of one key's snapshot: what a journal has to say of the key so that its replay brings the key back.
#![tactic(auto)]

mod entries;
mod laws;
mod snapshot;

pub use laws::{batches_law, restoring_law, weighing_law};
pub use snapshot::snapshot_batches;
