//! Blocks of Altair, and whole blocks of any version that is read.
#![tactic(auto)]

mod any_block;
mod block;
mod sync_aggregate;
mod version;

pub use any_block::{AnyBlock, signed_to_value};
pub use block::{AltairBlock, AltairBlockBody};
pub use sync_aggregate::SyncAggregate;
pub use version::{ConsensusVersion, version_at};
