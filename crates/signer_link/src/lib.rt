//! The service that signs: what it is asked, what it replies, and one in memory.
#![tactic(auto)]

mod aggregate;
pub mod keeping;
mod laws;
mod mem_signer;
mod reply;
mod request;
mod signer;
mod version;

pub use aggregate::Aggregate;
pub use laws::plain_law;
pub use mem_signer::MemSigner;
pub use reply::{DeleteReply, ImportReply, SignReply, Told};
pub use request::{
    ImportCall, PlainCall, PlainObject, PlainRequest, SignCall, SignObject, SignRequest,
};
pub use signer::Signer;
pub use version::BlockVersion;
