//! Why payloads are not replayed.
use thiserror::Error;

/// Why payloads are not replayed.
#[derive(Clone, Copy, PartialEq, Eq, Debug, Error)]
pub enum ReplayFault {
    /// They name more than 65,536 keys: none is kept, and `new` would be.
    #[error("{have} keys and {new} new ones are more than 65536")]
    TooManyKeys {
        /// How many keys are kept: none.
        have: u64,
        /// How many different keys are named.
        new: u64,
    },
    /// Memory ran out.
    #[error("out of memory")]
    OutOfMemory,
}
