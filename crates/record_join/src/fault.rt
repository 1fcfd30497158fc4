//! Why keys or books could not be taken in.
use thiserror::Error;

/// Why a key did not begin. Nothing has changed.
#[derive(Clone, Copy, PartialEq, Eq, Debug, Error)]
pub enum BeginFault {
    /// 65,536 keys are kept, and this would be another.
    #[error("too many keys: {have} and {new}")]
    TooManyKeys {
        /// How many keys are kept.
        have: u64,
        /// How many new ones there would be: 1.
        new: u64,
    },
    /// Memory ran out.
    #[error("out of memory")]
    OutOfMemory,
}

/// Why nothing was merged or joined. Each record keeps what it kept.
#[derive(Clone, Copy, PartialEq, Eq, Debug, Error)]
pub enum MergeFault {
    /// With the new keys there would be more than 65,536.
    #[error("too many keys: {have} and {new}")]
    TooManyKeys {
        /// How many keys are kept.
        have: u64,
        /// How many keys there are that are not kept.
        new: u64,
    },
    /// Memory ran out.
    #[error("out of memory")]
    OutOfMemory,
}
