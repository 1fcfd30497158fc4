//! The limits of a message.

/// How many bytes a head may have, and so may the line of a chunk.
pub const HEAD_LIMIT: usize = 65_536;

/// How many bytes a body may have.
pub const BODY_LIMIT: u64 = 16_777_216;

/// How many bytes are asked of a link at once.
pub(crate) const PIECE: usize = 4096;
