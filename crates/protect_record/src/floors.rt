//! The floors that imported books set.

/// The floors of a key (EIP-3076, conditions 2, 4 and 5). Each is the greatest, over the imported books, of
/// the least value in the book. It is absent where no book has such entries.
#[derive(Clone, Copy, PartialEq, Eq, Debug)]
pub struct Floors {
    /// The floor of blocks, a slot.
    pub block: Option<u64>,
    /// The floors of votes: a source epoch and a target epoch.
    pub vote: Option<(u64, u64)>,
}
