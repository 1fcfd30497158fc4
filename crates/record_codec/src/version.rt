//! The versions of a journal's file.

/// The version of a journal's file, by which its items are read.
#[derive(Clone, Copy, PartialEq, Eq, Debug)]
pub enum JournalVersion {
    /// The first: a key becomes active without an epoch, and no answers are kept.
    One,
    /// The second: a key becomes active at an epoch, and answers of whether it was live are kept.
    Two,
}
