//! What the past of a key says of a message.
use protect_record::Verdict;

/// How a message was judged by the past of its key.
#[derive(Clone, Copy, PartialEq, Eq, Debug)]
pub enum Judged {
    /// No past is kept of the key.
    Unknown,
    /// The past forbids the message; never `Verdict::Pass`.
    Refused(Verdict),
    /// The message passes, and there is no room to keep it.
    NoRoom,
    /// The message passes, and there is room to add it.
    Ready {
        /// Whether the past has the message already, with its root.
        repeat: bool,
    },
}

/// How messages of different keys were judged by the pasts of their keys.
#[derive(Clone, Copy, PartialEq, Eq, Debug)]
pub enum JudgedAll {
    /// Each passes, its past does not have it yet, and there is room to add it.
    Ready,
    /// One does not pass, or its past has it already.
    Unfit,
    /// One passes, and there is no room to keep it.
    NoRoom,
}
