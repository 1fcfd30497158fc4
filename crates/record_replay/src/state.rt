//! Whether a key may sign.

/// The state of a key that is kept.
#[derive(Clone, Copy, PartialEq, Eq, Debug)]
pub enum KeyState {
    /// It was imported, and neither activated nor closed.
    Known,
    /// It may sign.
    Active,
    /// It is being closed: nothing more is granted. A stop makes it active again.
    Closing,
    /// It signs no more.
    Closed,
}
