//! How a kept vote forbids a new one.

/// How a kept vote forbids a new one (EIP-3076, condition 3).
#[derive(Clone, Copy, PartialEq, Eq, Debug)]
pub enum Clash {
    /// Both have one target, and differ in source or root.
    Double,
    /// The new vote surrounds the kept one.
    Surrounds,
    /// The kept vote surrounds the new one.
    Surrounded,
}
