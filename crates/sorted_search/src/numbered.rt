//! Entries whose file order goes first by a number.
ghost use Rattle.std.specs.Prelude.{◌≡◌, ℕ};

use slash_defs::{BlockEntry, VoteEntry};

/// An entry whose file order goes first by a number.
pub trait Numbered: Copy {
    ghost number_of: { Self → ℕ };

    /// The number.
    fn number(&self) -> u64
        ensures { result ≡ number_of self.now };
}

/// A block goes by its slot.
impl Numbered for BlockEntry {
    ghost number_of = { λ e. e.slot };

    fn number(&self) -> u64 {
        self.slot
    }
}

/// A vote goes by its target.
impl Numbered for VoteEntry {
    ghost number_of = { λ e. e.target };

    fn number(&self) -> u64 {
        self.target
    }
}
