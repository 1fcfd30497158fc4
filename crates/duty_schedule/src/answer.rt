//! Answers to duty questions of one kind, and what they rest on.
ghost use Rattle.std.specs.Prelude.{◌≡◌};
ghost use Rattle.duty_schedule.specs.Answers.{same_basis};

use edge_kit::{Items, Root};

/// What duties rest on: the validator indices that the question named, and the dependent root of the answer.
#[derive(Drop)]
pub(crate) struct Basis {
    pub(crate) asked: Items<u64>,
    pub(crate) dependent_root: Root,
}

/// An answer to a duty question of one kind and epoch.
#[derive(Drop)]
pub(crate) struct DutyAnswer<T> {
    pub(crate) basis: Basis,
    pub(crate) rows: Items<T>,
}

impl Basis {
    /// Whether the indices and the dependent root are the same.
    pub(crate) fn is_same(&self, other: &Basis) -> bool
        ensures { result ≡ same_basis self.now other.now }
    {
        self.dependent_root == other.dependent_root
            && self.asked.as_slice() == other.asked.as_slice()
    }
}
