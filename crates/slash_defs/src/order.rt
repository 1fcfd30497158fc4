//! The order of a written file is the derived one.
ghost use Rattle.std.specs.Prelude.{◌≡◌};
ghost use Rattle.slash_defs.specs.FileOrder.{block_cmp, vote_cmp};

use crate::entry::{BlockEntry, VoteEntry};
use std::cmp::Ordering;

/// How two kept blocks stand in a written file: by slot, an absent root first, then by root.
pub fn compare_blocks(a: &BlockEntry, b: &BlockEntry) -> Ordering
    ensures { result ≡ block_cmp a.now b.now }
{
    a.cmp(b)
}

/// How two kept votes stand in a written file: by target, then source, an absent root first, then by root.
pub fn compare_votes(a: &VoteEntry, b: &VoteEntry) -> Ordering
    ensures { result ≡ vote_cmp a.now b.now }
{
    a.cmp(b)
}
