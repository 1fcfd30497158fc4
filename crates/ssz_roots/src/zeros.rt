//! The roots of trees of zero chunks, one for each depth.
ghost use Rattle.std.specs.Prelude.{◌≡◌, ◌+◌, ◌-◌, ◌<◌, ◌≤◌, ◌^◌};
ghost use Rattle.ssz_roots.specs.Zeros.{AreZeroRoots};

use crate::hashing::hash_pair;
use edge_kit::Root;

/// How many depths of zero roots there are at most: a tree of 2^64 chunks has depth 64.
pub const DEPTHS: usize = 65;

/// How many depths of zero roots, from 0 on, the padding behind `count` chunks needs.
pub fn depths_of_padding(count: usize, depth: u32) -> usize
    requires deep { depth ≤ 64 }
    requires fits { count ≤ 2 ^ depth }
    ensures most { result ≤ 65 }
    ensures enough { 2 ^ depth < count + 2 ^ result }
    ensures least { 0 < result → count + 2 ^ (result - 1) ≤ 2 ^ depth }
{
    let padding = (1u128 << depth) - count as u128;
    match padding.checked_ilog2() {
        None => 0,
        Some(level) => level as usize + 1,
    }
}

/// The zero roots of the depths below `depths`; each is computed once.
pub fn zero_roots(depths: usize) -> [Root; DEPTHS]
    requires { depths ≤ 65 }
    ensures { AreZeroRoots result depths }
{
    let mut roots = [Root([0; 32]); DEPTHS];
    'depths: for depth in 1..depths {
        let below = roots[depth - 1];
        roots[depth] = hash_pair(&below, &below);
    }
    roots
}
