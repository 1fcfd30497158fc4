//! The slow audit of a list of messages, each with its key: every pair is looked at.
ghost use Rattle.std.specs.Prelude.{◌≡◌, ◌<◌, ◌≤◌, ◌+◌, ◌*◌, ◌^◌, ℕ, IsTrue, ◌↔◌, length, drop, IfSome, IfNone, slice_index, count_by};
ghost use Rattle.slash_defs.specs.Lists.{IsUnsafe, is_unsafe, SafeList, UnsafeAt, SafeAt, IsFirstUnsafe, unsafe_pairs};

use crate::message::{Message, slashable};
use edge_kit::PubKey;

/// The first pair of one key that is slashable, by the first place and then by the second; none exactly
/// where no two messages of one key are slashable. Takes no memory, and time in the square of the length.
pub fn first_conflict(list: &[(PubKey, Message)]) -> Option<(usize, usize)>
    ensures found { IfSome result (λ pair. IsFirstUnsafe list.now pair.0 pair.1) }
    ensures none { IfNone result (SafeList list.now) }
{
    for i in 0..list.len() {
        if let Some(j) = conflict_after(list, i) {
            return Some((i, j));
        }
    }
    None
}

/// How many pairs of one key are slashable. Takes no memory, and time in the square of the length.
pub fn conflict_pairs(list: &[(PubKey, Message)]) -> u64
    requires { length list.now < 2 ^ 32 }
    ensures count { result ≡ unsafe_pairs list.now }
    ensures none { (result ≡ 0) ↔ SafeList list.now }
{
    let mut pairs = 0;
    for i in 0..list.len() {
        pairs += conflicts_with(&list[i], &list[i + 1..]);
    }
    pairs
}

/// Whether two messages are one key's, and slashable.
fn is_unsafe_pair(a: &(PubKey, Message), b: &(PubKey, Message)) -> bool
    ensures fact { IsTrue result ↔ IsUnsafe a.now b.now }
    ensures test { result ≡ is_unsafe a.now b.now }
{
    a.0 == b.0 && slashable(&a.1, &b.1)
}

/// The first later message that is unsafe beside the one at a place.
fn conflict_after(list: &[(PubKey, Message)], i: usize) -> Option<usize>
    requires { i < length list.now }
    ensures found { IfSome result (λ j. (i < j) × (j < length list.now) × UnsafeAt list.now i j × ((k : ℕ) → i < k → k < j → SafeAt list.now i k)) }
    ensures none { IfNone result ((k : ℕ) → i < k → k < length list.now → SafeAt list.now i k) }
{
    for j in i + 1..list.len() {
        if is_unsafe_pair(&list[i], &list[j]) {
            return Some(j);
        }
    }
    None
}

/// How many of the later messages are unsafe beside this one.
fn conflicts_with(first: &(PubKey, Message), later: &[(PubKey, Message)]) -> u64
    ensures count { result ≡ count_by (is_unsafe first.now) later.now }
    ensures bound { result ≤ length later.now }
{
    let mut count = 0;
    for other in later {
        if is_unsafe_pair(first, other) {
            count += 1;
        }
    }
    count
}
