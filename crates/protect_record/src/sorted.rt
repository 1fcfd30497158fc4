//! Vectors in an order, each element once.
ghost use Rattle.std.specs.Prelude.{◌≡◌, ◌<◌, ◌≤◌, ◌+◌, ◌*◌, [], IfSome, IfNone, vec_len, vec_capacity, length};
ghost use Rattle.std.specs.List.{remove};
ghost use Rattle.std.proofs.lemmas.Map.Lookups.{CmpEqualImpliesEq};
ghost use Rattle.protect_record.specs.Order.{IsInOrder};
ghost use Rattle.protect_record.specs.Changes.{HasJoined};
ghost use Rattle.protect_record.specs.Gathering.{HasUnited};

use crate::merging::merge_behind;

/// Puts an item at its place, and tells the place, unless it is there.
pub fn insert_once<T: Ord + Copy>(list: &mut Vec<T>, item: T) -> Option<usize>
    requires exact { CmpEqualImpliesEq T.cmp }
    requires in_order { IsInOrder T.cmp list.old.items }
    requires room { vec_len list.old < vec_capacity list.old }
    ensures joined { HasJoined T.cmp list.old.items list.new.items item }
    ensures place { IfSome result (λ place. (place < length list.new.items)
        × (remove list.new.items place ≡ list.old.items)) }
    ensures repeat { IfNone result (list.new.items ≡ list.old.items) }
    ensures len { vec_len list.new ≤ vec_len list.old + 1 }
    ensures capacity { vec_capacity list.old ≤ vec_capacity list.new }
{
    match list.as_slice().binary_search(&item) {
        Ok(_) => None,
        Err(place) => {
            let _ = list.insert(place, item);
            Some(place)
        }
    }
}

/// Unites a list with more items, of which some may be there, in the room that was reserved: room for them
/// twice, since they are sorted behind the place where they go.
pub fn unite<T: Ord + Copy>(list: &mut Vec<T>, more: &[T])
    requires exact { CmpEqualImpliesEq T.cmp }
    requires in_order { IsInOrder T.cmp list.old.items }
    requires room { vec_len list.old + 2 * length more.now ≤ vec_capacity list.old }
    ensures united { HasUnited T.cmp list.old.items more.now list.new.items }
    ensures len { vec_len list.new ≤ vec_len list.old + length more.now }
    ensures capacity { vec_capacity list.old ≤ vec_capacity list.new }
{
    if more.is_empty() {
        return;
    }
    let count = list.len();
    let end = count + more.len();
    let _ = list.extend_from_slice(more);
    let _ = list.extend_from_slice(more);
    merge_behind(list, count, more.len());
    list.truncate(end);
    list.dedup();
}

/// Puts a list in order, each item once.
pub fn sort_once<T: Ord + Copy>(list: &mut Vec<T>)
    requires { CmpEqualImpliesEq T.cmp }
    ensures { HasUnited T.cmp [] list.old.items list.new.items }
{
    list.sort_unstable();
    list.dedup();
}
