//! Two sorted parts of a list become one, with no memory beside.
ghost use Rattle.std.specs.Prelude.{◌≡◌, ◌+◌, ◌≤◌, ◌⊎◌, ◌↔◌, List, Contains, length, take, drop, vec_len, vec_capacity};
ghost use Rattle.std.specs.List.Sorted.{IsPermutation, IsSorted};
ghost use Rattle.protect_record.specs.Merging.{HasMerged};

/// Merges the first items of a list, so many as `count` and sorted, with the last ones, so many as `more`, into
/// its front. As many items between them as the last ones are written over.
pub fn merge_behind<T: Ord + Copy>(list: &mut [T], count: usize, more: usize)
    requires len { length list.old ≡ count + more + more }
    requires front { IsSorted T.cmp (take count list.old) }
    ensures { HasMerged T.cmp (take count list.old) (drop (count + more) list.old) (take (count + more) list.new) }
{
    sort_from(list, count + more);
    merge_parts(list, count, more);
}

/// Sorts the items from a place on.
fn sort_from<T: Ord + Copy>(list: &mut [T], from: usize)
    requires { from ≤ length list.old }
    ensures front { take from list.new ≡ take from list.old }
    ensures back { IsPermutation (drop from list.old) (drop from list.new) }
    ensures sorted { IsSorted T.cmp (drop from list.new) }
{
    list[from..].sort_unstable();
}

/// Merges two sorted parts, as `merge_behind` does, from the greatest item on.
fn merge_parts<T: Ord + Copy>(list: &mut [T], count: usize, more: usize)
    requires len { length list.old ≡ count + more + more }
    requires front { IsSorted T.cmp (take count list.old) }
    requires back { IsSorted T.cmp (drop (count + more) list.old) }
    ensures { HasMerged T.cmp (take count list.old) (drop (count + more) list.old) (take (count + more) list.new) }
{
    let mut left = count;
    let mut right = more;
    while right > 0 {
        let next = list[count + more + right - 1];
        let at = left + right - 1;
        if left > 0 && list[left - 1].cmp(&next).is_gt() {
            list[at] = list[left - 1];
            left -= 1;
        } else {
            list[at] = next;
            right -= 1;
        }
    }
}
