//! Raises or lowers a part of numbers that rise, and ends where none changes any more.
ghost use Rattle.std.specs.Prelude.{◌≡◌, ℕ, ◌≤◌, ◌<◌, max, min, length, slice_index_or, vec_len, vec_capacity};
ghost use Rattle.std.specs.List.Sorted.{IsNonDecreasingBy};

/// Raises the numbers from a place on that are less than a bound to it.
pub fn raise_from(list: &mut Vec<u64>, place: usize, bound: u64)
    requires { IsNonDecreasingBy (λ n. n) list.old.items }
    ensures len { length list.new.items ≡ length list.old.items }
    ensures count { vec_len list.new ≡ vec_len list.old }
    ensures before { (k : ℕ) (d : ℕ) → k < place → slice_index_or list.new.items k d ≡ slice_index_or list.old.items k d }
    ensures behind { (k : ℕ) (d : ℕ) → place ≤ k → k < length list.old.items
        → slice_index_or list.new.items k d ≡ max bound (slice_index_or list.old.items k d) }
    ensures capacity { vec_capacity list.old ≤ vec_capacity list.new }
{
    for at in place..list.len() {
        if list[at] >= bound {
            return;
        }
        list[at] = bound;
    }
}

/// Lowers the numbers before a place that are greater than a bound to it.
pub fn lower_before(list: &mut Vec<u64>, place: usize, bound: u64)
    requires rising { IsNonDecreasingBy (λ n. n) list.old.items }
    requires within { place ≤ length list.old.items }
    ensures len { length list.new.items ≡ length list.old.items }
    ensures count { vec_len list.new ≡ vec_len list.old }
    ensures before { (k : ℕ) (d : ℕ) → k < place
        → slice_index_or list.new.items k d ≡ min bound (slice_index_or list.old.items k d) }
    ensures behind { (k : ℕ) (d : ℕ) → place ≤ k → slice_index_or list.new.items k d ≡ slice_index_or list.old.items k d }
    ensures capacity { vec_capacity list.old ≤ vec_capacity list.new }
{
    let mut at = place;
    while at > 0 {
        at -= 1;
        if list[at] <= bound {
            return;
        }
        list[at] = bound;
    }
}
