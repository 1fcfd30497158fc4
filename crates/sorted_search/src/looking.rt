//! Looks at elements of a list in order, each of which is a step.
ghost use Rattle.std.specs.Prelude.{◌≡◌, ◌≢◌, ℕ, ◌+◌, ◌-◌, ◌*◌, ◌^◌, ◌<◌, ◌≤◌, max, length, slice_index_or};
ghost use Rattle.std.specs.List.Sorted.{IsNonDecreasingBy};

use crate::numbered::Numbered;
use crate::steps::Steps;
use std::sync::ledger::Ledger;

/// The element at a place. This is one step.
pub fn look<T: Copy, L: Ledger>(list: &[T], at: usize, steps: &mut Steps<L>) -> T
    requires { at < length list.now }
    ensures value { (d : T) → result ≡ slice_index_or list.now at d }
    ensures counted { steps.new ≡ steps.old + 1 }
{
    steps.tick();
    list[at]
}

/// Where the entries of a number begin and end: those before have a lesser one, those behind a greater one.
pub fn range_of<T: Numbered, L: Ledger>(
    list: &[T],
    number: u64,
    steps: &mut Steps<L>,
) -> (usize, usize)
    requires { IsNonDecreasingBy T.number_of list.now }
    ensures within { (result.0 ≤ result.1) × (result.1 ≤ length list.now) }
    ensures before { (k : ℕ) (d : T) → k < result.0 → T.number_of (slice_index_or list.now k d) < number }
    ensures inside { (k : ℕ) (d : T) → result.0 ≤ k → k < result.1 → T.number_of (slice_index_or list.now k d) ≡ number }
    ensures behind { (k : ℕ) (d : T) → result.1 ≤ k → k < length list.now → number < T.number_of (slice_index_or list.now k d) }
    ensures counts { steps.old ≤ steps.new }
    ensures few { result.0 ≡ result.1 → 2 ^ (steps.new - steps.old) ≤ max 1 (4 * length list.now) }
{
    let start = place_of(list, number, steps);
    (start, end_of(list, start, number, steps))
}

/// How many entries have a lesser number.
fn place_of<T: Numbered, L: Ledger>(list: &[T], number: u64, steps: &mut Steps<L>) -> usize
    requires { IsNonDecreasingBy T.number_of list.now }
    ensures within { result ≤ length list.now }
    ensures before { (k : ℕ) (d : T) → k < result → T.number_of (slice_index_or list.now k d) < number }
    ensures behind { (k : ℕ) (d : T) → result ≤ k → k < length list.now → number ≤ T.number_of (slice_index_or list.now k d) }
    ensures counts { steps.old ≤ steps.new }
    ensures few { 2 ^ (steps.new - steps.old) ≤ max 1 (2 * length list.now) }
{
    let mut low = 0;
    let mut high = list.len();
    while low < high {
        let middle = low + (high - low) / 2;
        let here = look(list, middle, steps);
        if here.number() < number {
            low = middle + 1;
        } else {
            high = middle;
        }
    }
    low
}

/// Where the entries of the number end that begin at a place.
fn end_of<T: Numbered, L: Ledger>(
    list: &[T],
    start: usize,
    number: u64,
    steps: &mut Steps<L>,
) -> usize
    requires rising { IsNonDecreasingBy T.number_of list.now }
    requires within { start ≤ length list.now }
    requires from_start { (k : ℕ) (d : T) → start ≤ k → k < length list.now → number ≤ T.number_of (slice_index_or list.now k d) }
    ensures within { (start ≤ result) × (result ≤ length list.now) }
    ensures inside { (k : ℕ) (d : T) → start ≤ k → k < result → T.number_of (slice_index_or list.now k d) ≡ number }
    ensures behind { (k : ℕ) (d : T) → result ≤ k → k < length list.now → number < T.number_of (slice_index_or list.now k d) }
    ensures counts { steps.old ≤ steps.new }
    ensures few { result ≡ start → steps.new ≤ steps.old + 1 }
    ensures none { length list.now ≡ 0 → steps.new ≡ steps.old }
{
    for at in start..list.len() {
        let here = look(list, at, steps);
        if here.number() != number {
            return at;
        }
    }
    list.len()
}
