//! A count of failures.
ghost use Rattle.std.specs.Prelude.{◌≡◌, ◌≤◌};
ghost use Rattle.edge_kit.specs.Causes.{next_count, Rose};

use crate::traits::Failed;

/// Counts a failure: one more, and 18446744073709551615 stands still.
pub fn count_fault(faults: &mut u64) -> Failed
    ensures count { faults.new ≡ next_count faults.old }
    ensures rose { Rose faults.old faults.new }
    ensures later { faults.old ≤ faults.new }
{
    *faults = faults.saturating_add(1);
    Failed
}
