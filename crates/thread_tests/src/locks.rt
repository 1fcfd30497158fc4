use crate::day::add_both;
use std::test::Fail;

/// Two numbers, and their sum, which wraps.
const SUMS: &[(u64, u64, u64)] = &[(3, 4, 7), (0, 0, 0), (u64::MAX, 2, 1)];

#[test]
fn two_threads_add(rt: HostRuntime) -> Result<(), Fail> {
    for &(a, b, sum) in SUMS {
        assert!(rt; add_both(&rt, rt.alloc(), a, b) == Some(sum));
    }
    Ok(())
}
