//! The text of a fork.
ghost use Rattle.std.specs.Prelude.{◌≡◌, option_map};
ghost use Rattle.command_line.specs.Forks.{at_colon, fork_at, fork_of};

use edge_kit::{read_hex, read_quoted};
use phase0_types::Fork;

/// The fork that two versions, each `0x` and 8 hex digits, and an epoch of 1 to 20 decimal digits below
/// 2^64 write, joined by `:`.
pub(crate) fn read_fork(text: &str) -> Option<Fork>
    ensures { result ≡ fork_at text.now }
{
    let (previous, rest) = split_at_colon(text)?;
    let (current, epoch) = split_at_colon(rest)?;
    read_parts(previous, current, epoch)
}

/// What stands before the first `:`, and what stands after it.
pub(crate) fn split_at_colon(text: &str) -> Option<(&str, &str)>
    ensures { option_map (λ p. (p.0.now, p.1.now)) result ≡ at_colon text.now }
{
    text.split_once(':')
}

/// The fork of the texts of its versions and its epoch.
fn read_parts(previous: &str, current: &str, epoch: &str) -> Option<Fork>
    ensures { result ≡ fork_of previous.now current.now epoch.now }
{
    let previous_version = read_hex::<4>(previous)?;
    let current_version = read_hex::<4>(current)?;
    let epoch = read_quoted(epoch)?;
    Some(Fork {
        previous_version,
        current_version,
        epoch,
    })
}
