//! What is due of the rows of an answer.
ghost use Rattle.std.specs.Prelude.{◌≡◌, ◌==◌, ◌&&◌, IfOk, filter};
ghost use Rattle.std.specs.BTreeSet.{IsFromIterResult, contains};
ghost use Rattle.node_calls.specs.Fitting.{key_order};
ghost use Rattle.duty_schedule.specs.Due.{IsByKey};

use crate::rows::DutyRow;
use edge_kit::PubKey;
use std::alloc::{AllocError, Global};
use std::collections::BTreeSet;

/// These keys, to look them up. The error is want of memory.
pub fn key_set(alloc: Global, keys: &[PubKey]) -> Result<BTreeSet<PubKey>, AllocError>
    ensures { IfOk result (IsFromIterResult key_order keys.now) }
{
    keys.iter().copied().collect(alloc)
}

/// The rows at a slot whose key is active, by key and then by place. The error is want of memory.
pub(crate) fn due_rows<R: DutyRow>(
    alloc: Global,
    rows: &[R],
    slot: u64,
    active: &BTreeSet<PubKey>,
) -> Result<Vec<R>, AllocError>
    ensures { IfOk result (λ due. IsByKey R.key_of (filter (λ row. R.slot_of row == slot && contains key_order active.now (R.key_of row)) rows.now) due.items) }
{
    let mut due = rows_at(alloc, rows, slot, active)?;
    due.sort_by_key(|row| row.pubkey())?;
    Ok(due)
}

/// The rows at a slot whose key is active. The error is want of memory.
fn rows_at<R: DutyRow>(
    alloc: Global,
    rows: &[R],
    slot: u64,
    active: &BTreeSet<PubKey>,
) -> Result<Vec<R>, AllocError>
    ensures { IfOk result (λ due. due.items ≡ filter (λ row. R.slot_of row == slot && contains key_order active.now (R.key_of row)) rows.now) }
{
    rows.iter()
        .filter(|row| is_due(*row, slot, active))
        .copied()
        .collect(alloc)
}

/// Whether a row is at a slot, and its key is active.
fn is_due<R: DutyRow>(row: &R, slot: u64, active: &BTreeSet<PubKey>) -> bool
    ensures { result ≡ (R.slot_of row.now == slot && contains key_order active.now (R.key_of row.now)) }
{
    row.slot() == slot && active.contains(&row.pubkey())
}
