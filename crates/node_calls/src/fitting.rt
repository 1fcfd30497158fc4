//! Whether an answer fits its question.
ghost use Rattle.std.specs.Prelude.{◌≡◌, map, IfOk};
ghost use Rattle.std.specs.BTreeSet.{IsFromIterResult};
ghost use Rattle.std.specs.List.{list_all};
ghost use Rattle.std.specs.Ordering.{nat_cmp};
ghost use Rattle.node_calls.specs.Fitting.{are_attester_rows, are_proposer_rows, fits, is_attester_row, is_in_epoch, key_order};

use crate::answer::{Answer, AttesterRow, ProposerRow};
use crate::ask::Ask;
use edge_kit::PubKey;
use std::alloc::{AllocError, Global};
use std::collections::BTreeSet;

/// How many slots an epoch has (consensus-specs, `SLOTS_PER_EPOCH`).
const SLOTS_PER_EPOCH: u64 = 32;

/// How many members a committee has at most (consensus-specs, `MAX_VALIDATORS_PER_COMMITTEE`).
const MAX_VALIDATORS_PER_COMMITTEE: u64 = 2048;

/// How many rows a duty answer has at most.
const MAX_DUTY_ROWS: usize = 65_536;

impl Answer {
    /// Whether this answers the question: it is of the same name, and of duties it has at most 65,536 rows, all
    /// at slots of the epoch that was asked for. No two proposers have one slot, and no two attesters one key.
    /// Each attester's committee has 1 to 2048 members, and its place is below that. The source of a vote is no
    /// later than its target. The error is want of memory.
    pub fn fits(&self, alloc: Global, ask: &Ask) -> Result<bool, AllocError>
        ensures { IfOk result (λ b. b ≡ fits ask.now self.now) }
    {
        match (ask, self) {
            (Ask::Genesis, Answer::Genesis { .. })
            | (Ask::Fork, Answer::Fork(_))
            | (Ask::Syncing, Answer::Syncing { .. })
            | (Ask::Validators { .. }, Answer::Validators(_))
            | (Ask::Block { .. }, Answer::Block(_))
            | (Ask::Aggregate { .. }, Answer::Aggregate(_))
            | (Ask::Liveness { .. }, Answer::Liveness(_)) => Ok(true),
            (Ask::Proposer { epoch }, Answer::Proposer { rows, .. }) => {
                are_proposers(alloc, *epoch, rows.as_slice())
            }
            (Ask::Attester { epoch, .. }, Answer::Attester { rows, .. }) => {
                are_attesters(alloc, *epoch, rows.as_slice())
            }
            (Ask::Data { .. }, Answer::Data(details)) => {
                Ok(details.source.epoch <= details.target.epoch)
            }
            _ => Ok(false),
        }
    }
}

/// Whether these can be the proposers of an epoch: at most 65,536 rows, all at slots of it, no two at one slot.
/// The error is want of memory.
pub fn are_proposers(alloc: Global, epoch: u64, rows: &[ProposerRow]) -> Result<bool, AllocError>
    ensures { IfOk result (λ b. b ≡ are_proposer_rows epoch rows.now) }
{
    if rows.len() > MAX_DUTY_ROWS || !all_in_epoch(epoch, rows) {
        return Ok(false);
    }
    Ok(distinct_slots(alloc, rows)?.len() == rows.len())
}

/// Whether these can be the attesters of an epoch: at most 65,536 rows, all at slots of it, no two of one key, each
/// at a place below the length of its committee, which is 1 to 2048. The error is want of memory.
pub fn are_attesters(alloc: Global, epoch: u64, rows: &[AttesterRow]) -> Result<bool, AllocError>
    ensures { IfOk result (λ b. b ≡ are_attester_rows epoch rows.now) }
{
    if rows.len() > MAX_DUTY_ROWS || !all_attest(epoch, rows) {
        return Ok(false);
    }
    Ok(distinct_keys(alloc, rows)?.len() == rows.len())
}

/// Whether all slots are of the epoch.
fn all_in_epoch(epoch: u64, rows: &[ProposerRow]) -> bool
    ensures { result ≡ list_all (λ row. is_in_epoch epoch row.slot) rows.now }
{
    rows.iter().all(|row| in_epoch(epoch, row.slot))
}

/// Whether each row can be an attester of the epoch.
fn all_attest(epoch: u64, rows: &[AttesterRow]) -> bool
    ensures { result ≡ list_all (is_attester_row epoch) rows.now }
{
    rows.iter().all(|row| is_attester(epoch, row))
}

/// The slots, each once.
fn distinct_slots(alloc: Global, rows: &[ProposerRow]) -> Result<BTreeSet<u64>, AllocError>
    ensures { IfOk result (IsFromIterResult nat_cmp (map (λ row. row.slot) rows.now)) }
{
    rows.iter().map(|row| row.slot).collect(alloc)
}

/// The keys, each once.
fn distinct_keys(alloc: Global, rows: &[AttesterRow]) -> Result<BTreeSet<PubKey>, AllocError>
    ensures { IfOk result (IsFromIterResult key_order (map (λ row. row.pubkey) rows.now)) }
{
    rows.iter().map(|row| row.pubkey).collect(alloc)
}

/// Whether this can be an attester of an epoch.
fn is_attester(epoch: u64, row: &AttesterRow) -> bool
    ensures { result ≡ is_attester_row epoch row.now }
{
    in_epoch(epoch, row.slot)
        && row.committee_length <= MAX_VALIDATORS_PER_COMMITTEE
        && row.validator_committee_index < row.committee_length
}

/// Whether a slot is one of the epoch.
fn in_epoch(epoch: u64, slot: u64) -> bool
    ensures { result ≡ is_in_epoch epoch slot }
{
    slot / SLOTS_PER_EPOCH == epoch
}
