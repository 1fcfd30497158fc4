//! The same values again, of blocks and votes, which hold lists. Each error is want of memory.
ghost use Rattle.std.specs.Prelude.{◌≡◌, IfOk};

use altair_blocks::{AltairBlock, AltairBlockBody, AnyBlock};
use phase0_blocks::{
    Attestation, AttesterSlashing, BeaconBlock, BeaconBlockBody, IndexedAttestation,
};
use phase0_types::BoundedList;
use std::alloc::{AllocError, Global};

/// The same list again. The error is want of memory.
pub fn bounded_copy<T: Copy + Drop, const LIMIT: usize>(
    alloc: Global,
    items: &BoundedList<T, LIMIT>,
) -> Result<BoundedList<T, LIMIT>, AllocError>
    ensures { IfOk result (λ copy. copy ≡ items.now) }
{
    bounded(Vec::from_slice(alloc, items.as_slice())?)
}

fn bounded<T: Drop, const LIMIT: usize>(items: Vec<T>) -> Result<BoundedList<T, LIMIT>, AllocError>
    ensures { IfOk result (λ list. list ≡ items.items) }
{
    match BoundedList::try_new(items) {
        Ok(list) => Ok(list),
        Err(_) => Err(AllocError),
    }
}

/// The same vote again. The error is want of memory.
pub fn attestation_copy(alloc: Global, vote: &Attestation) -> Result<Attestation, AllocError>
    ensures { IfOk result (λ copy. copy ≡ vote.now) }
{
    Ok(Attestation {
        aggregation_bits: bounded_copy(alloc, &vote.aggregation_bits)?,
        details: vote.details,
        signature: vote.signature,
    })
}

fn indexed_copy(alloc: Global, vote: &IndexedAttestation) -> Result<IndexedAttestation, AllocError>
    ensures { IfOk result (λ copy. copy ≡ vote.now) }
{
    Ok(IndexedAttestation {
        attesting_indices: bounded_copy(alloc, &vote.attesting_indices)?,
        details: vote.details,
        signature: vote.signature,
    })
}

fn slashing_copy(alloc: Global, slashing: &AttesterSlashing) -> Result<AttesterSlashing, AllocError>
    ensures { IfOk result (λ copy. copy ≡ slashing.now) }
{
    Ok(AttesterSlashing {
        attestation_1: indexed_copy(alloc, &slashing.attestation_1)?,
        attestation_2: indexed_copy(alloc, &slashing.attestation_2)?,
    })
}

fn attestations_copy(alloc: Global, votes: &[Attestation]) -> Result<Vec<Attestation>, AllocError>
    ensures { IfOk result (λ copies. copies.items ≡ votes.now) }
{
    let mut copies = Vec::with_capacity(alloc, votes.len())?;
    'votes: for vote in votes {
        copies.push(attestation_copy(alloc, vote)?)?;
    }
    Ok(copies)
}

fn slashings_copy(
    alloc: Global,
    slashings: &[AttesterSlashing],
) -> Result<Vec<AttesterSlashing>, AllocError>
    ensures { IfOk result (λ copies. copies.items ≡ slashings.now) }
{
    let mut copies = Vec::with_capacity(alloc, slashings.len())?;
    'slashings: for slashing in slashings {
        copies.push(slashing_copy(alloc, slashing)?)?;
    }
    Ok(copies)
}

fn body_copy(alloc: Global, body: &BeaconBlockBody) -> Result<BeaconBlockBody, AllocError>
    ensures { IfOk result (λ copy. copy ≡ body.now) }
{
    let attester_slashings = slashings_copy(alloc, body.attester_slashings.as_slice())?;
    let attestations = attestations_copy(alloc, body.attestations.as_slice())?;
    Ok(BeaconBlockBody {
        randao_reveal: body.randao_reveal,
        eth1_data: body.eth1_data,
        graffiti: body.graffiti,
        proposer_slashings: bounded_copy(alloc, &body.proposer_slashings)?,
        attester_slashings: bounded(attester_slashings)?,
        attestations: bounded(attestations)?,
        deposits: bounded_copy(alloc, &body.deposits)?,
        voluntary_exits: bounded_copy(alloc, &body.voluntary_exits)?,
    })
}

/// The same block again. The error is want of memory.
pub fn block_copy(alloc: Global, block: &AnyBlock) -> Result<AnyBlock, AllocError>
    ensures { IfOk result (λ copy. copy ≡ block.now) }
{
    match block {
        AnyBlock::Phase0(block) => Ok(AnyBlock::Phase0(phase0_copy(alloc, block)?)),
        AnyBlock::Altair(block) => Ok(AnyBlock::Altair(altair_copy(alloc, block)?)),
    }
}

fn altair_copy(alloc: Global, block: &AltairBlock) -> Result<AltairBlock, AllocError>
    ensures { IfOk result (λ copy. copy ≡ block.now) }
{
    Ok(AltairBlock {
        slot: block.slot,
        proposer_index: block.proposer_index,
        parent_root: block.parent_root,
        state_root: block.state_root,
        body: AltairBlockBody {
            phase0: body_copy(alloc, &block.body.phase0)?,
            sync_aggregate: block.body.sync_aggregate,
        },
    })
}

fn phase0_copy(alloc: Global, block: &BeaconBlock) -> Result<BeaconBlock, AllocError>
    ensures { IfOk result (λ copy. copy ≡ block.now) }
{
    Ok(BeaconBlock {
        slot: block.slot,
        proposer_index: block.proposer_index,
        parent_root: block.parent_root,
        state_root: block.state_root,
        body: body_copy(alloc, &block.body)?,
    })
}
