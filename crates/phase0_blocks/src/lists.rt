//! The lists of a block's body, read in the order of its fields.
ghost use Rattle.std.specs.Prelude.{◌≡◌, IfOk};
ghost use Rattle.serde_json.specs.View.{view};
ghost use Rattle.phase0_types.specs.Containers.{beacon_block_body};
ghost use Rattle.phase0_types.specs.Faults.{read_as};
ghost use Rattle.phase0_types.specs.Reading.{read_fields};
ghost use Rattle.phase0_blocks.specs.Lists.{body_lists_value, body_operations_value, fields_behind};

use crate::operation::{AttesterSlashing, Deposit, ProposerSlashing};
use crate::signed::SignedVoluntaryExit;
use crate::vote::Attestation;
use phase0_types::{BoundedList, Member, ReadResult, read_field};
use serde_json::Value;
use std::alloc::Global;

/// What a body holds behind its graffiti.
#[derive(Drop)]
pub(crate) struct BodyLists {
    pub(crate) proposer_slashings: BoundedList<ProposerSlashing, 16>,
    pub(crate) attester_slashings: BoundedList<AttesterSlashing, 2>,
    pub(crate) operations: BodyOperations,
}

/// What a body holds behind its slashings.
#[derive(Drop)]
pub(crate) struct BodyOperations {
    pub(crate) attestations: BoundedList<Attestation, 128>,
    pub(crate) deposits: BoundedList<Deposit, 16>,
    pub(crate) voluntary_exits: BoundedList<SignedVoluntaryExit, 16>,
}

/// The lists of a body, or the first fault in them.
#[tactic(auto, unfolding(phase0_types::specs::Reading::read_at, phase0_types::specs::Containers::beacon_block_body, crate::specs::Lists::body_lists_value))]
pub(crate) fn read_lists(alloc: Global, json: &Value) -> ReadResult<BodyLists>
    ensures { IfOk result (λ read. read_as body_lists_value read
        ≡ read_fields (fields_behind 3 beacon_block_body) (view json.now)) }
{
    Ok(Ok(BodyLists {
        proposer_slashings: read_field!(alloc, Member::ProposerSlashings, json),
        attester_slashings: read_field!(alloc, Member::AttesterSlashings, json),
        operations: match read_operations(alloc, json)? {
            Ok(operations) => operations,
            Err(fault) => return Ok(Err(fault)),
        },
    }))
}

/// The lists of a body behind its slashings, or the first fault in them.
#[tactic(auto, unfolding(phase0_types::specs::Reading::read_at, phase0_types::specs::Containers::beacon_block_body, crate::specs::Lists::body_operations_value))]
fn read_operations(alloc: Global, json: &Value) -> ReadResult<BodyOperations>
    ensures { IfOk result (λ read. read_as body_operations_value read
        ≡ read_fields (fields_behind 5 beacon_block_body) (view json.now)) }
{
    Ok(Ok(BodyOperations {
        attestations: read_field!(alloc, Member::Attestations, json),
        deposits: read_field!(alloc, Member::Deposits, json),
        voluntary_exits: read_field!(alloc, Member::VoluntaryExits, json),
    }))
}
