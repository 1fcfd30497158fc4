//! Containers as JSON.
//!
//! | Subject | What comes of it |
//! |---|---|
//! | `root KIND JSON` | the root of a container and the JSON that is written of it, or the fault of the JSON |
//! | `header JSON` | as above, of a block's header |
//! | `altair_header JSON` | as above, of the header of a block of Altair |
//! | `bits JSON` | the bits of an attestation, or the fault of the JSON |
use crate::{chains, merkle};
use altair_blocks::{AltairBlock, AltairBlockBody, AnyBlock, ConsensusVersion, SyncAggregate};
use altair_types::{ContributionAndProof, SyncAggregatorSelectionData, SyncCommitteeContribution};
use edge_kit::hex_text;
use phase0_blocks::{Attestation, BeaconBlock, BeaconBlockBody, SignedBeaconBlock};
use phase0_types::{
    BeaconBlockHeader, Checkpoint, Eth1Data, Fork, ForkData, ReadFault, Shaped, SigningData,
};
use serde_json::Value;
use std::alloc::{AllocError, Global};

/// Puts the JSON of a value after a text, on a line of its own.
fn put_json<T: Shaped>(alloc: Global, out: &mut String, value: &T) -> Result<(), AllocError> {
    let json = value.to_value(alloc)?;
    write!(out, "\n{json}")
}

/// The root of a value, and its JSON.
fn root_and_json<T: Shaped>(alloc: Global, value: &T) -> Option<String> {
    let mut out = hex_text(alloc, &value.root().0).ok()?;
    put_json(alloc, &mut out, value).ok()?;
    Some(out)
}

/// The root of what JSON writes and the JSON that is written of that, or the fault.
fn read<T: Shaped>(alloc: Global, json: &Value) -> Option<String> {
    match T::read_value(alloc, json).ok()? {
        Ok(value) => root_and_json(alloc, &value),
        Err(fault) => fault.to_string(alloc).ok(),
    }
}

/// As above, of a container that a block or a body is or has as a field.
fn read_of_block(alloc: Global, kind: &str, json: &Value) -> Option<String> {
    match kind {
        "signed_block" => read::<SignedBeaconBlock>(alloc, json),
        "block" => read::<BeaconBlock>(alloc, json),
        "body" => read::<BeaconBlockBody>(alloc, json),
        "eth1_data" => read::<Eth1Data>(alloc, json),
        _ => None,
    }
}

/// As above, of a block of Altair, its body, or what a sync committee said in it.
fn read_of_altair_block(alloc: Global, kind: &str, json: &Value) -> Option<String> {
    match kind {
        "altair_block" => read::<AltairBlock>(alloc, json),
        "altair_body" => read::<AltairBlockBody>(alloc, json),
        "sync_aggregate" => read::<SyncAggregate>(alloc, json),
        _ => read_of_block(alloc, kind, json),
    }
}

/// As above, of what members of a sync committee sign.
fn read_of_sync(alloc: Global, kind: &str, json: &Value) -> Option<String> {
    match kind {
        "sync_aggregator_selection_data" => read::<SyncAggregatorSelectionData>(alloc, json),
        "sync_committee_contribution" => read::<SyncCommitteeContribution>(alloc, json),
        "contribution_and_proof" => read::<ContributionAndProof>(alloc, json),
        _ => read_of_altair_block(alloc, kind, json),
    }
}

fn root(alloc: Global, kind: &str, json: &Value) -> Option<String> {
    match kind {
        "checkpoint" => read::<Checkpoint>(alloc, json),
        "header" => read::<BeaconBlockHeader>(alloc, json),
        "fork" => read::<Fork>(alloc, json),
        "fork_data" => read::<ForkData>(alloc, json),
        "signing_data" => read::<SigningData>(alloc, json),
        _ => read_of_sync(alloc, kind, json),
    }
}

/// As above, of the header of a block of this version.
fn header(alloc: Global, version: ConsensusVersion, json: &Value) -> Option<String> {
    match AnyBlock::read_value(alloc, version, json).ok()? {
        Ok(block) => root_and_json(alloc, &block.header()),
        Err(fault) => fault.to_string(alloc).ok(),
    }
}

fn header_of(alloc: Global, version: ConsensusVersion, text: &str) -> Option<String> {
    header(alloc, version, &Value::from_str(alloc, text).ok()?)
}

/// Puts a digit of each bit after a text.
fn put_bits(out: &mut String, bits: &[bool]) -> Result<(), AllocError> {
    for bit in bits {
        out.push(if *bit { '1' } else { '0' })?;
    }
    Ok(())
}

/// How many bits there are, and each.
fn bits_text(alloc: Global, bits: &[bool]) -> Option<String> {
    let mut out = format!(in alloc; "{} bits ", bits.len()).ok()?;
    put_bits(&mut out, bits).ok()?;
    Some(out)
}

fn bits(alloc: Global, json: &Value) -> Option<String> {
    match Attestation::read_value(alloc, json).ok()? {
        Ok(vote) => bits_text(alloc, vote.aggregation_bits.as_slice()),
        Err(fault) => fault.to_string(alloc).ok(),
    }
}

/// What comes of a line.
pub fn outcome(alloc: Global, subject: &str, text: &str) -> Option<String> {
    match subject {
        "root" => {
            let (kind, json) = text.split_once(' ')?;
            root(alloc, kind, &Value::from_str(alloc, json).ok()?)
        }
        "header" => header_of(alloc, ConsensusVersion::Phase0, text),
        "altair_header" => header_of(alloc, ConsensusVersion::Altair, text),
        "bits" => bits(alloc, &Value::from_str(alloc, text).ok()?),
        "chain" => chains::outcome(alloc, text),
        _ => merkle::outcome(alloc, subject, text),
    }
}
