//! Aggregates as requests for their signatures name them.
ghost use Rattle.std.specs.Prelude.{◌≡◌, IfOk};
ghost use Rattle.signer_link.specs.Aggregates.{aggregate_root, aggregate_slot};

use crate::version::BlockVersion;
use duty_types::{AggregateAndProof, ElectraAggregateAndProof};
use edge_kit::Root;
use phase0_types::Shaped;
use std::alloc::{AllocError, Global};

/// An aggregate with its aggregator and the proof that it was chosen (consensus-specs, `AggregateAndProof`).
#[derive(Drop, Debug)]
pub enum Aggregate {
    /// One of the forks up to Deneb, whose fork is not named (Web3Signer: `AGGREGATE_AND_PROOF`).
    Unnamed(AggregateAndProof),
    /// One of the forks up to Deneb, with the name of its fork (`AGGREGATE_AND_PROOF_V2`).
    UpToDeneb {
        version: BlockVersion,
        aggregate: AggregateAndProof,
    },
    /// One from Electra on, with the name of its fork (`AGGREGATE_AND_PROOF_V2`).
    FromElectra {
        version: BlockVersion,
        aggregate: ElectraAggregateAndProof,
    },
}

impl Aggregate {
    /// The same aggregate again. The error is want of memory.
    pub fn copy(&self, alloc: Global) -> Result<Aggregate, AllocError>
        ensures { IfOk result (λ copy. copy ≡ self.now) }
    {
        match self {
            Aggregate::Unnamed(aggregate) => Ok(Aggregate::Unnamed(aggregate.copy(alloc)?)),
            Aggregate::UpToDeneb { version, aggregate } => Ok(Aggregate::UpToDeneb {
                version: *version,
                aggregate: aggregate.copy(alloc)?,
            }),
            Aggregate::FromElectra { version, aggregate } => Ok(Aggregate::FromElectra {
                version: *version,
                aggregate: aggregate.copy(alloc)?,
            }),
        }
    }

    /// The slot that the votes in it are of.
    pub(crate) fn slot(&self) -> u64
        ensures { result ≡ aggregate_slot self.now }
    {
        match self {
            Aggregate::Unnamed(aggregate) => aggregate.aggregate.details.slot,
            Aggregate::UpToDeneb { aggregate, .. } => aggregate.aggregate.details.slot,
            Aggregate::FromElectra { aggregate, .. } => aggregate.aggregate.details.slot,
        }
    }

    /// Its own root, which its fork's name is no part of.
    pub(crate) fn root(&self) -> Root
        ensures { result.0 ≡ aggregate_root self.now }
    {
        match self {
            Aggregate::Unnamed(aggregate) => aggregate.root(),
            Aggregate::UpToDeneb { aggregate, .. } => aggregate.root(),
            Aggregate::FromElectra { aggregate, .. } => aggregate.root(),
        }
    }
}
