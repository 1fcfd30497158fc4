//! The signing service over a link in memory.
use crate::links::{link, sent};
use crate::permits::{KEY, PERMIT};
use crate::reading::{Stop, first_part, numbers_in, service_of, value_of, whole_block, with_bytes};
use crate::scenes::Scene;
use altair_types::{ContributionAndProof, SyncAggregatorSelectionData, SyncCommitteeContribution};
use edge_kit::{MemLink, Root, Sig, hex_text};
use phase0_blocks::VoluntaryExit;
use phase0_types::Fork;
use signer_link::{
    Aggregate, BlockVersion, DeleteReply, ImportReply, PlainObject, PlainRequest, SignObject,
    SignReply, SignRequest, Signer,
};
use std::alloc::Global;
use web3_signer::Web3Signer;

const FORK: Fork = Fork {
    previous_version: [0, 0, 0, 1],
    current_version: [0, 0, 0, 2],
    epoch: 7,
};

const GENESIS: Root = Root([3; 32]);

/// The version at genesis of mainnet, for registrations.
const AT_GENESIS: Fork = Fork {
    previous_version: [0; 4],
    current_version: [0; 4],
    epoch: 0,
};

/// A Web3Signer over a link whose peer says this, and whose calls of these numbers fail.
pub fn signer(alloc: Global, setting: &str, failing: &[u64]) -> Result<Web3Signer<MemLink>, Stop> {
    let link = link(alloc, setting, failing)?;
    let service = service_of(alloc, "http://signer:9000/base/")?;
    Ok(Web3Signer::new(link, service))
}

/// The object of a message.
fn object(alloc: Global, words: &str) -> Result<SignObject, Stop> {
    match first_part(words, " ") {
        ("header", rest) => header(alloc, rest),
        _ => Ok(SignObject::Block(whole_block(alloc, words)?)),
    }
}

/// A header, before which its version may stand; else it is of phase 0.
fn header(alloc: Global, words: &str) -> Result<SignObject, Stop> {
    let (name, json) = if words.starts_with('{') {
        ("PHASE0", words)
    } else {
        first_part(words, " ")
    };
    Ok(SignObject::Header {
        version: BlockVersion::of_name(name),
        header: value_of(alloc, json)?,
    })
}

/// Another object that is signed.
fn plain_object(alloc: Global, words: &str) -> Result<PlainObject, Stop> {
    let (kind, rest) = first_part(words, " ");
    match (kind, numbers_in(alloc, words)?.as_slice()) {
        ("reveal", [epoch]) => Ok(PlainObject::RandaoReveal { epoch: *epoch }),
        ("aggregation", [slot]) => Ok(PlainObject::AggregationSlot { slot: *slot }),
        ("exit", [epoch, validator_index]) => Ok(PlainObject::VoluntaryExit(VoluntaryExit {
            epoch: *epoch,
            validator_index: *validator_index,
        })),
        ("sync-message", [slot]) => Ok(PlainObject::SyncCommitteeMessage {
            slot: *slot,
            beacon_block_root: Root([7; 32]),
        }),
        ("sync-choice", [slot, subcommittee_index]) => {
            Ok(PlainObject::SyncCommitteeSelectionProof(SyncAggregatorSelectionData {
                slot: *slot,
                subcommittee_index: *subcommittee_index,
            }))
        }
        ("sync-contribution", [slot, aggregator_index]) => Ok(
            PlainObject::SyncCommitteeContributionAndProof(contribution(*slot, *aggregator_index)),
        ),
        ("aggregate", _) => Ok(PlainObject::Aggregate(aggregate(alloc, rest)?)),
        ("registration", _) => Ok(PlainObject::ValidatorRegistration(value_of(alloc, rest)?)),
        _ => Err(Stop::Unread),
    }
}

/// An aggregate, before which its version may stand.
fn aggregate(alloc: Global, words: &str) -> Result<Aggregate, Stop> {
    if words.starts_with('{') {
        return Ok(Aggregate::Unnamed(value_of(alloc, words)?));
    }
    let (name, json) = first_part(words, " ");
    let Some(version) = BlockVersion::named(name) else {
        return Err(Stop::Unread);
    };
    if version.is_from_electra() {
        let aggregate = value_of(alloc, json)?;
        Ok(Aggregate::FromElectra { version, aggregate })
    } else {
        let aggregate = value_of(alloc, json)?;
        Ok(Aggregate::UpToDeneb { version, aggregate })
    }
}

/// A contribution of subcommittee 3.
fn contribution(slot: u64, aggregator_index: u64) -> ContributionAndProof {
    ContributionAndProof {
        aggregator_index,
        contribution: SyncCommitteeContribution {
            slot,
            beacon_block_root: Root([7; 32]),
            subcommittee_index: 3,
            aggregation_bits: [1, 0, 0, 0, 0, 0, 0, 0, 0, 0, 0, 0, 0, 0, 0, 128],
            signature: Sig([9; 96]),
        },
        selection_proof: Sig([11; 96]),
    }
}

fn sign_words(alloc: Global, reply: &SignReply) -> Result<String, Stop> {
    match reply {
        SignReply::Signed(signature) => {
            let digits = hex_text(alloc, &signature.0)?;
            let digits = digits.as_str();
            Ok(format!(in alloc; "signed {digits}")?)
        }
        SignReply::NoKey(status) => Ok(format!(in alloc; "no key {status:?}")?),
        SignReply::Denied(status) => Ok(format!(in alloc; "denied {status}")?),
        SignReply::Fault => Ok(String::from_str(alloc, "fault")?),
        SignReply::BadAnswer(body) => with_bytes(alloc, "bad", body.as_slice()),
        SignReply::OutOfMemory => Err(Stop::OutOfMemory),
    }
}

fn import_words(alloc: Global, reply: &ImportReply) -> Result<String, Stop> {
    match reply {
        ImportReply::Imported => Ok(String::from_str(alloc, "imported")?),
        ImportReply::Duplicate => Ok(String::from_str(alloc, "duplicate")?),
        ImportReply::Refused(text) => with_bytes(alloc, "refused", text.as_slice()),
        ImportReply::Fault => Ok(String::from_str(alloc, "fault")?),
        ImportReply::BadAnswer(body) => with_bytes(alloc, "bad", body.as_slice()),
        ImportReply::OutOfMemory => Err(Stop::OutOfMemory),
    }
}

fn delete_words(alloc: Global, reply: &DeleteReply) -> Result<String, Stop> {
    match reply {
        DeleteReply::Deleted => Ok(String::from_str(alloc, "deleted")?),
        DeleteReply::NotActive => Ok(String::from_str(alloc, "not active")?),
        DeleteReply::NotFound => Ok(String::from_str(alloc, "not found")?),
        DeleteReply::Refused(text) => with_bytes(alloc, "refused", text.as_slice()),
        DeleteReply::Fault => Ok(String::from_str(alloc, "fault")?),
        DeleteReply::BadAnswer(body) => with_bytes(alloc, "bad", body.as_slice()),
        DeleteReply::OutOfMemory => Err(Stop::OutOfMemory),
    }
}

/// Asks for the signature of the block that is allowed, which was made of this object.
fn sign(alloc: Global, signer: &mut Web3Signer<MemLink>, words: &str) -> Result<String, Stop> {
    let object = object(alloc, words)?;
    let request = SignRequest {
        fork: FORK,
        genesis: GENESIS,
        object: Some(object),
    };
    let reply = signer.sign(&request, &PERMIT);
    sign_words(alloc, &reply)
}

/// The fork and the genesis root that another object is signed under.
fn chain_of(object: &PlainObject) -> (Fork, Root) {
    match object {
        PlainObject::ValidatorRegistration(_) => (AT_GENESIS, Root([0; 32])),
        _ => (FORK, GENESIS),
    }
}

/// Asks for the signature of another object.
fn sign_plain(
    alloc: Global,
    signer: &mut Web3Signer<MemLink>,
    words: &str,
) -> Result<String, Stop> {
    let object = plain_object(alloc, words)?;
    let (fork, genesis) = chain_of(&object);
    let request = PlainRequest {
        fork,
        genesis,
        object,
    };
    let reply = signer.sign_plain(&request, &PERMIT);
    sign_words(alloc, &reply)
}

/// Has the key taken in, from this keystore and this password.
fn import(alloc: Global, signer: &mut Web3Signer<MemLink>, words: &str) -> Result<String, Stop> {
    let (keystore, password) = first_part(words, " ");
    let reply = signer.import(&KEY, keystore, password);
    import_words(alloc, &reply)
}

impl Scene for Web3Signer<MemLink> {
    fn call(&mut self, alloc: Global, name: &str, arguments: &str) -> Result<String, Stop> {
        match name {
            "sign" => sign(alloc, self, arguments),
            "sign-plain" => sign_plain(alloc, self, arguments),
            "import" => import(alloc, self, arguments),
            "delete" => delete_words(alloc, &self.delete(&KEY)),
            "sent" => sent(alloc, self.twin(alloc)?.into_link()),
            _ => Err(Stop::Unread),
        }
    }

    fn another(&self, alloc: Global) -> Result<Self, Stop> {
        Ok(self.twin(alloc)?)
    }
}
