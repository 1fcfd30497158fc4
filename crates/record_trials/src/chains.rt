//! What is signed on a chain: `chain FORK | GENESIS | QUESTION`, where FORK is JSON and GENESIS a root. QUESTION is
//! `domain EPOCH KIND`, `block HEADER` or `vote DATA`, the last two of JSON, and the answer the domain or the signing root.
use crate::fixed_bytes::root_of;
use edge_kit::hex_text;
use phase0_types::{AttestationData, BeaconBlockHeader, Fork, Shaped};
use serde_json::Value;
use sign_roots::{DomainKind, Domains};
use std::alloc::Global;

fn kind_of(word: &str) -> Option<DomainKind> {
    match word {
        "beacon-proposer" => Some(DomainKind::BeaconProposer),
        "beacon-attester" => Some(DomainKind::BeaconAttester),
        "randao" => Some(DomainKind::Randao),
        "deposit" => Some(DomainKind::Deposit),
        "voluntary-exit" => Some(DomainKind::VoluntaryExit),
        "selection-proof" => Some(DomainKind::SelectionProof),
        "aggregate-and-proof" => Some(DomainKind::AggregateAndProof),
        "sync-committee" => Some(DomainKind::SyncCommittee),
        "sync-committee-selection-proof" => Some(DomainKind::SyncCommitteeSelectionProof),
        "contribution-and-proof" => Some(DomainKind::ContributionAndProof),
        _ => None,
    }
}

/// The value that a text writes as JSON.
fn value_of<T: Shaped>(alloc: Global, text: &str) -> Option<T> {
    let json = Value::from_str(alloc, text).ok()?;
    T::read_value(alloc, &json).ok()?.ok()
}

/// The domain of an epoch and a kind.
fn domain(domains: &Domains, text: &str) -> Option<[u8; 32]> {
    let (epoch, kind) = text.split_once(' ')?;
    Some(domains.domain(kind_of(kind)?, epoch.parse::<u64>().ok()?))
}

/// The answer to a question.
fn answer(alloc: Global, domains: &Domains, question: &str) -> Option<[u8; 32]> {
    let (word, rest) = question.split_once(' ')?;
    match word {
        "domain" => domain(domains, rest),
        "block" => {
            let header = value_of::<BeaconBlockHeader>(alloc, rest)?;
            Some(domains.block_root(&header).0)
        }
        "vote" => {
            let vote = value_of::<AttestationData>(alloc, rest)?;
            Some(domains.attestation_root(&vote).0)
        }
        _ => None,
    }
}

/// The domains of the fork and the genesis that texts write.
fn domains_of(alloc: Global, fork: &str, genesis: &str) -> Option<Domains> {
    Some(Domains::new(value_of::<Fork>(alloc, fork)?, root_of(genesis)?))
}

/// The answer to the question of a line, on the line's chain.
fn answer_to(alloc: Global, text: &str) -> Option<[u8; 32]> {
    let (fork, rest) = text.split_once(" | ")?;
    let (genesis, question) = rest.split_once(" | ")?;
    answer(alloc, &domains_of(alloc, fork, genesis)?, question)
}

/// What comes of a line.
pub fn outcome(alloc: Global, text: &str) -> Option<String> {
    hex_text(alloc, &answer_to(alloc, text)?).ok()
}
