//! What a request asks for.
ghost use Rattle.std.specs.Prelude.{◌≡◌};
ghost use Rattle.signing_requests.specs.Objects.{said, signed_root, wanted_of, with_object};

use altair_blocks::AnyBlock;
use edge_kit::{PubKey, Root};
use phase0_types::{AttestationData, BeaconBlockHeader, Shaped};
use sign_roots::{DomainKind, Domains, signing_root};
use signer_link::{BlockVersion, PlainObject, PlainRequest, SignObject, SignRequest};
use slash_defs::Message;

/// How many slots an epoch has (consensus-specs, `SLOTS_PER_EPOCH`).
const SLOTS_PER_EPOCH: u64 = 32;

/// What is to be signed.
#[derive(Drop, Debug)]
pub enum SigningObject {
    /// A whole block, of any version.
    Block(AnyBlock),
    /// A block by its header, and the version that it names.
    Header {
        version: BlockVersion,
        header: BeaconBlockHeader,
    },
    /// A vote.
    Vote(AttestationData),
    /// What is no block and no vote.
    Plain(PlainObject),
}

impl SigningObject {
    /// The root that is signed: the object's, under the domain of its kind and epoch (consensus-specs,
    /// `compute_signing_root`). Takes no memory.
    pub(crate) fn signing_root(&self, domains: &Domains) -> Root
        ensures { result.0 ≡ signed_root domains.now (said self.now) }
    {
        match self {
            SigningObject::Block(block) => block_root(domains, block),
            SigningObject::Header { version, header } => header_root(domains, *version, header),
            SigningObject::Vote(details) => vote_root(domains, details),
            SigningObject::Plain(object) => plain_root(domains, object),
        }
    }
}

/// The root that is signed for a whole block.
#[tactic(auto, using(crate::proofs::ObjectLemmas::block_slot_value))]
fn block_root(domains: &Domains, block: &AnyBlock) -> Root
    ensures { result.0 ≡ signed_root domains.now (said (SigningObject.Block block.now)) }
{
    let domain = domains.domain(DomainKind::BeaconProposer, block.slot() / SLOTS_PER_EPOCH);
    signing_root(block.root(), domain)
}

/// And for a header.
#[tactic(auto, unfolding(crate::specs::Objects::header_slot, phase0_types::specs::Containers::beacon_block_header, phase0_types::specs::Headers::beacon_block_header_value))]
fn header_root(domains: &Domains, version: BlockVersion, header: &BeaconBlockHeader) -> Root
    ensures { result.0 ≡ signed_root domains.now (said (SigningObject.Header version header.now)) }
{
    let domain = domains.domain(DomainKind::BeaconProposer, header.slot / SLOTS_PER_EPOCH);
    signing_root(header.root(), domain)
}

/// And for a vote.
#[tactic(auto, unfolding(crate::specs::Objects::target_epoch, phase0_types::specs::Containers::attestation_data, phase0_types::specs::Containers::checkpoint, phase0_types::specs::Attestations::attestation_data_value, phase0_types::specs::Attestations::checkpoint_value))]
fn vote_root(domains: &Domains, details: &AttestationData) -> Root
    ensures { result.0 ≡ signed_root domains.now (said (SigningObject.Vote details.now)) }
{
    let domain = domains.domain(DomainKind::BeaconAttester, details.target.epoch);
    signing_root(details.root(), domain)
}

/// And for what is no block and no vote.
fn plain_root(domains: &Domains, object: &PlainObject) -> Root
    ensures { result.0 ≡ signed_root domains.now (said (SigningObject.Plain object.now)) }
{
    object.signing_root(domains.fork, domains.genesis)
}

/// What the service is asked for what is no block and no vote.
fn plain_request(domains: &Domains, object: PlainObject) -> PlainRequest
    ensures { result ≡ record { fork = domains.now.fork; genesis = domains.now.genesis; object = object } }
{
    PlainRequest {
        fork: domains.fork,
        genesis: domains.genesis,
        object,
    }
}

/// A request for a signature by a key.
#[derive(Drop, Debug)]
pub struct SigningRequest {
    /// The key.
    pub key: PubKey,
    /// The chain and the fork that it is signed under.
    pub domains: Domains,
    /// What is to be signed.
    pub object: SigningObject,
}

impl SigningRequest {
    /// What the desk and the signing service are to be asked. Takes no memory.
    pub fn wanted(self) -> Wanted
        ensures { result ≡ wanted_of self.domains self.object }
    {
        let SigningRequest {
            key: _,
            domains,
            object,
        } = self;
        let root = object.signing_root(&domains);
        match object {
            SigningObject::Block(block) => block_wanted(root, &domains, block),
            SigningObject::Header { version, header } => {
                header_wanted(root, &domains, version, header)
            }
            SigningObject::Vote(details) => vote_wanted(root, &domains, details),
            SigningObject::Plain(object) => Wanted::Allow(plain_request(&domains, object)),
        }
    }
}

/// A whole block of this signing root.
fn block_wanted(root: Root, domains: &Domains, block: AnyBlock) -> Wanted
    ensures { root.0 ≡ signed_root domains.now (said (SigningObject.Block block)) → result ≡ wanted_of domains.now (SigningObject.Block block) }
{
    let slot = block.slot();
    proposal(
        Message::Block { slot, root },
        domains,
        SignObject::Block(block),
    )
}

/// And a header.
#[tactic(auto, unfolding(sign_roots::specs::SigningRoots::block_root_of, crate::specs::Objects::header_slot, phase0_types::specs::Containers::beacon_block_header, phase0_types::specs::Headers::beacon_block_header_value))]
fn header_wanted(
    root: Root,
    domains: &Domains,
    version: BlockVersion,
    header: BeaconBlockHeader,
) -> Wanted
    ensures { root.0 ≡ signed_root domains.now (said (SigningObject.Header version header)) → result ≡ wanted_of domains.now (SigningObject.Header version header) }
{
    let slot = header.slot;
    proposal(
        Message::Block { slot, root },
        domains,
        SignObject::Header { version, header },
    )
}

/// And a vote.
#[tactic(auto, unfolding(sign_roots::specs::SigningRoots::attestation_root_of, crate::specs::Objects::target_epoch, phase0_types::specs::Containers::attestation_data, phase0_types::specs::Containers::checkpoint, phase0_types::specs::Attestations::attestation_data_value, phase0_types::specs::Attestations::checkpoint_value))]
fn vote_wanted(root: Root, domains: &Domains, details: AttestationData) -> Wanted
    ensures { root.0 ≡ signed_root domains.now (said (SigningObject.Vote details)) → result ≡ wanted_of domains.now (SigningObject.Vote details) }
{
    let message = Message::Vote {
        source: details.source.epoch,
        target: details.target.epoch,
        root,
    };
    proposal(message, domains, SignObject::Attestation(details))
}

/// A message, and the object that it was made of.
fn proposal(message: Message, domains: &Domains, object: SignObject) -> Wanted
    ensures { result ≡ Wanted.Propose message (with_object domains.now object) }
{
    Wanted::Propose {
        message,
        request: SignRequest {
            fork: domains.fork,
            genesis: domains.genesis,
            object: Some(object),
        },
    }
}

/// What the desk and the signing service are to be asked for a signature.
#[derive(Drop, Debug)]
pub enum Wanted {
    /// A block or a vote: the desk is asked whether it may be signed, and keeps it.
    Propose {
        /// The message, whose root is the one that is signed.
        message: Message,
        /// What goes to the service next to it: the fork and the chain of the request, and the object.
        request: SignRequest,
    },
    /// What can be in no slashable pair: the desk is only asked for leave.
    Allow(PlainRequest),
}
