//! The domains of a chain, and the roots that are signed under them.
ghost use Rattle.std.specs.Prelude.{◌≡◌};
ghost use Rattle.sign_roots.specs.Domains.{domain_of, fork_data_root, version_at};
ghost use Rattle.sign_roots.specs.SigningRoots.{attestation_root_of, block_root_of};

use crate::kind::DomainKind;
use crate::signing::signing_root;
use edge_kit::Root;
use phase0_types::{AttestationData, BeaconBlockHeader, Fork, ForkData, Shaped};

/// How many slots an epoch has (consensus-specs, `SLOTS_PER_EPOCH`).
const SLOTS_PER_EPOCH: u64 = 32;

/// A chain, by its fork and the root of its genesis validators: all that a domain depends on,
/// besides the kind and the epoch of what is signed.
#[derive(Clone, Copy, PartialEq, Eq, Debug)]
pub struct Domains {
    /// The versions before and from the fork's epoch on.
    pub fork: Fork,
    /// The root of the validators at genesis (consensus-specs, `genesis_validators_root`).
    pub genesis: Root,
}

impl Domains {
    /// The domains of the chain with this fork and this root of its genesis validators.
    pub fn new(fork: Fork, genesis: Root) -> Self
        ensures { result ≡ record { fork = fork; genesis = genesis } }
    {
        Domains { fork, genesis }
    }

    /// The domain of 32 bytes that a message of this kind and epoch is signed under: the kind's
    /// type, and the first 28 bytes of the root of the fork's data (consensus-specs, `get_domain`
    /// and `compute_domain`). An epoch before the fork's has the fork's previous version.
    #[tactic(auto, unfolding(crate::specs::Domains::domain_of))]
    pub fn domain(&self, kind: DomainKind, epoch: u64) -> [u8; 32]
        ensures { result ≡ domain_of self.now kind epoch }
    {
        let root = data_root(fork_version(&self.fork, epoch), self.genesis);
        let mut domain = [0; 32];
        domain[..4].copy_from_slice(&kind.bytes());
        domain[4..].copy_from_slice(&root.0[..28]);
        domain
    }

    /// The root that a proposer signs for a block, from its header: the two have one root.
    /// The domain is that of the epoch of the header's slot, of 32 slots each.
    #[tactic(auto, unfolding(crate::specs::SigningRoots::block_root_of))]
    pub fn block_root(&self, header: &BeaconBlockHeader) -> Root
        ensures { result.0 ≡ block_root_of self.now header.now }
    {
        let epoch = header.slot / SLOTS_PER_EPOCH;
        signing_root(
            header.root(),
            self.domain(DomainKind::BeaconProposer, epoch),
        )
    }

    /// The root that an attester signs for a vote. The domain is that of the target's epoch.
    #[tactic(auto, unfolding(crate::specs::SigningRoots::attestation_root_of))]
    pub fn attestation_root(&self, details: &AttestationData) -> Root
        ensures { result.0 ≡ attestation_root_of self.now details.now }
    {
        let epoch = details.target.epoch;
        signing_root(
            details.root(),
            self.domain(DomainKind::BeaconAttester, epoch),
        )
    }
}

/// The version of an epoch.
fn fork_version(fork: &Fork, epoch: u64) -> [u8; 4]
    ensures { result ≡ version_at fork.now epoch }
{
    if epoch < fork.epoch {
        fork.previous_version
    } else {
        fork.current_version
    }
}

/// The root that tells one chain and version from another (consensus-specs,
/// `compute_fork_data_root`).
#[tactic(auto, unfolding(crate::specs::Domains::fork_data_root))]
fn data_root(current_version: [u8; 4], genesis_validators_root: Root) -> Root
    ensures { result.0 ≡ fork_data_root current_version genesis_validators_root }
{
    ForkData {
        current_version,
        genesis_validators_root,
    }
    .root()
}
