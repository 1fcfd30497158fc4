//! What a signature is for.
ghost use Rattle.std.specs.Prelude.{◌≡◌};
ghost use Rattle.sign_roots.specs.Domains.{domain_type};

/// What a signature is for (consensus-specs, "Domain types" of phase 0 and of Altair; builder-specs).
#[derive(Clone, Copy, PartialEq, Eq, Debug)]
pub enum DomainKind {
    /// A block, or its header.
    BeaconProposer,
    /// The data of an attestation.
    BeaconAttester,
    /// The epoch that a proposer reveals its randomness for.
    Randao,
    /// A deposit's message. On every fork it is signed under the version at genesis and a genesis
    /// root of zeros (consensus-specs, `compute_domain`).
    Deposit,
    /// An exit.
    VoluntaryExit,
    /// The slot that an aggregator is chosen for.
    SelectionProof,
    /// An aggregate, with its aggregator and the proof of its choice.
    AggregateAndProof,
    /// The root of a block that a member of a sync committee votes for.
    SyncCommittee,
    /// The slot and the subcommittee that an aggregator of a sync committee is chosen for.
    SyncCommitteeSelectionProof,
    /// The contribution of a sync subcommittee, with its aggregator and the proof of its choice.
    ContributionAndProof,
    /// What an application asks for that the beacon chain does not: a registration with builders. It is signed under
    /// the version at genesis and a genesis root of zeros (builder-specs, `DOMAIN_APPLICATION_BUILDER`).
    ApplicationBuilder,
}

impl DomainKind {
    /// Its domain type, of 4 bytes.
    pub fn bytes(self) -> [u8; 4]
        ensures { result ≡ domain_type self }
    {
        match self {
            DomainKind::BeaconProposer => [0, 0, 0, 0],
            DomainKind::BeaconAttester => [1, 0, 0, 0],
            DomainKind::Randao => [2, 0, 0, 0],
            DomainKind::Deposit => [3, 0, 0, 0],
            DomainKind::VoluntaryExit => [4, 0, 0, 0],
            DomainKind::SelectionProof => [5, 0, 0, 0],
            DomainKind::AggregateAndProof => [6, 0, 0, 0],
            DomainKind::SyncCommittee => [7, 0, 0, 0],
            DomainKind::SyncCommitteeSelectionProof => [8, 0, 0, 0],
            DomainKind::ContributionAndProof => [9, 0, 0, 0],
            DomainKind::ApplicationBuilder => [0, 0, 0, 1],
        }
    }
}
