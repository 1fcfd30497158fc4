//! The members of the containers, by the names that the Beacon API's JSON gives them.
ghost use Rattle.std.specs.Prelude.{◌≡◌, IsTrue};
ghost use Rattle.phase0_types.specs.Members.{member_name, is_in_bodies};

/// A member of a container (Beacon API; consensus-specs, "Containers" of each fork; builder-specs, "Containers").
#[derive(Clone, Copy, PartialEq, Eq, Debug)]
pub enum Member {
    PreviousVersion,
    CurrentVersion,
    Epoch,
    GenesisValidatorsRoot,
    ObjectRoot,
    Domain,
    Root,
    Slot,
    Index,
    BeaconBlockRoot,
    Source,
    Target,
    ProposerIndex,
    ParentRoot,
    StateRoot,
    BodyRoot,
    Body,
    RandaoReveal,
    Eth1Data,
    Graffiti,
    ProposerSlashings,
    AttesterSlashings,
    Attestations,
    Deposits,
    VoluntaryExits,
    DepositRoot,
    DepositCount,
    BlockHash,
    SignedHeader1,
    SignedHeader2,
    Attestation1,
    Attestation2,
    AttestingIndices,
    /// The member `data`.
    Details,
    Signature,
    AggregationBits,
    Proof,
    Pubkey,
    WithdrawalCredentials,
    Amount,
    ValidatorIndex,
    Message,
    SubcommitteeIndex,
    AggregatorIndex,
    Contribution,
    SelectionProof,
    Aggregate,
    CommitteeBits,
    FeeRecipient,
    GasLimit,
    Timestamp,
    SyncAggregate,
    SyncCommitteeBits,
    SyncCommitteeSignature,
}

impl Member {
    /// Its name in JSON.
    pub fn name(self) -> &'static str
        ensures { result.now ≡ member_name self }
    {
        match self {
            Member::PreviousVersion => "previous_version",
            Member::CurrentVersion => "current_version",
            Member::Epoch => "epoch",
            Member::GenesisValidatorsRoot => "genesis_validators_root",
            Member::ObjectRoot => "object_root",
            Member::Domain => "domain",
            Member::Root => "root",
            Member::Slot => "slot",
            Member::Index => "index",
            Member::BeaconBlockRoot => "beacon_block_root",
            Member::Source => "source",
            Member::Target => "target",
            Member::ProposerIndex => "proposer_index",
            Member::ParentRoot => "parent_root",
            Member::StateRoot => "state_root",
            Member::BodyRoot => "body_root",
            Member::FeeRecipient => "fee_recipient",
            Member::GasLimit => "gas_limit",
            Member::Timestamp => "timestamp",
            _ => self.name_in_bodies(),
        }
    }

    /// Its name, where no fork, signing data, header, attestation data or registration has it; else nothing.
    fn name_in_bodies(self) -> &'static str
        ensures { IsTrue (is_in_bodies self) → result.now ≡ member_name self }
    {
        match self {
            Member::Body => "body",
            Member::RandaoReveal => "randao_reveal",
            Member::Eth1Data => "eth1_data",
            Member::Graffiti => "graffiti",
            Member::ProposerSlashings => "proposer_slashings",
            Member::AttesterSlashings => "attester_slashings",
            Member::Attestations => "attestations",
            Member::Deposits => "deposits",
            Member::VoluntaryExits => "voluntary_exits",
            Member::DepositRoot => "deposit_root",
            Member::DepositCount => "deposit_count",
            Member::BlockHash => "block_hash",
            Member::SignedHeader1 => "signed_header_1",
            Member::SignedHeader2 => "signed_header_2",
            Member::Attestation1 => "attestation_1",
            Member::Attestation2 => "attestation_2",
            Member::AttestingIndices => "attesting_indices",
            Member::Details => "data",
            Member::Signature => "signature",
            Member::AggregationBits => "aggregation_bits",
            Member::Proof => "proof",
            Member::Pubkey => "pubkey",
            Member::WithdrawalCredentials => "withdrawal_credentials",
            Member::Amount => "amount",
            Member::ValidatorIndex => "validator_index",
            Member::Message => "message",
            Member::SubcommitteeIndex => "subcommittee_index",
            Member::AggregatorIndex => "aggregator_index",
            Member::Contribution => "contribution",
            Member::SelectionProof => "selection_proof",
            Member::Aggregate => "aggregate",
            Member::CommitteeBits => "committee_bits",
            Member::SyncAggregate => "sync_aggregate",
            Member::SyncCommitteeBits => "sync_committee_bits",
            Member::SyncCommitteeSignature => "sync_committee_signature",
            _ => "",
        }
    }
}
