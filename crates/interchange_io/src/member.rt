//! The members of an interchange file.
ghost use Rattle.std.specs.Prelude.{◌≡◌};
ghost use Rattle.interchange_io.specs.Members.{name_of};

/// A member of an interchange file (EIP-3076, JSON schema), or the file itself.
#[derive(Clone, Copy, PartialEq, Eq, Debug)]
pub enum Member {
    /// The whole file.
    File,
    /// What the file says of itself.
    Metadata,
    /// The format version, a text.
    InterchangeFormatVersion,
    /// The root of the chain's genesis validators, 32 bytes in hex.
    GenesisValidatorsRoot,
    /// The list of keys with what they signed.
    Data,
    /// A validator's public key, 48 bytes in hex.
    Pubkey,
    /// The list of a key's blocks.
    SignedBlocks,
    /// A block's slot, a decimal text.
    Slot,
    /// The signing root of a block or a vote, 32 bytes in hex.
    SigningRoot,
    /// The list of a key's votes.
    SignedAttestations,
    /// A vote's source epoch, a decimal text.
    SourceEpoch,
    /// A vote's target epoch, a decimal text.
    TargetEpoch,
}

impl Member {
    /// The member's name in the file, and `file` for the whole. Takes no memory.
    pub fn name(self) -> &'static str
        ensures { result.now ≡ name_of self }
    {
        match self {
            Member::File => "file",
            Member::Metadata => "metadata",
            Member::InterchangeFormatVersion => "interchange_format_version",
            Member::GenesisValidatorsRoot => "genesis_validators_root",
            Member::Data => "data",
            Member::Pubkey => "pubkey",
            Member::SignedBlocks => "signed_blocks",
            Member::Slot => "slot",
            Member::SigningRoot => "signing_root",
            Member::SignedAttestations => "signed_attestations",
            Member::SourceEpoch => "source_epoch",
            Member::TargetEpoch => "target_epoch",
        }
    }
}
