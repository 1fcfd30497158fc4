//! The members of a line.
ghost use Rattle.std.specs.Prelude.{◌≡◌};
ghost use Rattle.session_format.specs.Members.{member_name, inside};

use phase0_types::ReadFault;

/// The first member of a line that is absent or has no reading.
#[derive(Clone, Copy, PartialEq, Eq, Debug)]
pub enum Member {
    /// The line is no JSON object in UTF-8.
    Line,
    Op,
    /// The member `file` is no text.
    File,
    /// The member `keystores` is no list of texts.
    Keystores,
    /// The member `passwords` is no list of texts, or has another length than `keystores`.
    Passwords,
    /// The member `slashing_protection` is there, and no text.
    SlashingProtection,
    Pubkey,
    Pubkeys,
    Slot,
    SourceEpoch,
    TargetEpoch,
    SigningRoot,
    /// The member `header` is no object.
    Header,
    /// The member `beacon_block` is no object.
    BeaconBlock,
    /// The version of a whole block is none that is read, or another than the one of the block's slot.
    Version,
    /// The member `block` is absent or no object.
    Block,
    /// The member `attestation` is no object.
    Attestation,
    /// The epoch that is told of.
    Of,
    /// The member `is_live` is neither true nor false.
    IsLive,
    /// A member inside `header`, `block` or `attestation`.
    Inside(phase0_types::Member),
    /// The moment is no number in quotes, or above 576,460,752,303,423,487.
    Epoch,
}

impl Member {
    /// The member's name in a line.
    pub fn name(self) -> &'static str
        ensures { result.now ≡ member_name self }
    {
        match self {
            Member::Line => "line",
            Member::Op => "op",
            Member::File => "file",
            Member::Keystores => "keystores",
            Member::Passwords => "passwords",
            Member::SlashingProtection => "slashing_protection",
            Member::Pubkey => "pubkey",
            Member::Pubkeys => "pubkeys",
            Member::Slot => "slot",
            Member::SourceEpoch => "source_epoch",
            Member::TargetEpoch => "target_epoch",
            Member::SigningRoot => "signing_root",
            Member::Header => "header",
            Member::BeaconBlock => "beacon_block",
            Member::Version => "version",
            Member::Block => "block",
            Member::Attestation => "attestation",
            Member::Of => "of",
            Member::IsLive => "is_live",
            Member::Inside(member) => member.name(),
            Member::Epoch => "epoch",
        }
    }
}

/// The member that a container's fault names; the whole where the value itself is no object.
pub(crate) fn member_of(whole: Member, fault: ReadFault) -> Member
    ensures { result ≡ inside whole fault }
{
    match fault {
        ReadFault::Json => whole,
        ReadFault::Missing(member)
        | ReadFault::BadNumber(member)
        | ReadFault::BadHex(member)
        | ReadFault::TooLong(member) => Member::Inside(member),
    }
}
