//! Whether the data that a node gives for a duty is that duty's.
ghost use Rattle.std.specs.Prelude.{◌≡◌, [], ◌∷◌, Some};
ghost use Rattle.std.specs.Result.{result_err};
ghost use Rattle.duty_schedule.specs.Checking.{block_members, data_members, first_that_differs, in_member, member_name, version_number};

use crate::slots::epoch_of;
use altair_blocks::{AnyBlock, ConsensusVersion, version_at};
use node_calls::AttesterRow;
use phase0_types::AttestationData;
use std::fmt;
use thiserror::Error;

/// A member of what a node gives for a duty, printed as consensus-specs spells it.
#[derive(Clone, Copy, PartialEq, Eq, Debug)]
pub enum DataMember {
    Slot,
    Index,
    TargetEpoch,
    SourceEpoch,
    Version,
}

impl fmt::Display for DataMember {
    ghost output = { λ member. Some (member_name member) };

    fn fmt<W: fmt::Write>(&self, f: &mut fmt::Formatter<W>) -> fmt::Result {
        f.write_str(match self {
            DataMember::Slot => "slot",
            DataMember::Index => "index",
            DataMember::TargetEpoch => "target.epoch",
            DataMember::SourceEpoch => "source.epoch",
            DataMember::Version => "version",
        })
    }
}

/// A member is another than the duty wants.
#[derive(Clone, Copy, PartialEq, Eq, Debug, Error)]
#[error("{member} is {got} and should be {wanted}")]
pub struct DataDiffers {
    pub member: DataMember,
    pub wanted: u64,
    pub got: u64,
}

/// Whether what a committee is to vote is what this duty is to vote: its slot is the duty's, its index is that of
/// the duty's committee, its target is of the slot's epoch, and its source is no later than the target, which is
/// the greatest that is wanted of a source. The error is the first that differs. Takes no memory.
pub fn check_data(duty: &AttesterRow, details: &AttestationData) -> Result<(), DataDiffers>
    ensures { result_err result ≡ first_that_differs (data_members duty.now details.now) }
{
    check_member(DataMember::Slot, duty.slot, details.slot)?;
    check_member(DataMember::Index, duty.committee_index, details.index)?;
    check_member(
        DataMember::TargetEpoch,
        epoch_of(duty.slot),
        details.target.epoch,
    )?;
    let (source, target) = (details.source.epoch, details.target.epoch);
    check_member(DataMember::SourceEpoch, source.min(target), source)
}

/// Whether a block is for this slot and of its version, where blocks are Altair's from this epoch on, or never. The error is
/// the first that differs, the slot before the version, whose number is 0 for phase 0 and 1 for Altair. Takes no memory.
pub fn check_block(slot: u64, altair: Option<u64>, block: &AnyBlock) -> Result<(), DataDiffers>
    ensures { result_err result ≡ first_that_differs (block_members slot altair block.now) }
{
    check_member(DataMember::Slot, slot, block.slot())?;
    check_member(
        DataMember::Version,
        version_number(version_at(altair, slot)),
        version_number(block.version()),
    )
}

/// The number that a version has where it differs.
fn version_number(version: ConsensusVersion) -> u64
    ensures { result ≡ version_number version }
{
    match version {
        ConsensusVersion::Phase0 => 0,
        ConsensusVersion::Altair => 1,
    }
}

/// Whether a member is what is wanted.
fn check_member(member: DataMember, wanted: u64, got: u64) -> Result<(), DataDiffers>
    ensures { result_err result ≡ first_that_differs (in_member member wanted got ∷ []) }
{
    if wanted == got {
        Ok(())
    } else {
        Err(DataDiffers {
            member,
            wanted,
            got,
        })
    }
}
