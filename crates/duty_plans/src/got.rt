//! What is read of the replies to a duty's calls.
ghost use Rattle.std.specs.Prelude.{◌≡◌, if◌then◌else◌};
ghost use Rattle.std.specs.Result.{result_err};
ghost use Rattle.std.specs.Str.{bytes_eq};
ghost use Rattle.duty_plans.specs.Messages.{details_root};
ghost use Rattle.duty_plans.specs.Reading.{aggregate_of, block_of, grant_of, judged, matching, posted_of, root_differs, signature_of, vote_of};
ghost use Rattle.duty_schedule.specs.Checking.{block_members, data_members, first_that_differs};

use crate::result::{DutyResult, Refusal, Unsigned};
use altair_blocks::AnyBlock;
use desk_machine::{DeskReply, Grant};
use duty_schedule::{check_block, check_data};
use edge_kit::{Root, Sig};
use node_calls::{Answer, AttesterRow, ProposerRow};
use node_fallback::NoAnswer;
use phase0_blocks::Attestation;
use phase0_types::{AttestationData, Shaped};
use protect_record::Verdict;
use signer_link::SignReply;
use thiserror::Error;

/// An aggregate is of the votes for other data than was asked for: the hash tree roots of both.
#[derive(Clone, Copy, PartialEq, Eq, Debug, Error)]
#[error("the aggregate is of the votes for other data")]
pub struct AggregateDiffers {
    pub asked: Root,
    pub got: Root,
}

/// What came of a call.
#[derive(Drop)]
pub enum Got<T> {
    /// What it was made for.
    Given(T),
    /// It failed, and the duty ends so.
    Failed(DutyResult),
    /// Memory ran out.
    Nothing,
}

/// Leave, or why the desk gave none.
pub fn grant_in(reply: DeskReply) -> Got<Grant>
    ensures { result ≡ grant_of reply }
{
    match reply {
        DeskReply::Granted(grant) => Got::Given(grant),
        DeskReply::Disk => refused(Refusal::Disk),
        DeskReply::Unknown => refused(Refusal::Unknown),
        DeskReply::NotActive => refused(Refusal::NotActive),
        DeskReply::Closing => refused(Refusal::Closing),
        DeskReply::Live { epoch: _ } => refused(Refusal::Live),
        DeskReply::Watching {
            first: _,
            second: _,
        } => refused(Refusal::Watching),
        DeskReply::Refused(verdict) => judged(&verdict),
        DeskReply::Full { size: _, wanted: _ } => refused(Refusal::Full),
        DeskReply::OutOfMemory => Got::Nothing,
        DeskReply::Merged { keys: _ } | DeskReply::Active | DeskReply::Already => Got::Nothing,
        DeskReply::Noted | DeskReply::Settled | DeskReply::CloseBegun => Got::Nothing,
        DeskReply::AlreadyClosing | DeskReply::HasFailed(_) => Got::Nothing,
        DeskReply::Size { size: _, weight: _ } | DeskReply::LastGeneration => Got::Nothing,
        DeskReply::Compacted {
            before: _,
            after: _,
        } => Got::Nothing,
        DeskReply::Closed(_book) => Got::Nothing,
        DeskReply::Exported(_file) => Got::Nothing,
        DeskReply::Pruned(_book) => Got::Nothing,
        DeskReply::Keys(_listed) => Got::Nothing,
        DeskReply::GenesisDiffers { kept: _, given: _ } => Got::Nothing,
        DeskReply::TooManyKeys { have: _, new: _ } => Got::Nothing,
        DeskReply::NotClosing(_) | DeskReply::Busy { grants: _ } => Got::Nothing,
        DeskReply::Recorded | DeskReply::Unfit => Got::Nothing,
    }
}

/// No leave, since the key's past forbids the message.
fn judged(verdict: &Verdict) -> Got<Grant>
    ensures { result ≡ judged verdict.now }
{
    match verdict {
        Verdict::Pass => Got::Nothing,
        Verdict::SlotBelow(_) => refused(Refusal::SlotBelow),
        Verdict::DoubleBlock(_) => refused(Refusal::DoubleBlock),
        Verdict::SourceBelow(_) => refused(Refusal::SourceBelow),
        Verdict::TargetBelow(_) => refused(Refusal::TargetBelow),
        Verdict::DoubleVote(_) => refused(Refusal::DoubleVote),
        Verdict::Surrounds(_) => refused(Refusal::Surrounds),
        Verdict::Surrounded(_) => refused(Refusal::Surrounded),
    }
}

/// No leave.
fn refused(refusal: Refusal) -> Got<Grant>
    ensures { result ≡ Got.Failed (DutyResult.Refused refusal) }
{
    Got::Failed(DutyResult::Refused(refusal))
}

/// The signature, or why the service gave none.
pub fn signature_in(reply: SignReply) -> Got<Sig>
    ensures { result ≡ signature_of reply }
{
    match reply {
        SignReply::Signed(signature) => Got::Given(signature),
        SignReply::NoKey(_) => Got::Failed(DutyResult::Unsigned(Unsigned::NoKey)),
        SignReply::Denied(_) => Got::Failed(DutyResult::Unsigned(Unsigned::Denied)),
        SignReply::Fault => Got::Failed(DutyResult::Unsigned(Unsigned::Fault)),
        SignReply::BadAnswer(_) => Got::Failed(DutyResult::Unsigned(Unsigned::BadAnswer)),
        SignReply::OutOfMemory => Got::Nothing,
    }
}

/// What the committee of this duty is to vote, or why there is nothing to vote for.
pub fn vote_in(row: &AttesterRow, answer: Result<Answer, NoAnswer>) -> Got<AttestationData>
    ensures { result ≡ vote_of row.now answer }
{
    match answer {
        Ok(Answer::Data(details)) => matching_vote(row, details),
        Ok(_) => Got::Nothing,
        Err(NoAnswer::NoNode(_)) => Got::Failed(DutyResult::NoData),
        Err(NoAnswer::OutOfMemory) => Got::Nothing,
    }
}

/// The block of this duty, or why there is none; blocks are Altair's from this epoch on, or never.
pub fn block_in(
    altair: Option<u64>,
    row: &ProposerRow,
    answer: Result<Answer, NoAnswer>,
) -> Got<AnyBlock>
    ensures { result ≡ block_of altair row.now answer }
{
    match answer {
        Ok(Answer::Block(block)) => matching_block(altair, row, block),
        Ok(_) => Got::Nothing,
        Err(NoAnswer::NoNode(_)) => Got::Failed(DutyResult::NoData),
        Err(NoAnswer::OutOfMemory) => Got::Nothing,
    }
}

/// What is to be voted, where it is the duty's.
fn matching_vote(row: &AttesterRow, details: AttestationData) -> Got<AttestationData>
    ensures { result ≡ matching (first_that_differs (data_members row.now details)) details }
{
    match check_data(row, &details) {
        Ok(()) => Got::Given(details),
        Err(_) => Got::Failed(DutyResult::DataDiffers),
    }
}

/// The block, where it is the duty's.
fn matching_block(altair: Option<u64>, row: &ProposerRow, block: AnyBlock) -> Got<AnyBlock>
    ensures { result ≡ matching (first_that_differs (block_members row.now.slot altair block)) block }
{
    match check_block(row.slot, altair, &block) {
        Ok(()) => Got::Given(block),
        Err(_) => Got::Failed(DutyResult::DataDiffers),
    }
}

/// The aggregate of the votes for this data, or why there is none: an answer is that where its data has the same root.
pub fn aggregate_in(details: &AttestationData, answer: Result<Answer, NoAnswer>) -> Got<Attestation>
    ensures { result ≡ aggregate_of details.now answer }
{
    match answer {
        Ok(Answer::Aggregate(aggregate)) => matching_aggregate(details, aggregate),
        Ok(_) => Got::Nothing,
        Err(NoAnswer::NoNode(_)) => Got::Failed(DutyResult::NoData),
        Err(NoAnswer::OutOfMemory) => Got::Nothing,
    }
}

/// The aggregate, where it is of the votes for this data.
fn matching_aggregate(details: &AttestationData, aggregate: Attestation) -> Got<Attestation>
    ensures { result ≡ if bytes_eq (details_root aggregate.details) (details_root details.now) then Got.Given aggregate else Got.Failed DutyResult.DataDiffers }
{
    match check_aggregate(&details_root(details), &aggregate.details) {
        Ok(()) => Got::Given(aggregate),
        Err(_) => Got::Failed(DutyResult::DataDiffers),
    }
}

/// Whether an aggregate's data is that of which an aggregate was asked for, by its hash tree root. The error has both
/// roots. Takes no memory.
pub fn check_aggregate(asked: &Root, details: &AttestationData) -> Result<(), AggregateDiffers>
    ensures { result_err result ≡ root_differs asked.now details.now }
{
    let got = details_root(details);
    if got == *asked {
        Ok(())
    } else {
        Err(AggregateDiffers { asked: *asked, got })
    }
}

/// The hash tree root of what is voted for, by which an aggregate is asked for. Takes no memory.
#[tactic(auto, unfolding(crate::specs::Messages::details_root))]
pub fn details_root(details: &AttestationData) -> Root
    ensures { result.0 ≡ details_root details.now }
{
    details.root()
}

/// Whether a node took what was posted.
pub fn posted_in(taken: Result<(), NoAnswer>) -> Got<()>
    ensures { result ≡ posted_of taken }
{
    match taken {
        Ok(()) => Got::Given(()),
        Err(NoAnswer::NoNode(_)) => Got::Failed(DutyResult::Unposted),
        Err(NoAnswer::OutOfMemory) => Got::Nothing,
    }
}
