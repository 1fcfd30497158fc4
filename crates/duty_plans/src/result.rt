//! How a duty ends.
ghost use Rattle.std.specs.Prelude.{Some};
ghost use Rattle.duty_plans.specs.Texts.{refusal_word, result_words, unsigned_word};

use std::fmt;

/// Why the desk gave no leave. It is printed as one word, as a session's answers name the reason.
#[derive(Clone, Copy, PartialEq, Eq, Debug)]
pub enum Refusal {
    /// The disk has failed since the desk was opened.
    Disk,
    /// No past is kept of the key.
    Unknown,
    /// The key is neither active nor being closed.
    NotActive,
    /// The key is being closed.
    Closing,
    /// The key is watched, and was seen live.
    Live,
    /// The key is watched, and not all was answered yet.
    Watching,
    /// A block below the block floor.
    SlotBelow,
    /// Another block of its slot is kept.
    DoubleBlock,
    /// A vote whose source is below the floor.
    SourceBelow,
    /// A vote whose target is below the floor.
    TargetBelow,
    /// Another vote of its target is kept.
    DoubleVote,
    /// A vote that surrounds a kept one.
    Surrounds,
    /// A vote that a kept one surrounds.
    Surrounded,
    /// The journal has no room.
    Full,
}

impl fmt::Display for Refusal {
    ghost output = { λ refusal. Some (refusal_word refusal) };

    fn fmt<W: fmt::Write>(&self, f: &mut fmt::Formatter<W>) -> fmt::Result {
        f.write_str(match self {
            Refusal::Disk => "disk",
            Refusal::Unknown => "unknown",
            Refusal::NotActive => "not_active",
            Refusal::Closing => "closing",
            Refusal::Live => "live",
            Refusal::Watching => "watching",
            Refusal::SlotBelow => "slot_below",
            Refusal::DoubleBlock => "double_block",
            Refusal::SourceBelow => "source_below",
            Refusal::TargetBelow => "target_below",
            Refusal::DoubleVote => "double_vote",
            Refusal::Surrounds => "surrounds",
            Refusal::Surrounded => "surrounded",
            Refusal::Full => "full",
        })
    }
}

/// Why the service gave no signature, printed as a session's answers name the cause.
#[derive(Clone, Copy, PartialEq, Eq, Debug)]
pub enum Unsigned {
    /// It does not hold the key.
    NoKey,
    /// It refused.
    Denied,
    /// It failed; its count of faults rose.
    Fault,
    /// It answered something else.
    BadAnswer,
}

impl fmt::Display for Unsigned {
    ghost output = { λ cause. Some (unsigned_word cause) };

    fn fmt<W: fmt::Write>(&self, f: &mut fmt::Formatter<W>) -> fmt::Result {
        f.write_str(match self {
            Unsigned::NoKey => "no_key",
            Unsigned::Denied => "denied",
            Unsigned::Fault => "fault",
            Unsigned::BadAnswer => "bad_answer",
        })
    }
}

/// How a duty ended: by the first of its calls that failed, if any.
#[derive(Clone, Copy, PartialEq, Eq, Debug)]
pub enum DutyResult {
    /// None failed: a node took what was signed; of a question or a choice, it was answered or made.
    Sent,
    /// The desk gave no leave.
    Refused(Refusal),
    /// The service gave no signature.
    Unsigned(Unsigned),
    /// No node gave what was asked for.
    NoData,
    /// What a node gave is not the duty's.
    DataDiffers,
    /// No node took what was signed.
    Unposted,
}

impl fmt::Display for DutyResult {
    ghost output = { λ result. Some (result_words result) };

    fn fmt<W: fmt::Write>(&self, f: &mut fmt::Formatter<W>) -> fmt::Result {
        match self {
            DutyResult::Sent => f.write_str("sent"),
            DutyResult::Refused(refusal) => write!(f, "refused {refusal}"),
            DutyResult::Unsigned(cause) => write!(f, "unsigned {cause}"),
            DutyResult::NoData => f.write_str("nodata none"),
            DutyResult::DataDiffers => f.write_str("nodata differs"),
            DutyResult::Unposted => f.write_str("unposted"),
        }
    }
}
