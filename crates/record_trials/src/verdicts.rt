//! Verdicts and judgements in words.
use crate::entries::{put_block, put_vote};
use protect_record::Verdict;
use record_join::Judged;
use std::alloc::{AllocError, Global};

/// What a verdict is, without the entry or the number that it names.
fn word_of(verdict: &Verdict) -> &'static str {
    match verdict {
        Verdict::Pass => "passes",
        Verdict::SlotBelow(_) => "slot below",
        Verdict::DoubleBlock(_) => "double block",
        Verdict::SourceBelow(_) => "source below",
        Verdict::TargetBelow(_) => "target below",
        Verdict::DoubleVote(_) => "double vote",
        Verdict::Surrounds(_) => "surrounds",
        Verdict::Surrounded(_) => "surrounded by",
    }
}

/// Puts a verdict after a text.
pub fn put_verdict(alloc: Global, out: &mut String, verdict: &Verdict) -> Result<(), AllocError> {
    out.push_str(word_of(verdict))?;
    match verdict {
        Verdict::Pass => Ok(()),
        Verdict::SlotBelow(floor) | Verdict::SourceBelow(floor) | Verdict::TargetBelow(floor) => {
            write!(out, " {floor}")
        }
        Verdict::DoubleBlock(kept) => put_block(alloc, out, kept),
        Verdict::DoubleVote(kept) | Verdict::Surrounds(kept) | Verdict::Surrounded(kept) => {
            put_vote(alloc, out, kept)
        }
    }
}

/// Puts a judgement after a text.
pub fn put_judged(alloc: Global, out: &mut String, judged: &Judged) -> Result<(), AllocError> {
    let word = match judged {
        Judged::Unknown => "unknown key",
        Judged::NoRoom => "no room",
        Judged::Ready { repeat: true } => "ready, a repeat",
        Judged::Ready { repeat: false } => "ready",
        Judged::Refused(verdict) => return put_verdict(alloc, out, verdict),
    };
    out.push_str(word)?;
    Ok(())
}
