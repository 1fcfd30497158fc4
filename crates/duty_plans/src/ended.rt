//! How a duty ended, and what of it can be done again.
ghost use Rattle.std.specs.Prelude.{◌≡◌, ◌<◌, IfOk, drop};
ghost use Rattle.duty_plans.specs.Plans.{said};
ghost use Rattle.duty_plans.specs.Ends.{aggregation_of, barred, is_repeated, last_result, left_by, merged, over, place_after, results_of};

use crate::result::{DutyResult, Unsigned};
use altair_blocks::AnyBlock;
use block_copies::block_copy;
use edge_kit::Sig;
use phase0_types::AttestationData;
use std::alloc::{AllocError, Global};

/// What the desk gave leave for, and was not sent.
#[derive(Drop)]
pub enum Unsent {
    /// The reveal of a proposer's randomness, with which a whole block begins.
    Reveal,
    /// What a committee is to vote.
    Vote(AttestationData),
    /// A block.
    Block(AnyBlock),
}

impl Unsent {
    /// The same again. The error is want of memory, which only a block takes.
    pub fn copy(&self, alloc: Global) -> Result<Unsent, AllocError>
        ensures { IfOk result (λ copy. copy ≡ self.now) }
    {
        match self {
            Unsent::Reveal => Ok(Unsent::Reveal),
            Unsent::Vote(details) => Ok(Unsent::Vote(*details)),
            Unsent::Block(block) => Ok(Unsent::Block(block_copy(alloc, block)?)),
        }
    }
}

/// What is known of the votes of a validator's committee, which it aggregates where it is chosen to.
#[derive(Clone, Copy, PartialEq, Eq, Debug)]
pub enum Aggregation {
    /// What the committee is to vote, as a node said.
    Voted(AttestationData),
    /// The same, and the proof that the validator is chosen: its signature of the slot (consensus-specs,
    /// `is_aggregator`).
    Chosen(AttestationData, Sig),
}

/// How a duty ended, what of it can be done again, and what it goes on with.
#[derive(Drop)]
pub struct Ended {
    /// How it ended.
    pub result: DutyResult,
    /// What was granted and not sent, where another try may send it.
    pub unsent: Option<Unsent>,
    /// What is known of the votes of its committee, for what is done of the duty after this.
    pub aggregation: Option<Aggregation>,
}

impl Ended {
    /// The same again. The error is want of memory, which only a block takes.
    pub fn copy(&self, alloc: Global) -> Result<Ended, AllocError>
        ensures { IfOk result (λ copy. copy ≡ self.now) }
    {
        let unsent = match &self.unsent {
            Some(unsent) => Some(unsent.copy(alloc)?),
            None => None,
        };
        Ok(Ended {
            result: self.result,
            unsent,
            aggregation: self.aggregation,
        })
    }
}

/// The end of a duty for which nothing is left. Takes no memory.
pub fn over(by: DutyResult) -> Ended
    ensures { result ≡ over by }
{
    Ended {
        result: by,
        unsent: None,
        aggregation: None,
    }
}

/// The end of a duty for which the desk gave no leave to send this. Takes no memory.
pub fn barred(unsent: Unsent, by: DutyResult) -> Ended
    ensures { result ≡ barred unsent by }
{
    Ended {
        result: by,
        unsent: None,
        aggregation: aggregation_of(&unsent),
    }
}

/// The end of a duty for which this was granted, and which ended so: another try may send it where the service failed or
/// answered something else, or no node took it. Takes no memory.
pub fn left_by(unsent: Unsent, by: DutyResult) -> Ended
    ensures { result ≡ left_by unsent by }
{
    if !is_repeated(&by) {
        return barred(unsent, by);
    }
    let aggregation = aggregation_of(&unsent);
    Ended {
        result: by,
        unsent: Some(unsent),
        aggregation,
    }
}

/// What is known of a committee's votes by what was to be sent.
fn aggregation_of(unsent: &Unsent) -> Option<Aggregation>
    ensures { result ≡ aggregation_of unsent.now }
{
    match unsent {
        Unsent::Vote(details) => Some(Aggregation::Voted(*details)),
        Unsent::Reveal | Unsent::Block(_) => None,
    }
}

/// The end of a question for what a committee is to vote, where a node said this. Takes no memory.
pub fn said(details: AttestationData) -> Ended
    ensures { result ≡ said details }
{
    Ended {
        result: DutyResult::Sent,
        unsent: None,
        aggregation: Some(Aggregation::Voted(details)),
    }
}

/// Whether another try may send what was granted.
fn is_repeated(by: &DutyResult) -> bool
    ensures { result ≡ is_repeated by.now }
{
    match by {
        DutyResult::Unsigned(Unsigned::Fault | Unsigned::BadAnswer) | DutyResult::Unposted => true,
        DutyResult::Unsigned(Unsigned::NoKey | Unsigned::Denied) => false,
        DutyResult::Sent | DutyResult::Refused(_) => false,
        DutyResult::NoData | DutyResult::DataDiffers => false,
    }
}

/// How each of these ended. The error is want of memory.
pub fn results_of(alloc: Global, ended: &[Ended]) -> Result<Vec<DutyResult>, AllocError>
    ensures { IfOk result (λ results. results.items ≡ results_of ended.now) }
{
    let mut results = Vec::with_capacity(alloc, ended.len())?;
    'ends: for one in ended {
        results.push(one.result)?;
    }
    Ok(results)
}

/// How each of these ended at last, where those that another try may send were tried once more and ended so, in this order.
/// The error is want of memory.
pub fn merged(
    alloc: Global,
    ended: &[Ended],
    again: &[Ended],
) -> Result<Vec<DutyResult>, AllocError>
    ensures { IfOk result (λ results. results.items ≡ merged ended.now again.now) }
{
    let mut results = Vec::with_capacity(alloc, ended.len())?;
    let mut at = 0;
    'ends: for one in ended {
        results.push(last_result(one, again, at))?;
        at = place_after(one, at);
    }
    Ok(results)
}

/// How one ended at last: as its other try did, which stands at this place, if there is one.
fn last_result(one: &Ended, again: &[Ended], at: usize) -> DutyResult
    ensures { result ≡ last_result one.now (drop at again.now) }
{
    if one.unsent.is_none() {
        return one.result;
    }
    match again.get(at) {
        Some(later) => later.result,
        None => one.result,
    }
}

/// The place after it, if it has another try.
fn place_after(one: &Ended, at: usize) -> usize
    requires { at < 18446744073709551615 }
    ensures { result ≡ place_after one.now at }
{
    if one.unsent.is_some() { at + 1 } else { at }
}
