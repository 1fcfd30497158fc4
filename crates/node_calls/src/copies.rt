//! The same values again, of what holds lists. Each error is want of memory.
ghost use Rattle.std.specs.Prelude.{◌≡◌, IfOk, OnOk, true};
ghost use Rattle.node_calls.specs.Asking.{is_given};

use crate::answer::{Answer, NodeFault};
use crate::ask::Ask;
use crate::post::Post;
use crate::told::{NodeCall, PostCall};
use block_copies::{attestation_copy, block_copy};
use edge_kit::Items;
use phase0_blocks::Signed;
use std::alloc::{AllocError, Global};

impl Ask {
    /// The same question again. The error is want of memory.
    pub fn copy(&self, alloc: Global) -> Result<Ask, AllocError>
        ensures { IfOk result (λ copy. copy ≡ self.now) }
    {
        Ok(match self {
            Ask::Genesis => Ask::Genesis,
            Ask::Fork => Ask::Fork,
            Ask::Syncing => Ask::Syncing,
            Ask::Validators { keys } => Ask::Validators {
                keys: items_copy(alloc, keys)?,
            },
            Ask::Proposer { epoch } => Ask::Proposer { epoch: *epoch },
            Ask::Attester { epoch, indices } => Ask::Attester {
                epoch: *epoch,
                indices: items_copy(alloc, indices)?,
            },
            Ask::Data {
                slot,
                committee_index,
            } => Ask::Data {
                slot: *slot,
                committee_index: *committee_index,
            },
            Ask::Block {
                slot,
                randao_reveal,
            } => Ask::Block {
                slot: *slot,
                randao_reveal: *randao_reveal,
            },
            Ask::Aggregate {
                attestation_data_root,
                slot,
            } => Ask::Aggregate {
                attestation_data_root: *attestation_data_root,
                slot: *slot,
            },
            Ask::Liveness { epoch, indices } => Ask::Liveness {
                epoch: *epoch,
                indices: items_copy(alloc, indices)?,
            },
        })
    }
}

impl Answer {
    /// The same answer again. The error is want of memory.
    pub fn copy(&self, alloc: Global) -> Result<Answer, AllocError>
        ensures { IfOk result (λ copy. copy ≡ self.now) }
    {
        Ok(match self {
            Answer::Genesis {
                genesis_time,
                genesis_validators_root,
            } => Answer::Genesis {
                genesis_time: *genesis_time,
                genesis_validators_root: *genesis_validators_root,
            },
            Answer::Fork(fork) => Answer::Fork(*fork),
            Answer::Syncing { is_syncing } => Answer::Syncing {
                is_syncing: *is_syncing,
            },
            Answer::Validators(rows) => Answer::Validators(items_copy(alloc, rows)?),
            Answer::Proposer {
                dependent_root,
                rows,
            } => Answer::Proposer {
                dependent_root: *dependent_root,
                rows: items_copy(alloc, rows)?,
            },
            Answer::Attester {
                dependent_root,
                rows,
            } => Answer::Attester {
                dependent_root: *dependent_root,
                rows: items_copy(alloc, rows)?,
            },
            Answer::Data(details) => Answer::Data(*details),
            Answer::Block(block) => Answer::Block(block_copy(alloc, block)?),
            Answer::Aggregate(aggregate) => Answer::Aggregate(attestation_copy(alloc, aggregate)?),
            Answer::Liveness(rows) => Answer::Liveness(items_copy(alloc, rows)?),
        })
    }
}

impl NodeFault {
    /// The same fault again. The error is want of memory, and stands for `OutOfMemory` too.
    pub fn copy(&self, alloc: Global) -> Result<NodeFault, AllocError>
        ensures same { IfOk result (λ copy. copy ≡ self.now) }
        ensures given { OnOk result (is_given self.now ≡ true) }
    {
        match self {
            NodeFault::Fault => Ok(NodeFault::Fault),
            NodeFault::Status(status) => Ok(NodeFault::Status(*status)),
            NodeFault::Unreadable(body) if body.is_empty() => {
                Ok(NodeFault::Unreadable(Items::new(alloc)))
            }
            NodeFault::Unreadable(body) => Ok(NodeFault::Unreadable(items_copy(alloc, body)?)),
            NodeFault::OutOfMemory => Err(AllocError),
        }
    }
}

impl Post {
    /// The same post again. The error is want of memory.
    pub fn copy(&self, alloc: Global) -> Result<Post, AllocError>
        ensures { IfOk result (λ copy. copy ≡ self.now) }
    {
        Ok(match self {
            Post::Vote(vote) => Post::Vote(attestation_copy(alloc, vote)?),
            Post::Block(block) => Post::Block(Signed {
                message: block_copy(alloc, &block.message)?,
                signature: block.signature,
            }),
            Post::Aggregate(signed) => Post::Aggregate(Signed {
                message: signed.message.copy(alloc)?,
                signature: signed.signature,
            }),
        })
    }
}

impl PostCall {
    /// The same call again. The error is want of memory.
    pub fn copy(&self, alloc: Global) -> Result<PostCall, AllocError>
        ensures { IfOk result (λ copy. copy ≡ self.now) }
    {
        Ok(PostCall {
            key: self.key,
            message: self.message,
            post: self.post.copy(alloc)?,
        })
    }
}

impl NodeCall {
    /// The same call with its reply again. The error is want of memory, and stands for the reply `OutOfMemory` too.
    pub fn copy(&self, alloc: Global) -> Result<NodeCall, AllocError>
        ensures { IfOk result (λ copy. copy ≡ self.now) }
    {
        match self {
            NodeCall::Asked(ask, reply) => Ok(NodeCall::Asked(
                ask.copy(alloc)?,
                answered_copy(alloc, reply)?,
            )),
            NodeCall::Posted(call, reply) => Ok(NodeCall::Posted(
                call.copy(alloc)?,
                taken_copy(alloc, reply)?,
            )),
        }
    }
}

/// The same calls with their replies again. The error is want of memory.
pub fn calls_copy(alloc: Global, calls: &[NodeCall]) -> Result<Vec<NodeCall>, AllocError>
    ensures { IfOk result (λ copies. copies.items ≡ calls.now) }
{
    let mut copies = Vec::with_capacity(alloc, calls.len())?;
    'calls: for call in calls {
        copies.push(call.copy(alloc)?)?;
    }
    Ok(copies)
}

/// The same answers again. The error is want of memory.
pub(crate) fn answers_copy(alloc: Global, answers: &[Answer]) -> Result<Vec<Answer>, AllocError>
    ensures { IfOk result (λ copies. copies.items ≡ answers.now) }
{
    let mut copies = Vec::with_capacity(alloc, answers.len())?;
    'answers: for answer in answers {
        copies.push(answer.copy(alloc)?)?;
    }
    Ok(copies)
}

/// The same reply to a question again.
fn answered_copy(
    alloc: Global,
    reply: &Result<Answer, NodeFault>,
) -> Result<Result<Answer, NodeFault>, AllocError>
    ensures { IfOk result (λ copy. copy ≡ reply.now) }
{
    match reply {
        Ok(answer) => Ok(Ok(answer.copy(alloc)?)),
        Err(fault) => Ok(Err(fault.copy(alloc)?)),
    }
}

/// And to a post.
fn taken_copy(
    alloc: Global,
    reply: &Result<(), NodeFault>,
) -> Result<Result<(), NodeFault>, AllocError>
    ensures { IfOk result (λ copy. copy ≡ reply.now) }
{
    match reply {
        Ok(()) => Ok(Ok(())),
        Err(fault) => Ok(Err(fault.copy(alloc)?)),
    }
}

fn items_copy<T: Copy + Drop>(alloc: Global, items: &Items<T>) -> Result<Items<T>, AllocError>
    ensures { IfOk result (λ copy. copy ≡ items.now) }
{
    Ok(Items::from_vec(Vec::from_slice(alloc, items.as_slice())?))
}
