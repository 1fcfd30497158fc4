//! What beacon nodes answer, in words.
use crate::reading::{Stop, with_bytes};
use node_calls::{Answer, NodeFault};
use std::alloc::{AllocError, Global};

/// An answer.
pub fn answer_words(alloc: Global, answer: &Answer) -> Result<String, AllocError> {
    match answer {
        Answer::Genesis {
            genesis_time,
            genesis_validators_root,
        } => format!(in alloc; "genesis {genesis_time} {genesis_validators_root:?}"),
        Answer::Fork(fork) => format!(in alloc; "{fork:?}"),
        Answer::Syncing { is_syncing } => format!(in alloc; "syncing {is_syncing}"),
        Answer::Validators(rows) => format!(in alloc; "{:?}", rows.as_slice()),
        Answer::Proposer {
            dependent_root,
            rows,
        } => format!(in alloc; "{dependent_root:?} {:?}", rows.as_slice()),
        Answer::Attester {
            dependent_root,
            rows,
        } => format!(in alloc; "{dependent_root:?} {:?}", rows.as_slice()),
        Answer::Data(details) => format!(in alloc; "{details:?}"),
        Answer::Block(block) => format!(in alloc; "{block:?}"),
        Answer::Aggregate(aggregate) => format!(in alloc; "{aggregate:?}"),
        Answer::Liveness(rows) => format!(in alloc; "{:?}", rows.as_slice()),
    }
}

/// Why a node gave nothing.
pub fn fault_words(alloc: Global, fault: &NodeFault) -> Result<String, Stop> {
    match fault {
        NodeFault::Fault => Ok(String::from_str(alloc, "fault")?),
        NodeFault::Status(status) => Ok(format!(in alloc; "status {status}")?),
        NodeFault::Unreadable(body) => with_bytes(alloc, "unreadable", body.as_slice()),
        NodeFault::OutOfMemory => Err(Stop::OutOfMemory),
    }
}
