//! What is handed to a beacon node.
ghost use Rattle.std.specs.Prelude.{◌≡◌, ◌<◌, ◌≤◌, IfOk};
ghost use Rattle.node_calls.specs.Aggregation.{aggregation_bits};

use altair_blocks::AnyBlock;
use duty_types::AggregateAndProof;
use phase0_blocks::{Attestation, Signed};
use phase0_types::BoundedList;
use std::alloc::{AllocError, Global};

/// Something signed that a node is to spread (Beacon API).
#[derive(Drop)]
pub enum Post {
    /// A vote (`submitPoolAttestations`).
    Vote(Attestation),
    /// A block of any version (`publishBlock`).
    Block(Signed<AnyBlock>),
    /// An aggregate with the proof that its aggregator was chosen (`publishAggregateAndProofs`).
    Aggregate(Signed<AggregateAndProof>),
}

/// The aggregation bits of a vote by one member of a committee: one bit a member, set at this place alone
/// (consensus-specs, "Construct attestation"). A committee has 1 to 2048 members, and the place is below that.
/// The error is want of memory.
pub fn aggregation_bits(
    alloc: Global,
    place: u64,
    length: u64,
) -> Result<BoundedList<bool, 2048>, AllocError>
    requires place { place < length }
    requires length { length ≤ 2048 }
    ensures bits { IfOk result (λ bits. bits ≡ aggregation_bits place length) }
{
    let mut bits = vec![in alloc; false; length as usize]?;
    bits[place as usize] = true;
    match BoundedList::try_new(bits) {
        Ok(bits) => Ok(bits),
        Err(_) => Err(AllocError),
    }
}
