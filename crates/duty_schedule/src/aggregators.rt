//! Which members of a committee aggregate its votes.
ghost use Rattle.std.specs.Prelude.{◌≡◌, take};
ghost use Rattle.std.specs.Int.{w64, from_le_bytes};
ghost use Rattle.duty_schedule.specs.Aggregators.{is_aggregator};

use edge_kit::Sig;
use sha2::{Digest, Sha256};

/// How many members of a committee aggregate its votes, as far as chance has it (consensus-specs,
/// `TARGET_AGGREGATORS_PER_COMMITTEE`).
const TARGET_AGGREGATORS_PER_COMMITTEE: u64 = 16;

/// Whether a validator with this selection proof, which is its signature of the slot, aggregates the votes of its committee,
/// which has that many members (consensus-specs, `is_aggregator`): the first 8 bytes of the proof's SHA-256, little-endian,
/// are a multiple of a sixteenth of the members, rounded down, but of 1 at least. Takes no memory.
pub fn is_aggregator(selection_proof: &Sig, committee_length: u64) -> bool
    ensures { result ≡ is_aggregator selection_proof.now committee_length }
{
    let modulo = (committee_length / TARGET_AGGREGATORS_PER_COMMITTEE).max(1);
    front_number(&Sha256::digest(&selection_proof.0)) % modulo == 0
}

/// The number that the first 8 bytes are, little-endian.
fn front_number(hash: &[u8; 32]) -> u64
    ensures { result ≡ from_le_bytes w64 (take 8 hash.now) }
{
    let mut front = [0u8; 8];
    front.copy_from_slice(&hash[..8]);
    u64::from_le_bytes(front)
}
