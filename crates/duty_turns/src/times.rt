//! Slots and moments. Moments are seconds since 1970; one that would be above 18446744073709551615 counts as that,
//! and so does a slot.
ghost use Rattle.std.specs.Prelude.{◌≡◌, ◌≤◌};
ghost use Rattle.desk_machine.specs.Machine.{moment_limit};
ghost use Rattle.duty_turns.specs.Times.{again_start, aggregates_start, epoch_of, is_first_slot, is_missed, next_slot, slot_of, slot_start, votes_start};

/// How many seconds a slot has (consensus-specs, `SECONDS_PER_SLOT`).
const SECONDS_PER_SLOT: u64 = 12;

/// How many seconds into its slot a vote is cast: a third of it (consensus-specs, "Attesting").
const SECONDS_TO_VOTE: u64 = 4;

/// How many seconds into its slot what was granted and not sent is tried once more.
const SECONDS_TO_TRY_AGAIN: u64 = 7;

/// How many seconds into its slot aggregates of its votes are asked for: two thirds of it (consensus-specs, "Broadcast
/// aggregate").
const SECONDS_TO_AGGREGATE: u64 = 8;

/// How many slots an epoch has (consensus-specs, `SLOTS_PER_EPOCH`).
const SLOTS_PER_EPOCH: u64 = 32;

/// The slot that a moment is in, 0 before genesis. Takes no memory.
pub fn slot_of(genesis_time: u64, moment: u64) -> u64
    ensures { result ≡ slot_of genesis_time moment }
{
    moment.saturating_sub(genesis_time) / SECONDS_PER_SLOT
}

/// When a slot begins. Takes no memory.
pub fn slot_start(genesis_time: u64, slot: u64) -> u64
    ensures { result ≡ slot_start genesis_time slot }
{
    genesis_time.saturating_add(slot.saturating_mul(SECONDS_PER_SLOT))
}

/// When the votes of a slot are cast. Takes no memory.
pub fn votes_start(genesis_time: u64, slot: u64) -> u64
    ensures { result ≡ votes_start genesis_time slot }
{
    slot_start(genesis_time, slot).saturating_add(SECONDS_TO_VOTE)
}

/// When what was granted in a slot and not sent is tried once more: after its votes, and before two thirds of it. Takes no
/// memory.
pub fn again_start(genesis_time: u64, slot: u64) -> u64
    ensures { result ≡ again_start genesis_time slot }
{
    slot_start(genesis_time, slot).saturating_add(SECONDS_TO_TRY_AGAIN)
}

/// When aggregates of a slot's votes are asked for. Takes no memory.
pub fn aggregates_start(genesis_time: u64, slot: u64) -> u64
    ensures { result ≡ aggregates_start genesis_time slot }
{
    slot_start(genesis_time, slot).saturating_add(SECONDS_TO_AGGREGATE)
}

/// The slot after a slot. Takes no memory.
pub fn next_slot(slot: u64) -> u64
    ensures { result ≡ next_slot slot }
{
    slot.saturating_add(1)
}

/// The epoch that a slot is in, which the desk takes as a moment (consensus-specs, `compute_epoch_at_slot`). Takes no
/// memory.
pub fn epoch_of(slot: u64) -> u64
    ensures epoch { result ≡ epoch_of slot }
    ensures moment { result ≤ moment_limit }
{
    slot / SLOTS_PER_EPOCH
}

/// Whether a slot is the first of its epoch. Takes no memory.
pub fn is_first_slot(slot: u64) -> bool
    ensures { result ≡ is_first_slot slot }
{
    slot % SLOTS_PER_EPOCH == 0
}

/// Whether a wait for a moment of a slot was over at another than it was for: in a later slot, or before the moment, since
/// the clock was set back. Takes no memory.
pub fn is_missed(genesis_time: u64, slot: u64, moment: u64, reached: u64) -> bool
    ensures { result ≡ is_missed genesis_time slot moment reached }
{
    slot < slot_of(genesis_time, reached) || reached < moment
}
