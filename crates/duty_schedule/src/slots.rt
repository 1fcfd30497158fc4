//! Slots by the clock.
ghost use Rattle.std.specs.Prelude.{◌≡◌, ◌-◌, ◌/◌, ◌<◌, ◌≤◌};

use thiserror::Error;

/// How many seconds a slot has (consensus-specs, `SECONDS_PER_SLOT`).
const SECONDS_PER_SLOT: u64 = 12;

/// How many slots an epoch has (consensus-specs, `SLOTS_PER_EPOCH`).
const SLOTS_PER_EPOCH: u64 = 32;

/// The moment is before the chain began. Both are seconds since 1970.
#[derive(Clone, Copy, PartialEq, Eq, Debug, Error)]
#[error("{moment} is before genesis at {genesis_time}")]
pub struct BeforeGenesis {
    pub genesis_time: u64,
    pub moment: u64,
}

/// The slot that a moment is in: how many times 12 seconds have passed since genesis. Both are seconds since
/// 1970. The error comes exactly where the moment is before genesis. Takes no memory.
pub fn slot_at(genesis_time: u64, moment: u64) -> Result<u64, BeforeGenesis>
    ensures slot { genesis_time ≤ moment → result ≡ Ok ((moment - genesis_time) / 12) }
    ensures before { moment < genesis_time → result ≡ Err (record { genesis_time = genesis_time; moment = moment }) }
{
    if moment < genesis_time {
        return Err(BeforeGenesis {
            genesis_time,
            moment,
        });
    }
    Ok((moment - genesis_time) / SECONDS_PER_SLOT)
}

/// The epoch that a slot is in (consensus-specs, `compute_epoch_at_slot`).
pub(crate) fn epoch_of(slot: u64) -> u64
    ensures { result ≡ slot / 32 }
{
    slot / SLOTS_PER_EPOCH
}
