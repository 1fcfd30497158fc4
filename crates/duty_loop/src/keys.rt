//! What is listed of the desk's keys: which are active, and which epochs they miss of their watch.
ghost use Rattle.std.specs.Prelude.{◌≡◌, ◌<◌, ◌≤◌, ℕ, IfOk, true, false};
ghost use Rattle.std.specs.List.{list_any};
ghost use Rattle.desk_machine.specs.States.{is_active, state_in};
ghost use Rattle.duty_turns.specs.Turns.{active_of, missed, misses, missing_keys};
ghost use Rattle.duty_loop.specs.Missing.{some_misses};

use desk_machine::KeyStanding;
use doppel_watch::WatchState;
use edge_kit::{Items, PubKey};
use std::alloc::{AllocError, Global};

/// The active keys of a listing, in order. The error is want of memory.
pub(crate) fn active_of(
    alloc: Global,
    listed: &[(PubKey, KeyStanding)],
) -> Result<Items<PubKey>, AllocError>
    ensures { IfOk result (λ active. active ≡ active_of listed.now) }
{
    let mut active = Vec::with_capacity(alloc, listed.len())?;
    'listed: for (key, standing) in listed {
        if is_active(standing) {
            active.push(*key)?;
        }
    }
    Ok(Items::from_vec(active))
}

fn is_active(standing: &KeyStanding) -> bool
    ensures { result ≡ is_active (state_in standing.now) }
{
    match standing {
        KeyStanding::Active(_) => true,
        KeyStanding::Known | KeyStanding::Closing | KeyStanding::Closed => false,
    }
}

/// The keys of a listing that miss an epoch of their watch, in order. The error is want of memory.
pub(crate) fn missing_keys(
    alloc: Global,
    epoch: u64,
    listed: &[(PubKey, KeyStanding)],
) -> Result<Items<PubKey>, AllocError>
    ensures { IfOk result (λ keys. keys ≡ missing_keys epoch listed.now) }
{
    let mut keys = Vec::new(alloc);
    'listed: for row in listed {
        if misses(row, epoch) {
            keys.push(row.0)?;
        }
    }
    Ok(Items::from_vec(keys))
}

/// Whether a key misses an epoch of its watch.
fn misses(row: &(PubKey, KeyStanding), epoch: u64) -> bool
    ensures { result ≡ misses epoch row.now }
{
    match row.1 {
        KeyStanding::Active(
            WatchState::Missing {
                first,
                second: None,
            },
        ) => first == epoch,
        KeyStanding::Active(
            WatchState::Missing {
                first,
                second: Some(second),
            },
        ) => first == epoch || second == epoch,
        _ => false,
    }
}

/// The first epoch from one on, and before another, that some key misses; the other where there is none.
pub(crate) fn next_missed(listed: &[(PubKey, KeyStanding)], from: u64, until: u64) -> u64
    requires { from ≤ until }
    ensures begun { from ≤ result }
    ensures within { result ≤ until }
    ensures none_before { (epoch : ℕ) → from ≤ epoch → epoch < result → some_misses epoch listed.now ≡ false }
    ensures missed { result < until → some_misses result listed.now ≡ true }
{
    let mut next = until;
    'keys: for row in listed {
        next = sooner(row, from, next);
    }
    next
}

/// The same of one key.
fn sooner(row: &(PubKey, KeyStanding), from: u64, until: u64) -> u64
    requires { from ≤ until }
    ensures begun { from ≤ result }
    ensures within { result ≤ until }
    ensures none_before { (epoch : ℕ) → from ≤ epoch → epoch < result → misses epoch row.now ≡ false }
    ensures missed { result < until → misses result row.now ≡ true }
{
    match row.1 {
        KeyStanding::Active(
            WatchState::Missing {
                first,
                second: None,
            },
        ) => nearer(first, from, until),
        KeyStanding::Active(
            WatchState::Missing {
                first,
                second: Some(second),
            },
        ) => nearer(second, from, nearer(first, from, until)),
        _ => until,
    }
}

/// An epoch, if it is from one on and before another; else the other.
fn nearer(epoch: u64, from: u64, until: u64) -> u64
    requires { from ≤ until }
    ensures begun { from ≤ result }
    ensures within { result ≤ until }
    ensures none_before { from ≤ epoch → result ≤ epoch }
    ensures missed { result < until → result ≡ epoch }
{
    if from <= epoch && epoch < until {
        epoch
    } else {
        until
    }
}
