//! The active keys.
ghost use Rattle.std.specs.Prelude.{◌≡◌, Some};
ghost use Rattle.std.specs.BTreeMap.{is_at};
ghost use Rattle.std.specs.Result.{result_ok};
ghost use Rattle.record_join.specs.Keys.{key_cmp};
ghost use Rattle.desk_machine.specs.States.{is_active, state_in};
ghost use Rattle.call_plans.specs.Paths.{Carries};
ghost use Rattle.client_calls.specs.Steps.{Fits};
ghost use Rattle.client_calls.specs.Seats.{SignerSeen, Does, at_seat};
ghost use Rattle.key_custody.specs.Replies.{active_keys, is_active_in, is_active_at};
ghost use Rattle.key_custody.specs.Plans.{list_plan};

use crate::ask::{Replied, ask};
use desk_machine::{DeskCall, DeskCalls, KeyStanding};
use edge_kit::{Items, PubKey};
use std::alloc::{AllocError, Global};

/// The active keys in the desk's order, which is key order.
///
/// # Errors
///
/// `AllocError` where memory was wanted. Nothing was changed.
pub fn list_keys<K: DeskCalls>(alloc: Global, desk: &mut K) -> Result<Items<PubKey>, AllocError>
    requires ready { K.ready desk.old }
    ensures ready { K.ready desk.new }
    ensures runs { (s : SignerSeen) → Carries Fits (Does K.leads) list_plan (at_seat desk.old s) (at_seat desk.new s) (result_ok result) }
{
    match ask(desk, DeskCall::Keys) {
        Replied::Listed(listed) => active_of(alloc, listed.as_slice()),
        _ => Err(AllocError),
    }
}

/// The active ones of the listed keys.
fn active_of(alloc: Global, listed: &[(PubKey, KeyStanding)]) -> Result<Items<PubKey>, AllocError>
    ensures { (active : _) → result_ok result ≡ Some active → active ≡ active_keys listed.now }
{
    let mut active = Vec::with_capacity(alloc, listed.len())?;
    'listed: for (key, standing) in listed {
        if is_active(standing) {
            active.push(*key)?;
        }
    }
    Ok(Items::from_vec(active))
}

/// Whether the key is among the listed ones and active.
pub(crate) fn is_active_in(listed: &[(PubKey, KeyStanding)], key: &PubKey) -> bool
    ensures { result ≡ is_active_in listed.now key.now }
{
    listed.iter().any(|listed| is_active_at(listed, key))
}

/// Whether the listed key is this one and active.
fn is_active_at(listed: &(PubKey, KeyStanding), key: &PubKey) -> bool
    ensures { result ≡ is_active_at key.now listed.now }
{
    is_active(&listed.1) && is_key(listed, key)
}

/// Whether the listed key is this one.
fn is_key(listed: &(PubKey, KeyStanding), key: &PubKey) -> bool
    ensures { result ≡ is_at (key_cmp key.now) listed.now.0 }
{
    *key == listed.0
}

/// Whether a key that stands so is active.
fn is_active(standing: &KeyStanding) -> bool
    ensures { result ≡ is_active (state_in standing.now) }
{
    match standing {
        KeyStanding::Active(_) => true,
        KeyStanding::Known | KeyStanding::Closing | KeyStanding::Closed => false,
    }
}
