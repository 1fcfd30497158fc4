//! Giving keys up.
ghost use Rattle.std.specs.Prelude.{◌≡◌, length, IfOk};
ghost use Rattle.std.specs.Result.{result_ok};
ghost use Rattle.call_plans.specs.Paths.{Carries};
ghost use Rattle.client_calls.specs.Steps.{Fits};
ghost use Rattle.client_calls.specs.Seats.{SignerSeen, Does, Ran, at_seat, signer_seen};
ghost use Rattle.key_custody.specs.Statuses.{handed_keys};
ghost use Rattle.key_custody.specs.Plans.{delete_plan, given_up_plan, close_plan, deletion_plan, statuses_plan, export_plan};

use crate::ask::{Replied, ask, close};
use crate::status::{DeskRefusal, KeyStatus, KeyStatuses, Reason};
use desk_machine::{DeskCall, DeskCalls};
use edge_kit::{Items, PubKey};
use signer_link::{DeleteReply, Signer};
use slash_defs::File;
use std::alloc::{AllocError, Global};

/// What a deletion hands out.
#[derive(Drop)]
pub struct Deletion {
    /// What became of the keys, in their order.
    pub statuses: KeyStatuses,
    /// The interchange file (EIP-3076) of those that are deleted or were not active.
    pub file: File,
}

/// Gives keys up, one after another. A key of which no past is kept is not found; one that is neither active nor
/// being closed is not active. For each other the desk begins to close it, the service that signs gives it up,
/// and the desk closes it. A key that fails on the way goes on being closed: a later deletion ends it. Once all
/// keys were treated, those that are deleted or were not active are exported.
///
/// # Errors
///
/// `AllocError` where memory was wanted. The first few calls are done, each whole.
pub fn delete_keys<K: DeskCalls, S: Signer>(
    alloc: Global,
    keys: &[PubKey],
    desk: &mut K,
    signer: &mut S,
) -> Result<Deletion, AllocError>
    requires ready { K.ready desk.old }
    ensures ready { K.ready desk.new }
    ensures runs { Ran K.leads (deletion_plan keys.now)
        (at_seat desk.old (signer_seen S.told S.faults S.denials signer.old))
        (at_seat desk.new (signer_seen S.told S.faults S.denials signer.new)) (result_ok result) }
{
    let Ok(statuses) = delete_each(alloc, keys, desk, signer) else {
        return Err(AllocError);
    };
    hand_out(alloc, keys, statuses, desk)
}

/// Gives keys up, one after another.
fn delete_each<K: DeskCalls, S: Signer>(
    alloc: Global,
    keys: &[PubKey],
    desk: &mut K,
    signer: &mut S,
) -> Result<KeyStatuses, AllocError>
    requires ready { K.ready desk.old }
    ensures ready { K.ready desk.new }
    ensures lengths { IfOk result (λ statuses. length statuses ≡ length keys.now) }
    ensures runs { Carries Fits (Does K.leads) (statuses_plan keys.now)
        (at_seat desk.old (signer_seen S.told S.faults S.denials signer.old))
        (at_seat desk.new (signer_seen S.told S.faults S.denials signer.new)) (result_ok result) }
{
    let Ok(mut statuses) = Vec::with_capacity(alloc, keys.len()) else {
        return Err(AllocError);
    };
    'keys: for key in keys {
        let Ok(status) = delete_key(key, desk, signer) else {
            return Err(AllocError);
        };
        let Ok(()) = statuses.push(status) else {
            return Err(AllocError);
        };
    }
    Ok(Items::from_vec(statuses))
}

/// Gives a key up.
fn delete_key<K: DeskCalls, S: Signer>(
    key: &PubKey,
    desk: &mut K,
    signer: &mut S,
) -> Result<KeyStatus, AllocError>
    requires ready { K.ready desk.old }
    ensures ready { K.ready desk.new }
    ensures runs { Carries Fits (Does K.leads) (delete_plan key.now)
        (at_seat desk.old (signer_seen S.told S.faults S.denials signer.old))
        (at_seat desk.new (signer_seen S.told S.faults S.denials signer.new)) (result_ok result) }
{
    match ask(desk, DeskCall::BeginClose { key: *key }) {
        Replied::Closing => {
            let reply = signer.delete(key);
            close_given_up(reply, key, desk)
        }
        Replied::Unknown => Ok(KeyStatus::NotFound),
        Replied::NotActive => Ok(KeyStatus::NotActive),
        _ => Err(AllocError),
    }
}

/// Closes a key that the service gave up.
fn close_given_up<K: DeskCalls>(
    reply: DeleteReply,
    key: &PubKey,
    desk: &mut K,
) -> Result<KeyStatus, AllocError>
    requires ready { K.ready desk.old }
    ensures ready { K.ready desk.new }
    ensures runs { (s : SignerSeen) → Carries Fits (Does K.leads) (given_up_plan key.now reply) (at_seat desk.old s) (at_seat desk.new s) (result_ok result) }
{
    match reply {
        DeleteReply::Deleted | DeleteReply::NotActive | DeleteReply::NotFound => {
            close_key(key, desk)
        }
        DeleteReply::Refused(text) => Ok(KeyStatus::Error(Reason::SignerRefused(text))),
        DeleteReply::Fault => Ok(KeyStatus::Error(Reason::SignerFault)),
        DeleteReply::BadAnswer(body) => Ok(KeyStatus::Error(Reason::SignerBadAnswer(body))),
        DeleteReply::OutOfMemory => Err(AllocError),
    }
}

/// Closes a key.
fn close_key<K: DeskCalls>(key: &PubKey, desk: &mut K) -> Result<KeyStatus, AllocError>
    requires ready { K.ready desk.old }
    ensures ready { K.ready desk.new }
    ensures runs { (s : SignerSeen) → Carries Fits (Does K.leads) (close_plan key.now) (at_seat desk.old s) (at_seat desk.new s) (result_ok result) }
{
    match close(desk, key) {
        Replied::Closed => Ok(KeyStatus::Deleted),
        Replied::Refused(refusal) => Ok(KeyStatus::Error(Reason::Desk(refusal))),
        Replied::Unknown => Ok(KeyStatus::Error(Reason::Desk(DeskRefusal::Unknown))),
        _ => Err(AllocError),
    }
}

/// Hands out what is kept of those keys that are deleted or were not active.
fn hand_out<K: DeskCalls>(
    alloc: Global,
    keys: &[PubKey],
    statuses: KeyStatuses,
    desk: &mut K,
) -> Result<Deletion, AllocError>
    requires ready { K.ready desk.old }
    requires lengths { length statuses ≡ length keys.now }
    ensures ready { K.ready desk.new }
    ensures runs { (s : SignerSeen) → Carries Fits (Does K.leads) (export_plan keys.now statuses) (at_seat desk.old s) (at_seat desk.new s) (result_ok result) }
{
    let Ok(handed) = handed_keys(alloc, keys, statuses.as_slice()) else {
        return Err(AllocError);
    };
    match ask(desk, DeskCall::Export { keys: handed }) {
        Replied::Exported(file) => Ok(Deletion { statuses, file }),
        _ => Err(AllocError),
    }
}

/// The keys that are handed out, in their order.
fn handed_keys(
    alloc: Global,
    keys: &[PubKey],
    statuses: &[KeyStatus],
) -> Result<Items<PubKey>, AllocError>
    requires { length statuses.now ≡ length keys.now }
    ensures { IfOk result (λ handed. handed ≡ handed_keys keys.now statuses.now) }
{
    let mut handed = Vec::with_capacity(alloc, keys.len())?;
    'keys: for (i, key) in keys.iter().enumerate() {
        if statuses[i].is_handed() {
            handed.push(*key)?;
        }
    }
    Ok(Items::from_vec(handed))
}
