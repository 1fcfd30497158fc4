//! Taking keys in.
ghost use Rattle.std.specs.Prelude.{◌≡◌, ◌≤◌, length, string_bytes, IfSome};
ghost use Rattle.std.specs.Result.{result_ok};
ghost use Rattle.record_join.specs.BooksPasts.{EachOnce};
ghost use Rattle.desk_machine.specs.Machine.{moment_limit};
ghost use Rattle.call_plans.specs.Paths.{Carries};
ghost use Rattle.client_calls.specs.Steps.{Fits};
ghost use Rattle.client_calls.specs.Seats.{SignerSeen, Does, Ran, at_seat, signer_seen};
ghost use Rattle.key_custody.specs.Plans.{import_plan, file_plan, treated_plan, keystores_plan, keystore_plan, key_plan, listed_plan, taken_plan, activate_plan, paired};

use crate::ask::{Replied, ask};
use crate::keystore::key_of_keystore;
use crate::list::is_active_in;
use crate::status::{DeskRefusal, KeyStatus, KeyStatuses, Reason};
use desk_machine::{DeskCall, DeskCalls, KeyStanding};
use edge_kit::{Items, PubKey};
use signer_link::{ImportReply, Signer};
use slash_defs::File;
use std::alloc::{AllocError, Global};

/// How an import ended.
#[derive(Drop)]
pub enum ImportEnd {
    /// The file is merged, if there was one, and each keystore was treated.
    Treated(KeyStatuses),
    /// The desk refused to merge the file. Nothing else was done.
    MergeRefused(DeskRefusal),
}

/// Takes keys in at an epoch. The interchange file (EIP-3076), if there is one, is merged first, whole. Then each
/// keystore (EIP-2335) in order: where its key is active, that is all; else the service that signs takes it in
/// with its password, and the desk makes it active. A key that fails stays as far as it came, and the next
/// one is treated.
///
/// # Errors
///
/// `AllocError` where memory was wanted. The first few calls are done, each whole.
pub fn import_keys<K: DeskCalls, S: Signer>(
    alloc: Global,
    file: Option<File>,
    keystores: &[String],
    passwords: &[String],
    now: u64,
    desk: &mut K,
    signer: &mut S,
) -> Result<ImportEnd, AllocError>
    requires ready { K.ready desk.old }
    requires once { IfSome file (λ f. EachOnce f.books) }
    requires lengths { length passwords.now ≡ length keystores.now }
    requires moment { now ≤ moment_limit }
    ensures ready { K.ready desk.new }
    ensures runs { Ran K.leads (import_plan file now (paired (λ s. string_bytes s) keystores.now passwords.now))
        (at_seat desk.old (signer_seen S.told S.faults S.denials signer.old))
        (at_seat desk.new (signer_seen S.told S.faults S.denials signer.new)) (result_ok result) }
{
    match file {
        Some(file) => merge_first(alloc, file, keystores, passwords, now, desk, signer),
        None => treat(alloc, keystores, passwords, now, desk, signer),
    }
}

/// Merges the file, and then takes the keys of the keystores in.
fn merge_first<K: DeskCalls, S: Signer>(
    alloc: Global,
    file: File,
    keystores: &[String],
    passwords: &[String],
    now: u64,
    desk: &mut K,
    signer: &mut S,
) -> Result<ImportEnd, AllocError>
    requires ready { K.ready desk.old }
    requires once { EachOnce file.books }
    requires lengths { length passwords.now ≡ length keystores.now }
    requires moment { now ≤ moment_limit }
    ensures ready { K.ready desk.new }
    ensures runs { Carries Fits (Does K.leads) (file_plan file now (paired (λ s. string_bytes s) keystores.now passwords.now))
        (at_seat desk.old (signer_seen S.told S.faults S.denials signer.old))
        (at_seat desk.new (signer_seen S.told S.faults S.denials signer.new)) (result_ok result) }
{
    match ask(desk, DeskCall::Merge { file }) {
        Replied::Merged => treat(alloc, keystores, passwords, now, desk, signer),
        Replied::Refused(refusal) => Ok(ImportEnd::MergeRefused(refusal)),
        _ => Err(AllocError),
    }
}

/// Takes the keys of keystores in, once the file is merged.
fn treat<K: DeskCalls, S: Signer>(
    alloc: Global,
    keystores: &[String],
    passwords: &[String],
    now: u64,
    desk: &mut K,
    signer: &mut S,
) -> Result<ImportEnd, AllocError>
    requires ready { K.ready desk.old }
    requires lengths { length passwords.now ≡ length keystores.now }
    requires moment { now ≤ moment_limit }
    ensures ready { K.ready desk.new }
    ensures runs { Carries Fits (Does K.leads) (treated_plan now (paired (λ s. string_bytes s) keystores.now passwords.now))
        (at_seat desk.old (signer_seen S.told S.faults S.denials signer.old))
        (at_seat desk.new (signer_seen S.told S.faults S.denials signer.new)) (result_ok result) }
{
    match import_each(alloc, keystores, passwords, now, desk, signer) {
        Ok(statuses) => Ok(ImportEnd::Treated(statuses)),
        Err(AllocError) => Err(AllocError),
    }
}

/// Takes the keys of keystores in, one after another.
fn import_each<K: DeskCalls, S: Signer>(
    alloc: Global,
    keystores: &[String],
    passwords: &[String],
    now: u64,
    desk: &mut K,
    signer: &mut S,
) -> Result<KeyStatuses, AllocError>
    requires ready { K.ready desk.old }
    requires lengths { length passwords.now ≡ length keystores.now }
    requires moment { now ≤ moment_limit }
    ensures ready { K.ready desk.new }
    ensures runs { Carries Fits (Does K.leads) (keystores_plan now (paired (λ s. string_bytes s) keystores.now passwords.now))
        (at_seat desk.old (signer_seen S.told S.faults S.denials signer.old))
        (at_seat desk.new (signer_seen S.told S.faults S.denials signer.new)) (result_ok result) }
{
    let Ok(mut statuses) = Vec::with_capacity(alloc, keystores.len()) else {
        return Err(AllocError);
    };
    'keystores: for (i, keystore) in keystores.iter().enumerate() {
        let password = passwords[i].as_str();
        let Ok(status) = import_one(alloc, keystore.as_str(), password, now, desk, signer) else {
            return Err(AllocError);
        };
        let Ok(()) = statuses.push(status) else {
            return Err(AllocError);
        };
    }
    Ok(Items::from_vec(statuses))
}

/// Takes the key of a keystore in.
fn import_one<K: DeskCalls, S: Signer>(
    alloc: Global,
    keystore: &str,
    password: &str,
    now: u64,
    desk: &mut K,
    signer: &mut S,
) -> Result<KeyStatus, AllocError>
    requires ready { K.ready desk.old }
    requires moment { now ≤ moment_limit }
    ensures ready { K.ready desk.new }
    ensures runs { Carries Fits (Does K.leads) (keystore_plan now (keystore.now, password.now))
        (at_seat desk.old (signer_seen S.told S.faults S.denials signer.old))
        (at_seat desk.new (signer_seen S.told S.faults S.denials signer.new)) (result_ok result) }
{
    match key_of_keystore(alloc, keystore) {
        Ok(Some(key)) => import_key(&key, keystore, password, now, desk, signer),
        Ok(None) => Ok(KeyStatus::Error(Reason::BadKeystore)),
        Err(AllocError) => Err(AllocError),
    }
}

/// Takes a key in, unless it is active.
fn import_key<K: DeskCalls, S: Signer>(
    key: &PubKey,
    keystore: &str,
    password: &str,
    now: u64,
    desk: &mut K,
    signer: &mut S,
) -> Result<KeyStatus, AllocError>
    requires ready { K.ready desk.old }
    requires moment { now ≤ moment_limit }
    ensures ready { K.ready desk.new }
    ensures runs { Carries Fits (Does K.leads) (key_plan now keystore.now password.now key.now)
        (at_seat desk.old (signer_seen S.told S.faults S.denials signer.old))
        (at_seat desk.new (signer_seen S.told S.faults S.denials signer.new)) (result_ok result) }
{
    match ask(desk, DeskCall::Keys) {
        Replied::Listed(listed) => {
            import_listed(
                listed.as_slice(),
                key,
                keystore,
                password,
                now,
                desk,
                signer,
            )
        }
        _ => Err(AllocError),
    }
}

/// Takes a key in, unless it is active among the listed ones.
fn import_listed<K: DeskCalls, S: Signer>(
    listed: &[(PubKey, KeyStanding)],
    key: &PubKey,
    keystore: &str,
    password: &str,
    now: u64,
    desk: &mut K,
    signer: &mut S,
) -> Result<KeyStatus, AllocError>
    requires ready { K.ready desk.old }
    requires moment { now ≤ moment_limit }
    ensures ready { K.ready desk.new }
    ensures runs { Carries Fits (Does K.leads) (listed_plan now keystore.now password.now key.now listed.now)
        (at_seat desk.old (signer_seen S.told S.faults S.denials signer.old))
        (at_seat desk.new (signer_seen S.told S.faults S.denials signer.new)) (result_ok result) }
{
    if is_active_in(listed, key) {
        return Ok(KeyStatus::Duplicate);
    }
    let reply = signer.import(key, keystore, password);
    activate_taken(reply, key, now, desk)
}

/// Makes a key active that the service took in.
fn activate_taken<K: DeskCalls>(
    reply: ImportReply,
    key: &PubKey,
    now: u64,
    desk: &mut K,
) -> Result<KeyStatus, AllocError>
    requires ready { K.ready desk.old }
    requires moment { now ≤ moment_limit }
    ensures ready { K.ready desk.new }
    ensures runs { (s : SignerSeen) → Carries Fits (Does K.leads) (taken_plan now key.now reply) (at_seat desk.old s) (at_seat desk.new s) (result_ok result) }
{
    match reply {
        ImportReply::Imported | ImportReply::Duplicate => activate(key, now, desk),
        ImportReply::Refused(text) => Ok(KeyStatus::Error(Reason::SignerRefused(text))),
        ImportReply::Fault => Ok(KeyStatus::Error(Reason::SignerFault)),
        ImportReply::BadAnswer(body) => Ok(KeyStatus::Error(Reason::SignerBadAnswer(body))),
        ImportReply::OutOfMemory => Err(AllocError),
    }
}

/// Makes a key active.
fn activate<K: DeskCalls>(key: &PubKey, now: u64, desk: &mut K) -> Result<KeyStatus, AllocError>
    requires ready { K.ready desk.old }
    requires moment { now ≤ moment_limit }
    ensures ready { K.ready desk.new }
    ensures runs { (s : SignerSeen) → Carries Fits (Does K.leads) (activate_plan now key.now) (at_seat desk.old s) (at_seat desk.new s) (result_ok result) }
{
    match ask(desk, DeskCall::Activate { key: *key, now }) {
        Replied::Active => Ok(KeyStatus::Imported),
        Replied::Already => Ok(KeyStatus::Duplicate),
        Replied::Refused(refusal) => Ok(KeyStatus::Error(Reason::Desk(refusal))),
        _ => Err(AllocError),
    }
}
