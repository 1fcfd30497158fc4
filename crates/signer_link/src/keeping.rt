//! What a signer that tells its calls keeps of them, one that tells none keeping nothing: a list of calls with their
//! answers, and `None`. Before the service is asked a signer makes room (`make_room`) and copies what it will keep
//! (`sign_call`, `plain_call`); after its answer it keeps both (`tell_sign` and the like). Its twin begins with them (`kept_copy`).
ghost use Rattle.std.specs.Prelude.{◌≡◌, ◌⊎◌, ◌<◌, ◌++◌, ◌∷◌, [], true, vec_len, vec_capacity, IfOk, OnOk};
ghost use Rattle.edge_kit.specs.Tellings.{Tells};
ghost use Rattle.signer_link.specs.Keeping.{HasRoom, IsReady, kept, told_plain_ready, told_ready};
ghost use Rattle.signer_link.specs.Outcomes.{delete_given, import_given, sign_given};
ghost use Rattle.signer_link.specs.Signing.{asked, imported, plainly_asked, told_delete, told_import};

use crate::reply::{DeleteReply, ImportReply, SignReply, Told};
use crate::request::{ImportCall, PlainCall, PlainRequest, SignCall, SignRequest};
use edge_kit::{Items, PubKey};
use slash_defs::Message;
use std::alloc::{AllocError, Global};

/// Makes room for one call, where calls are kept. The error is want of memory.
pub fn make_room(told: &mut Option<Vec<Told>>) -> Result<(), AllocError>
    ensures kept { kept told.new ≡ kept told.old }
    ensures room { OnOk result (HasRoom told.new) }
{
    match told {
        Some(calls) => calls.reserve(1),
        None => Ok(()),
    }
}

/// The calls so far with their answers again, where calls are kept. The error is want of memory.
pub fn kept_copy(alloc: Global, told: &Option<Vec<Told>>) -> Result<Option<Vec<Told>>, AllocError>
    ensures { IfOk result (λ copy. kept copy ≡ kept told.now) }
{
    match told {
        Some(calls) => Ok(Some(calls_copy(alloc, calls.as_slice())?)),
        None => Ok(None),
    }
}

/// The same calls with their answers again. The error is want of memory, and stands for an answer `OutOfMemory` too.
pub(crate) fn calls_copy(alloc: Global, calls: &[Told]) -> Result<Vec<Told>, AllocError>
    ensures { IfOk result (λ copies. copies.items ≡ calls.now) }
{
    let mut copies = Vec::with_capacity(alloc, calls.len())?;
    'calls: for call in calls {
        copies.push(call_copy(alloc, call)?)?;
    }
    Ok(copies)
}

/// One of them.
fn call_copy(alloc: Global, call: &Told) -> Result<Told, AllocError>
    ensures { IfOk result (λ copy. copy ≡ call.now) }
{
    match call {
        Told::Sign(call, answer) => Ok(Told::Sign(call.copy(alloc)?, sign_copy(alloc, answer)?)),
        Told::Plain(call, answer) => Ok(Told::Plain(call.copy(alloc)?, sign_copy(alloc, answer)?)),
        Told::Import(call, answer) => Ok(Told::Import(
            import_call_copy(alloc, call)?,
            import_copy(alloc, answer)?,
        )),
        Told::Delete(key, answer) => Ok(Told::Delete(*key, delete_copy(alloc, answer)?)),
    }
}

/// Keeps a call where there is room.
pub(crate) fn keep(told: &mut Vec<Told>, call: Told)
    requires { vec_len told.old < vec_capacity told.old }
    ensures { told.new.items ≡ told.old.items ++ call ∷ [] }
{
    told.push_reserved(call);
}

/// What is to be kept of a call for the signature of a message, where calls are kept. The error is want of memory.
pub fn sign_call(
    alloc: Global,
    told: &Option<Vec<Told>>,
    key: &PubKey,
    message: &Message,
    request: &SignRequest,
) -> Result<Option<SignCall>, AllocError>
    ensures { IfOk result (λ call. IsReady told.now call (asked key.now message.now request.now)) }
{
    if told.is_none() {
        return Ok(None);
    }
    let request = request.copy(alloc)?;
    Ok(Some(SignCall {
        key: *key,
        message: *message,
        request,
    }))
}

/// Keeps a call for the signature of a message with its answer, where calls are kept, and hands the answer on.
/// Where memory lacks nothing is kept, and the answer is `OutOfMemory`.
pub fn tell_sign(
    alloc: Global,
    told: &mut Option<Vec<Told>>,
    call: Option<SignCall>,
    answer: SignReply,
) -> SignReply
    requires { HasRoom told.old }
    ensures told { Tells (kept told.old) (kept told.new) (told_ready call result) }
    ensures answer { (result ≡ answer) ⊎ (result ≡ SignReply.OutOfMemory) }
{
    let Some(calls) = told else {
        return answer;
    };
    let Some(call) = call else {
        return answer;
    };
    match sign_copy(alloc, &answer) {
        Ok(copy) => {
            keep(calls, Told::Sign(call, copy));
            answer
        }
        Err(AllocError) => SignReply::OutOfMemory,
    }
}

/// What is to be kept of a call for another signature, where calls are kept. The error is want of memory.
pub fn plain_call(
    alloc: Global,
    told: &Option<Vec<Told>>,
    key: &PubKey,
    request: &PlainRequest,
) -> Result<Option<PlainCall>, AllocError>
    ensures { IfOk result (λ call. IsReady told.now call (plainly_asked key.now request.now)) }
{
    if told.is_none() {
        return Ok(None);
    }
    let request = request.copy(alloc)?;
    Ok(Some(PlainCall { key: *key, request }))
}

/// Keeps a call for another signature with its answer, where calls are kept, and hands the answer on.
/// Where memory lacks nothing is kept, and the answer is `OutOfMemory`.
pub fn tell_plain(
    alloc: Global,
    told: &mut Option<Vec<Told>>,
    call: Option<PlainCall>,
    answer: SignReply,
) -> SignReply
    requires { HasRoom told.old }
    ensures told { Tells (kept told.old) (kept told.new) (told_plain_ready call result) }
    ensures answer { (result ≡ answer) ⊎ (result ≡ SignReply.OutOfMemory) }
{
    let Some(calls) = told else {
        return answer;
    };
    let Some(call) = call else {
        return answer;
    };
    match sign_copy(alloc, &answer) {
        Ok(copy) => {
            keep(calls, Told::Plain(call, copy));
            answer
        }
        Err(AllocError) => SignReply::OutOfMemory,
    }
}

/// Keeps a call to take a key in, similarly.
pub fn tell_import(
    alloc: Global,
    told: &mut Option<Vec<Told>>,
    key: &PubKey,
    keystore: &str,
    password: &str,
    answer: ImportReply,
) -> ImportReply
    requires { HasRoom told.old }
    ensures told { Tells (kept told.old) (kept told.new) (told_import (imported key.now keystore.now password.now) result) }
    ensures answer { (result ≡ answer) ⊎ (result ≡ ImportReply.OutOfMemory) }
{
    let Some(calls) = told else {
        return answer;
    };
    let Ok(call) = import_call(alloc, *key, keystore, password) else {
        return ImportReply::OutOfMemory;
    };
    match import_copy(alloc, &answer) {
        Ok(copy) => {
            keep(calls, Told::Import(call, copy));
            answer
        }
        Err(AllocError) => ImportReply::OutOfMemory,
    }
}

/// Keeps a call to give a key up, similarly.
pub fn tell_delete(
    alloc: Global,
    told: &mut Option<Vec<Told>>,
    key: &PubKey,
    answer: DeleteReply,
) -> DeleteReply
    requires { HasRoom told.old }
    ensures told { Tells (kept told.old) (kept told.new) (told_delete key.now result) }
    ensures answer { (result ≡ answer) ⊎ (result ≡ DeleteReply.OutOfMemory) }
{
    let Some(calls) = told else {
        return answer;
    };
    match delete_copy(alloc, &answer) {
        Ok(copy) => {
            keep(calls, Told::Delete(*key, copy));
            answer
        }
        Err(AllocError) => DeleteReply::OutOfMemory,
    }
}

/// What is kept of a call that takes a key in.
pub(crate) fn import_call(
    alloc: Global,
    key: PubKey,
    keystore: &str,
    password: &str,
) -> Result<ImportCall, AllocError>
    ensures { IfOk result (λ call. call ≡ imported key keystore.now password.now) }
{
    Ok(ImportCall {
        key,
        keystore: Items::from_vec(Vec::from_slice(alloc, keystore.as_bytes())?),
        password: Items::from_vec(Vec::from_slice(alloc, password.as_bytes())?),
    })
}

/// The same call to take a key in again.
fn import_call_copy(alloc: Global, call: &ImportCall) -> Result<ImportCall, AllocError>
    ensures { IfOk result (λ copy. copy ≡ call.now) }
{
    Ok(ImportCall {
        key: call.key,
        keystore: copied(alloc, &call.keystore)?,
        password: copied(alloc, &call.password)?,
    })
}

/// The same answer again, where one was given. The error is want of memory.
fn sign_copy(alloc: Global, answer: &SignReply) -> Result<SignReply, AllocError>
    ensures same { IfOk result (λ copy. copy ≡ answer.now) }
    ensures given { OnOk result (sign_given answer.now ≡ true) }
{
    match answer {
        SignReply::Signed(signature) => Ok(SignReply::Signed(*signature)),
        SignReply::NoKey(status) => Ok(SignReply::NoKey(*status)),
        SignReply::Denied(status) => Ok(SignReply::Denied(*status)),
        SignReply::Fault => Ok(SignReply::Fault),
        SignReply::BadAnswer(body) => Ok(SignReply::BadAnswer(copied(alloc, body)?)),
        SignReply::OutOfMemory => Err(AllocError),
    }
}

/// The same answer where a key is to be taken in.
fn import_copy(alloc: Global, answer: &ImportReply) -> Result<ImportReply, AllocError>
    ensures same { IfOk result (λ copy. copy ≡ answer.now) }
    ensures given { OnOk result (import_given answer.now ≡ true) }
{
    match answer {
        ImportReply::Imported => Ok(ImportReply::Imported),
        ImportReply::Duplicate => Ok(ImportReply::Duplicate),
        ImportReply::Refused(text) => Ok(ImportReply::Refused(copied(alloc, text)?)),
        ImportReply::Fault => Ok(ImportReply::Fault),
        ImportReply::BadAnswer(body) => Ok(ImportReply::BadAnswer(copied(alloc, body)?)),
        ImportReply::OutOfMemory => Err(AllocError),
    }
}

/// And where one is to be given up.
fn delete_copy(alloc: Global, answer: &DeleteReply) -> Result<DeleteReply, AllocError>
    ensures same { IfOk result (λ copy. copy ≡ answer.now) }
    ensures given { OnOk result (delete_given answer.now ≡ true) }
{
    match answer {
        DeleteReply::Deleted => Ok(DeleteReply::Deleted),
        DeleteReply::NotActive => Ok(DeleteReply::NotActive),
        DeleteReply::NotFound => Ok(DeleteReply::NotFound),
        DeleteReply::Refused(text) => Ok(DeleteReply::Refused(copied(alloc, text)?)),
        DeleteReply::Fault => Ok(DeleteReply::Fault),
        DeleteReply::BadAnswer(body) => Ok(DeleteReply::BadAnswer(copied(alloc, body)?)),
        DeleteReply::OutOfMemory => Err(AllocError),
    }
}

/// The same bytes again. The error is want of memory.
fn copied(alloc: Global, bytes: &Items<u8>) -> Result<Items<u8>, AllocError>
    ensures { IfOk result (λ copy. copy ≡ bytes.now) }
{
    Ok(Items::from_vec(Vec::from_slice(alloc, bytes.as_slice())?))
}
