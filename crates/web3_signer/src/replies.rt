//! What a response of Web3Signer means.
ghost use Rattle.std.specs.Prelude.{◌≡◌, ◌⊎◌, IfOk, option_map};
ghost use Rattle.serde_json.specs.Find.{get};
ghost use Rattle.serde_json.specs.View.{view};
ghost use Rattle.web3_signer.specs.Readings as reading;

use crate::blanks::trimmed;
use edge_kit::{Items, Sig};
use hex::FromHex;
use http_wire::{Response, WireFault};
use serde_json::Value;
use signer_link::{DeleteReply, ImportReply, SignReply};
use std::alloc::{AllocError, Global};

/// The status of the one key of a keystores call, and the message next to it.
#[derive(Drop)]
struct KeyStatus {
    status: String,
    message: Items<u8>,
}

/// What a response, or its lack, says to a call for a signature.
pub(crate) fn sign_reply(alloc: Global, response: Result<Response, WireFault>) -> SignReply
    ensures { (result ≡ reading.sign_reading response) ⊎ (result ≡ SignReply.OutOfMemory) }
{
    match response {
        Ok(response) => sign_answer(alloc, response.status, response.body),
        Err(WireFault::Link) => SignReply::Fault,
        Err(WireFault::OutOfMemory) => SignReply::OutOfMemory,
        Err(_) => SignReply::BadAnswer(Items::new(alloc)),
    }
}

fn sign_answer(alloc: Global, status: u16, body: Vec<u8>) -> SignReply
    ensures { (result ≡ reading.sign_answer status body.items) ⊎ (result ≡ SignReply.OutOfMemory) }
{
    if status == 404 {
        return SignReply::NoKey(Some(404));
    }
    if status != 200 {
        return SignReply::Denied(status);
    }
    match signature_of(alloc, body.as_slice()) {
        Ok(Some(signature)) => SignReply::Signed(signature),
        Ok(None) => SignReply::BadAnswer(Items::from_vec(body)),
        Err(_) => SignReply::OutOfMemory,
    }
}

/// The signature that a body is, or that its object has.
fn signature_of(alloc: Global, body: &[u8]) -> Result<Option<Sig>, AllocError>
    ensures { IfOk result (λ found. found ≡ reading.signature_of body.now) }
{
    if let Some(signature) = signature_in(body) {
        return Ok(Some(signature));
    }
    match data_of(alloc, body)? {
        Some(value) => Ok(member_signature(&value)),
        None => Ok(None),
    }
}

fn member_signature(value: &Value) -> Option<Sig>
    ensures { result ≡ reading.member_signature (view value.now) }
{
    signature_in(text_at(value, "signature")?.as_bytes())
}

/// The signature that a text is.
fn signature_in(text: &[u8]) -> Option<Sig>
    ensures { result ≡ reading.signature_in text.now }
{
    let text = trimmed(text);
    if !text.starts_with(b"0x") {
        return None;
    }
    <[u8; 96] as FromHex>::from_hex(&text[2..]).ok().map(Sig)
}

/// The text of a member.
fn text_at<'a>(value: &'a Value, name: &str) -> Option<&'a str>
    ensures { option_map (λ text. text.now) result ≡ reading.text_at name.now (view value.now) }
{
    value.get(name).and_then(Value::as_str)
}

/// The JSON that bytes are, if they are any. The error is want of memory.
fn data_of(alloc: Global, bytes: &[u8]) -> Result<Option<Value>, AllocError>
    ensures { IfOk result (λ found. option_map view found ≡ reading.data_of bytes.now) }
{
    match Value::from_slice(alloc, bytes) {
        Ok(value) => Ok(Some(value)),
        Err(error) => {
            if error.is_memory() {
                Err(AllocError)
            } else {
                Ok(None)
            }
        }
    }
}

/// What a response, or its lack, says to a call to take a key in.
pub(crate) fn import_reply(alloc: Global, response: Result<Response, WireFault>) -> ImportReply
    ensures { (result ≡ reading.import_reading response) ⊎ (result ≡ ImportReply.OutOfMemory) }
{
    match response {
        Ok(response) => import_answer(alloc, response.status, response.body),
        Err(WireFault::Link) => ImportReply::Fault,
        Err(WireFault::OutOfMemory) => ImportReply::OutOfMemory,
        Err(_) => ImportReply::BadAnswer(Items::new(alloc)),
    }
}

fn import_answer(alloc: Global, status: u16, body: Vec<u8>) -> ImportReply
    ensures { (result ≡ reading.import_answer status body.items) ⊎ (result ≡ ImportReply.OutOfMemory) }
{
    if status != 200 {
        return match status_text(alloc, status) {
            Ok(text) => ImportReply::Refused(text),
            Err(_) => ImportReply::OutOfMemory,
        };
    }
    match status_of(alloc, body.as_slice()) {
        Ok(found) => import_status(body, found),
        Err(_) => ImportReply::OutOfMemory,
    }
}

fn import_status(body: Vec<u8>, found: Option<KeyStatus>) -> ImportReply
    ensures { result ≡ reading.import_status body.items (option_map reading.status_pair found) }
{
    let Some(key) = found else {
        return ImportReply::BadAnswer(Items::from_vec(body));
    };
    match key.status.as_str() {
        "imported" => ImportReply::Imported,
        "duplicate" => ImportReply::Duplicate,
        "error" => ImportReply::Refused(key.message),
        _ => ImportReply::BadAnswer(Items::from_vec(body)),
    }
}

/// What a response, or its lack, says to a call to give a key up.
pub(crate) fn delete_reply(alloc: Global, response: Result<Response, WireFault>) -> DeleteReply
    ensures { (result ≡ reading.delete_reading response) ⊎ (result ≡ DeleteReply.OutOfMemory) }
{
    match response {
        Ok(response) => delete_answer(alloc, response.status, response.body),
        Err(WireFault::Link) => DeleteReply::Fault,
        Err(WireFault::OutOfMemory) => DeleteReply::OutOfMemory,
        Err(_) => DeleteReply::BadAnswer(Items::new(alloc)),
    }
}

fn delete_answer(alloc: Global, status: u16, body: Vec<u8>) -> DeleteReply
    ensures { (result ≡ reading.delete_answer status body.items) ⊎ (result ≡ DeleteReply.OutOfMemory) }
{
    if status != 200 {
        return match status_text(alloc, status) {
            Ok(text) => DeleteReply::Refused(text),
            Err(_) => DeleteReply::OutOfMemory,
        };
    }
    match status_of(alloc, body.as_slice()) {
        Ok(found) => delete_status(body, found),
        Err(_) => DeleteReply::OutOfMemory,
    }
}

fn delete_status(body: Vec<u8>, found: Option<KeyStatus>) -> DeleteReply
    ensures { result ≡ reading.delete_status body.items (option_map reading.status_pair found) }
{
    let Some(key) = found else {
        return DeleteReply::BadAnswer(Items::from_vec(body));
    };
    match key.status.as_str() {
        "deleted" => DeleteReply::Deleted,
        "not_active" => DeleteReply::NotActive,
        "not_found" => DeleteReply::NotFound,
        "error" => DeleteReply::Refused(key.message),
        _ => DeleteReply::BadAnswer(Items::from_vec(body)),
    }
}

/// What is told of a status other than 200.
fn status_text(alloc: Global, status: u16) -> Result<Items<u8>, AllocError>
    ensures { IfOk result (λ text. text ≡ reading.status_text status) }
{
    let text = format!(in alloc; "status {status}")?;
    Ok(Items::from_vec(text.into_bytes()))
}

/// The status of the one key that a body lists.
fn status_of(alloc: Global, body: &[u8]) -> Result<Option<KeyStatus>, AllocError>
    ensures { IfOk result (λ found. option_map reading.status_pair found ≡ reading.status_of body.now) }
{
    match data_of(alloc, body)? {
        Some(value) => listed_status(alloc, &value),
        None => Ok(None),
    }
}

fn listed_status(alloc: Global, value: &Value) -> Result<Option<KeyStatus>, AllocError>
    ensures { IfOk result (λ found. option_map reading.status_pair found ≡ reading.listed_status (view value.now)) }
{
    let Some(item) = only_item(value) else {
        return Ok(None);
    };
    key_status(alloc, item)
}

/// The one item of the list `data`.
fn only_item(value: &Value) -> Option<&Value>
    ensures { option_map (λ item. view item.now) result ≡ reading.only_of (view value.now) }
{
    let list = value.get("data")?.as_array()?;
    if list.len() != 1 {
        return None;
    }
    Some(&list[0])
}

fn key_status(alloc: Global, value: &Value) -> Result<Option<KeyStatus>, AllocError>
    ensures { IfOk result (λ found. option_map reading.status_pair found ≡ reading.key_status (view value.now)) }
{
    let Some(status) = text_at(value, "status") else {
        return Ok(None);
    };
    let message = text_at(value, "message").unwrap_or("");
    Ok(Some(KeyStatus {
        status: String::from_str(alloc, status)?,
        message: Items::from_vec(Vec::from_slice(alloc, message.as_bytes())?),
    }))
}
