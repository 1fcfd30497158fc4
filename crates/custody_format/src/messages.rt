//! The message of a key: why it failed.
ghost use Rattle.std.specs.Prelude.{◌≡◌, IfOk, string_bytes};
ghost use Rattle.custody_format.specs.Messages as messages;

use crate::words::reason_word;
use key_custody::{KeyStatus, Reason};
use std::alloc::{AllocError, Global};

/// How many characters are shown of a text of the service that signs.
const SHOWN_CHARACTERS: usize = 200;

/// Why the key failed; empty where it did not.
pub(crate) fn message_text(alloc: Global, status: &KeyStatus) -> Result<String, AllocError>
    ensures { IfOk result (λ text. string_bytes text ≡ messages.message_text status.now) }
{
    match status {
        KeyStatus::Error(reason) => reason_text(alloc, reason),
        KeyStatus::Imported
        | KeyStatus::Duplicate
        | KeyStatus::Deleted
        | KeyStatus::NotActive
        | KeyStatus::NotFound => String::from_str(alloc, ""),
    }
}

/// The text of a reason.
fn reason_text(alloc: Global, reason: &Reason) -> Result<String, AllocError>
    ensures { IfOk result (λ text. string_bytes text ≡ messages.reason_text reason.now) }
{
    match reason {
        Reason::BadKeystore => String::from_str(alloc, "bad keystore"),
        Reason::SignerFault => String::from_str(alloc, "signer: fault"),
        Reason::SignerBadAnswer(_) => String::from_str(alloc, "signer: bad answer"),
        Reason::SignerRefused(text) => signer_text(alloc, text.as_slice()),
        Reason::Desk(refusal) => String::from_str(alloc, reason_word(refusal)),
    }
}

/// The text of the service, cut where it is long.
fn signer_text(alloc: Global, bytes: &[u8]) -> Result<String, AllocError>
    ensures { IfOk result (λ text. string_bytes text ≡ messages.signer_text bytes.now) }
{
    let mut text = String::from_str(alloc, "signer: ")?;
    let shown = first_characters(alloc, text_front(bytes))?;
    text.push_str(shown.as_str())?;
    Ok(text)
}

/// The characters at the front that are shown.
fn first_characters(alloc: Global, text: &str) -> Result<String, AllocError>
    ensures { IfOk result (λ shown. string_bytes shown ≡ messages.first_characters 200 text.now) }
{
    let mut shown = String::new(alloc);
    'characters: for character in text.chars().take(SHOWN_CHARACTERS) {
        shown.push(character)?;
    }
    Ok(shown)
}

/// The longest front of the bytes that is UTF-8.
fn text_front(bytes: &[u8]) -> &str
    ensures { result.now ≡ messages.text_front bytes.now }
{
    match bytes.utf8_chunks().next() {
        Some(chunk) => chunk.valid(),
        None => "",
    }
}
