//! The public key of a keystore.
ghost use Rattle.std.specs.Prelude.{◌≡◌, IfOk};
ghost use Rattle.serde_json.specs.View.{view};
ghost use Rattle.key_custody.specs.Keystores.{key_of_keystore, key_in, key_in_text};

use edge_kit::PubKey;
use hex::FromHex;
use json_members::{json_of, text_in};
use serde_json::Value;
use std::alloc::{AllocError, Global};

/// The public key of a keystore (EIP-2335): its member `pubkey`, 96 hex digits, with or without `0x` before
/// them. None where the text is no JSON object with such a member. Nothing else of a keystore is read.
///
/// # Errors
///
/// `AllocError` where memory was wanted.
pub fn key_of_keystore(alloc: Global, keystore: &str) -> Result<Option<PubKey>, AllocError>
    ensures { IfOk result (λ key. key ≡ key_of_keystore keystore.now) }
{
    let found = json_of(alloc, keystore.as_bytes())?;
    match found {
        Some(value) => Ok(key_in(&value)),
        None => Ok(None),
    }
}

/// The public key in the value of a keystore.
fn key_in(value: &Value) -> Option<PubKey>
    ensures { result ≡ key_in (view value.now) }
{
    key_in_text(text_in(value, "pubkey")?)
}

/// The public key that 96 hex digits write, with or without `0x` before them.
fn key_in_text(text: &str) -> Option<PubKey>
    ensures { result ≡ key_in_text text.now }
{
    let bytes = text.as_bytes();
    let digits = if bytes.starts_with(b"0x") {
        &bytes[2..]
    } else {
        bytes
    };
    <[u8; 48] as FromHex>::from_hex(digits).ok().map(PubKey)
}
