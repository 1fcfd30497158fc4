//! Lists of texts and of keys in JSON.
ghost use Rattle.std.specs.Prelude.{◌≡◌, map, string_bytes, IfOk, option_map};
ghost use Rattle.serde_json.specs.Find.{as_str};
ghost use Rattle.serde_json.specs.View.{items_view, view};
ghost use Rattle.custody_format.specs.Lists as lists;

use edge_kit::{Items, PubKey, read_hex};
use json_members::items_in;
use serde_json::Value;
use std::alloc::{AllocError, Global};

/// The texts of an array member, in order. None where the value is no object, or the member is absent, no array or
/// one with an element that is no text.
///
/// # Errors
///
/// `AllocError` where memory was wanted.
pub fn texts_in(alloc: Global, value: &Value, name: &str) -> Result<Option<Vec<String>>, AllocError>
    ensures { IfOk result (λ found. option_map (λ v. map (λ s. string_bytes s) v.items) found ≡ lists.texts_in name.now (view value.now)) }
{
    match items_in(value, name) {
        Some(elements) => each_text(alloc, elements),
        None => Ok(None),
    }
}

fn each_text(alloc: Global, elements: &[Value]) -> Result<Option<Vec<String>>, AllocError>
    ensures { IfOk result (λ found. option_map (λ v. map (λ s. string_bytes s) v.items) found ≡ lists.each as_str (items_view elements.now)) }
{
    let mut texts = Vec::with_capacity(alloc, elements.len())?;
    'elements: for element in elements {
        let Some(text) = element.as_str() else {
            return Ok(None);
        };
        let text = String::from_str(alloc, text)?;
        texts.push(text)?;
    }
    Ok(Some(texts))
}

/// The keys that an array has as `0x` hex of 48 bytes, in order. None where the value is no array, or one with an
/// element that is no such text.
///
/// # Errors
///
/// `AllocError` where memory was wanted.
pub fn keys_of(alloc: Global, value: &Value) -> Result<Option<Items<PubKey>>, AllocError>
    ensures { IfOk result (λ found. found ≡ lists.keys_of (view value.now)) }
{
    match value.as_array() {
        Some(elements) => each_key(alloc, elements.as_slice()),
        None => Ok(None),
    }
}

fn each_key(alloc: Global, elements: &[Value]) -> Result<Option<Items<PubKey>>, AllocError>
    ensures { IfOk result (λ found. found ≡ lists.each lists.key_of (items_view elements.now)) }
{
    let mut keys = Vec::with_capacity(alloc, elements.len())?;
    'elements: for element in elements {
        let Some(key) = key_of(element) else {
            return Ok(None);
        };
        keys.push(key)?;
    }
    Ok(Some(Items::from_vec(keys)))
}

fn key_of(element: &Value) -> Option<PubKey>
    ensures { result ≡ lists.key_of (view element.now) }
{
    element
        .as_str()
        .and_then(|text| read_hex::<48>(text))
        .map(PubKey)
}
