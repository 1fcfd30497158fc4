//! Reading one member of an object. Each is none where the value is no object, or the member is absent or has
//! another form.
ghost use Rattle.std.specs.Prelude.{◌≡◌, IfOk, option_map};
ghost use Rattle.serde_json.specs.View.{items_view, view};
ghost use Rattle.json_members.specs.Reading as reading;

use edge_kit::{read_hex, read_quoted};
use serde_json::Value;
use std::alloc::{AllocError, Global};

/// The JSON that bytes are, as `serde_json` reads them, if they are any (RFC 8259, in UTF-8). Of two members with
/// one name the last counts. The error is want of memory.
pub fn json_of(alloc: Global, bytes: &[u8]) -> Result<Option<Value>, AllocError>
    ensures { IfOk result (λ found. option_map view found ≡ reading.json_of bytes.now) }
{
    match Value::from_slice(alloc, bytes) {
        Ok(value) => Ok(Some(value)),
        Err(error) => {
            if error.is_memory() {
                Err(AllocError)
            } else {
                Ok(None)
            }
        }
    }
}

/// A text.
pub fn text_in<'a>(value: &'a Value, name: &str) -> Option<&'a str>
    ensures { option_map (λ text. text.now) result ≡ reading.text_in name.now (view value.now) }
{
    value.get(name).and_then(Value::as_str)
}

/// A number as a text of 1 to 20 decimal digits, of at most 64 bits.
pub fn number_in(value: &Value, name: &str) -> Option<u64>
    ensures { result ≡ reading.number_in name.now (view value.now) }
{
    read_quoted(text_in(value, name)?)
}

/// `N` bytes as `0x` hex.
pub fn bytes_in<const N: usize>(value: &Value, name: &str) -> Option<[u8; N]>
    ensures { result ≡ reading.bytes_in N name.now (view value.now) }
{
    read_hex::<N>(text_in(value, name)?)
}

/// True or false.
pub fn flag_in(value: &Value, name: &str) -> Option<bool>
    ensures { result ≡ reading.flag_in name.now (view value.now) }
{
    value.get(name).and_then(Value::as_bool)
}

/// The elements of an array.
pub fn items_in<'a>(value: &'a Value, name: &str) -> Option<&'a [Value]>
    ensures { option_map (λ items. items_view items.now) result ≡ reading.items_in name.now (view value.now) }
{
    Some(value.get(name)?.as_array()?.as_slice())
}
