//! What became of keys, as JSON.
ghost use Rattle.std.specs.Prelude.{◌≡◌, map, IfOk};
ghost use Rattle.serde_json.specs.View.{items_of, items_view, view};
ghost use Rattle.custody_format.specs.Statuses.{status_data, statuses_data};

use crate::messages::message_text;
use crate::words::status_word;
use json_members::Object;
use key_custody::KeyStatus;
use serde_json::Value;
use std::alloc::{AllocError, Global};

/// What became of keys, in their order, as the Keymanager API has it: an array with `{"message": M, "status": S}`
/// for each key. M is empty, but for an error the reason; of a text of the service that signs it has the first 200
/// characters (Unicode scalar values) of the longest front that is UTF-8.
///
/// # Errors
///
/// `AllocError` where memory was wanted.
pub fn statuses_value(alloc: Global, statuses: &[KeyStatus]) -> Result<Value, AllocError>
    ensures { IfOk result (λ v. view v ≡ statuses_data statuses.now) }
{
    Ok(Value::Array(status_values(alloc, statuses)?))
}

fn status_values(alloc: Global, statuses: &[KeyStatus]) -> Result<Vec<Value>, AllocError>
    ensures { IfOk result (λ values. items_view values.items ≡ items_of (map status_data statuses.now)) }
{
    let mut values = Vec::with_capacity(alloc, statuses.len())?;
    'statuses: for status in statuses {
        values.push(status_value(alloc, status)?)?;
    }
    Ok(values)
}

/// What became of one key.
fn status_value(alloc: Global, status: &KeyStatus) -> Result<Value, AllocError>
    ensures { IfOk result (λ v. view v ≡ status_data status.now) }
{
    let message = Value::String(message_text(alloc, status)?);
    let object = Object::new(alloc)
        .with_value(alloc, "message", message)?
        .with_text(alloc, "status", status_word(status))?;
    Ok(object.value())
}
