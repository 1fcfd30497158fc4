//! The answers to what was asked of keys as a whole, as JSON. Each error is want of memory.
ghost use Rattle.std.specs.Prelude.{◌≡◌, map, IfOk, string_bytes};
ghost use Rattle.edge_kit.specs.Texts.{hex_text};
ghost use Rattle.serde_json.specs.View.{items_of, items_view, view};
ghost use Rattle.custody_format.specs.Answers.{busy_data, deleted_data, imported_data, key_data, listed_data, not_closing_data};

use crate::statuses::statuses_value;
use crate::words::state_word;
use edge_kit::{PubKey, hex_text};
use interchange_io::write_text;
use json_members::Object;
use key_custody::KeyStatus;
use record_replay::KeyState;
use serde_json::Value;
use slash_defs::File;
use std::alloc::{AllocError, Global};

/// What became of the keys that were to be taken in.
pub fn imported_value(alloc: Global, statuses: &[KeyStatus]) -> Result<Value, AllocError>
    ensures { IfOk result (λ v. view v ≡ imported_data statuses.now) }
{
    let statuses = statuses_value(alloc, statuses)?;
    let object = Object::new(alloc)
        .with_value(alloc, "data", statuses)?
        .with_text(alloc, "answer", "imported")?;
    Ok(object.value())
}

/// What became of the keys that were to be given up, and what is handed out of them.
pub fn deleted_value(
    alloc: Global,
    statuses: &[KeyStatus],
    file: &File,
) -> Result<Value, AllocError>
    ensures { IfOk result (λ v. view v ≡ deleted_data statuses.now file.now) }
{
    let file = Value::String(write_text(alloc, file)?);
    let object = Object::new(alloc).with_value(alloc, "slashing_protection", file)?;
    let statuses = statuses_value(alloc, statuses)?;
    let object = object
        .with_value(alloc, "data", statuses)?
        .with_text(alloc, "answer", "deleted")?;
    Ok(object.value())
}

/// The active keys.
pub fn listed_value(alloc: Global, keys: &[PubKey]) -> Result<Value, AllocError>
    ensures { IfOk result (λ v. view v ≡ listed_data keys.now) }
{
    let keys = Value::Array(key_values(alloc, keys)?);
    let object = Object::new(alloc)
        .with_value(alloc, "data", keys)?
        .with_text(alloc, "answer", "keys")?;
    Ok(object.value())
}

fn key_values(alloc: Global, keys: &[PubKey]) -> Result<Vec<Value>, AllocError>
    ensures { IfOk result (λ values. items_view values.items ≡ items_of (map key_data keys.now)) }
{
    let mut values = Vec::with_capacity(alloc, keys.len())?;
    'keys: for key in keys {
        values.push(Value::String(hex_text(alloc, &key.0)?))?;
    }
    Ok(values)
}

/// The state of a key that is not being closed.
pub fn not_closing_value(alloc: Global, state: KeyState) -> Result<Value, AllocError>
    ensures { IfOk result (λ v. view v ≡ not_closing_data state) }
{
    let object = Object::new(alloc)
        .with_text(alloc, "answer", "refused")?
        .with_text(alloc, "reason", "not_closing")?
        .with_text(alloc, "state", state_word(state))?;
    Ok(object.value())
}

/// How many grants of a key are open.
pub fn busy_value(alloc: Global, grants: u64) -> Result<Value, AllocError>
    ensures { IfOk result (λ v. view v ≡ busy_data grants) }
{
    let object = Object::new(alloc)
        .with_text(alloc, "answer", "refused")?
        .with_number(alloc, "grants", grants)?
        .with_text(alloc, "reason", "busy")?;
    Ok(object.value())
}
