//! The replies to what was done.
ghost use Rattle.std.specs.Prelude.{◌≡◌, IfOk, false, map};
ghost use Rattle.http.specs.StatusCode.{IsStatusCode};
ghost use Rattle.serde_json.specs.Data.{array};
ghost use Rattle.serde_json.specs.View.{items_of, items_view, view};
ghost use Rattle.serde_json.specs.Written.{has_float};
ghost use Rattle.interchange_io.specs.Writing.{file_text};
ghost use Rattle.custody_format.specs.Statuses.{statuses_data};
ghost use Rattle.keymanager_bodies.specs.Bodies as bodies;

use custody_format::{reason_word, statuses_value};
use edge_kit::{Items, PubKey};
use interchange_io::write_text;
use json_members::Object;
use key_custody::{Deletion, DeskRefusal, ImportEnd, KeyStatus};
use keymanager_routes::Reply;
use serde_json::Value;
use slash_defs::File;
use std::alloc::{AllocError, Global};

/// The reply of success with this body.
fn ok_reply(alloc: Global, value: &Value) -> Result<Reply, AllocError>
    requires { has_float (view value.now) ≡ false }
    ensures { IfOk result (λ r. r ≡ bodies.ok_reply (view value.now)) }
{
    let text = value.to_string(alloc)?;
    Ok(Reply {
        status: 200,
        body: Items::from_vec(text.into_bytes()),
    })
}

/// The reply that lists these keys.
pub fn listed_reply(alloc: Global, keys: &[PubKey]) -> Result<Reply, AllocError>
    ensures { IfOk result (λ r. r ≡ bodies.listed_reply keys.now) }
{
    let value = listed_value(alloc, keys)?;
    ok_reply(alloc, &value)
}

fn listed_value(alloc: Global, keys: &[PubKey]) -> Result<Value, AllocError>
    ensures { IfOk result (λ v. view v ≡ bodies.with_data (array (items_of (map bodies.listed_key keys.now)))) }
{
    let keys = Value::Array(listed_keys(alloc, keys)?);
    let object = Object::new(alloc).with_value(alloc, "data", keys)?;
    Ok(object.value())
}

fn listed_keys(alloc: Global, keys: &[PubKey]) -> Result<Vec<Value>, AllocError>
    ensures { IfOk result (λ values. items_view values.items ≡ items_of (map bodies.listed_key keys.now)) }
{
    let mut values = Vec::with_capacity(alloc, keys.len())?;
    'keys: for key in keys {
        values.push(listed_key(alloc, key)?)?;
    }
    Ok(values)
}

fn listed_key(alloc: Global, key: &PubKey) -> Result<Value, AllocError>
    ensures { IfOk result (λ v. view v ≡ bodies.listed_key key.now) }
{
    let object = Object::new(alloc)
        .with_text(alloc, "derivation_path", "")?
        .with_value(alloc, "readonly", Value::Bool(false))?
        .with_hex(alloc, "validating_pubkey", &key.0)?;
    Ok(object.value())
}

/// The reply to an import.
pub fn import_reply(alloc: Global, ending: &ImportEnd) -> Result<Reply, AllocError>
    ensures { IfOk result (λ r. r ≡ bodies.import_reply ending.now) }
{
    match ending {
        ImportEnd::Treated(statuses) => treated_reply(alloc, statuses.as_slice()),
        ImportEnd::MergeRefused(refusal) => merge_refused_reply(alloc, refusal),
    }
}

fn treated_reply(alloc: Global, statuses: &[KeyStatus]) -> Result<Reply, AllocError>
    ensures { IfOk result (λ r. r ≡ bodies.ok_reply (bodies.with_data (statuses_data statuses.now))) }
{
    let value = treated_value(alloc, statuses)?;
    ok_reply(alloc, &value)
}

fn treated_value(alloc: Global, statuses: &[KeyStatus]) -> Result<Value, AllocError>
    ensures { IfOk result (λ v. view v ≡ bodies.with_data (statuses_data statuses.now)) }
{
    let statuses = statuses_value(alloc, statuses)?;
    let object = Object::new(alloc).with_value(alloc, "data", statuses)?;
    Ok(object.value())
}

fn merge_refused_reply(alloc: Global, refusal: &DeskRefusal) -> Result<Reply, AllocError>
    ensures { IfOk result (λ r. r ≡ bodies.merge_refused_reply refusal.now) }
{
    let word = reason_word(refusal);
    match refusal {
        DeskRefusal::GenesisDiffers { kept: _, given: _ } => {
            Reply::of_word(alloc, 400, "protection refused: ", word)
        }
        _ => Reply::of_message(alloc, 500, word),
    }
}

/// The reply to a deletion.
pub fn deletion_reply(alloc: Global, deletion: &Deletion) -> Result<Reply, AllocError>
    ensures { IfOk result (λ r. r ≡ bodies.deletion_reply deletion.now) }
{
    let value = deletion_value(alloc, deletion.statuses.as_slice(), &deletion.file)?;
    ok_reply(alloc, &value)
}

fn deletion_value(alloc: Global, statuses: &[KeyStatus], file: &File) -> Result<Value, AllocError>
    ensures { IfOk result (λ v. view v ≡ bodies.deletion_data statuses.now (file_text file.now)) }
{
    let statuses = statuses_value(alloc, statuses)?;
    let object = Object::new(alloc).with_value(alloc, "data", statuses)?;
    let file = Value::String(write_text(alloc, file)?);
    let object = object.with_value(alloc, "slashing_protection", file)?;
    Ok(object.value())
}
