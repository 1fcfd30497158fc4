//! The members of a request's body.
ghost use Rattle.std.specs.Prelude.{◌≡◌, MatchResult, map, option_map, string_bytes, Ok, Err, Some};
ghost use Rattle.serde_json.specs.View.{view};
ghost use Rattle.keymanager_routes.specs.Stops.{Gives, GivesAs};
ghost use Rattle.keymanager_bodies.specs.Members as members;
ghost use Rattle.keymanager_bodies.specs.Asking.{read_or_refused};

use custody_format::{keys_of, texts_in};
use edge_kit::{Items, PubKey};
use json_members::json_of;
use keymanager_routes::{Member, Refusal, Stop};
use serde_json::Value;
use std::alloc::Global;

/// The JSON object that a body is.
pub(crate) fn object_of(alloc: Global, body: &[u8]) -> Result<Value, Stop>
    ensures { GivesAs (λ v. view v) result (read_or_refused (members.object_of body.now)) }
{
    match json_of(alloc, body)? {
        Some(value) => object_in(value),
        None => Err(Stop::Refused(Refusal::BadMember(Member::Body))),
    }
}

/// The value, where it is an object.
fn object_in(value: Value) -> Result<Value, Stop>
    ensures { GivesAs (λ v. view v) result (read_or_refused (members.object_in (Some (view value)))) }
{
    if value.is_object() {
        Ok(value)
    } else {
        Err(Stop::Refused(Refusal::BadMember(Member::Body)))
    }
}

/// The texts of a list.
pub(crate) fn texts_of(alloc: Global, value: &Value, member: Member) -> Result<Vec<String>, Stop>
    ensures { GivesAs (λ v. map (λ s. string_bytes s) v.items) result (read_or_refused (members.texts_in member (view value.now))) }
{
    match texts_in(alloc, value, member.name())? {
        Some(texts) => Ok(texts),
        None => Err(Stop::Refused(Refusal::BadMember(member))),
    }
}

/// The keys of a list.
pub(crate) fn pub_keys_of(
    alloc: Global,
    value: &Value,
    member: Member,
) -> Result<Items<PubKey>, Stop>
    ensures { Gives result (read_or_refused (members.keys_in member (view value.now))) }
{
    let Some(list) = value.get(member.name()) else {
        return Err(Stop::Refused(Refusal::BadMember(member)));
    };
    match keys_of(alloc, list)? {
        Some(keys) => Ok(keys),
        None => Err(Stop::Refused(Refusal::BadMember(member))),
    }
}

/// The text of a member that may be absent, or null.
pub(crate) fn optional_text_of(value: &Value, member: Member) -> Result<Option<&str>, Member>
    ensures { MatchResult result (λ text. members.optional_text_in member (view value.now) ≡ Ok (option_map (λ t. t.now) text))
        (λ m. members.optional_text_in member (view value.now) ≡ Err m) }
{
    match value.get(member.name()) {
        Some(value) => text_or_null(value, member),
        None => Ok(None),
    }
}

/// The text, or null.
fn text_or_null(value: &Value, member: Member) -> Result<Option<&str>, Member>
    ensures { MatchResult result (λ text. members.text_or_null member (Some (view value.now)) ≡ Ok (option_map (λ t. t.now) text))
        (λ m. members.text_or_null member (Some (view value.now)) ≡ Err m) }
{
    match value {
        Value::Null => Ok(None),
        Value::String(text) => Ok(Some(text.as_str())),
        _ => Err(member),
    }
}
