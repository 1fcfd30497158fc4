//! Members that are objects, and members that are roots.
ghost use Rattle.std.specs.Prelude.{◌≡◌, option_map};
ghost use Rattle.serde_json.specs.View.{view};
ghost use Rattle.signing_requests.specs.Requests.{key_at, named_root, object_in, root_at, root_in};
ghost use Rattle.signing_requests.specs.Steps.{ReadsAs};

use crate::member::SigningMember;
use crate::refusal::SigningRefusal;
use edge_kit::{PubKey, Root, read_hex};
use serde_json::Value;

/// The key that a target names.
pub(crate) fn key_of(identifier: &str) -> Result<PubKey, SigningRefusal>
    ensures { result ≡ key_at identifier.now }
{
    read_hex::<48>(identifier)
        .map(PubKey)
        .ok_or(SigningRefusal::BadMember(SigningMember::Identifier))
}

/// A value that is there, and is an object.
pub(crate) fn object_of(
    member: SigningMember,
    value: Option<&Value>,
) -> Result<&Value, SigningRefusal>
    ensures { ReadsAs (λ v. view v.now) result (object_in member (option_map (λ v. view v.now) value.entry)) }
{
    match value {
        Some(value) if value.is_object() => Ok(value),
        _ => Err(SigningRefusal::BadMember(member)),
    }
}

/// The root that a body names, if it names one.
pub(crate) fn named_root_of(value: &Value) -> Result<Option<Root>, SigningRefusal>
    ensures { result ≡ root_at (view value.now) }
{
    match (value.get("signingRoot"), value.get("signing_root")) {
        (Some(root), _) => root_in(SigningMember::SigningRoot, root),
        (None, Some(root)) => root_in(SigningMember::SigningRootInSnakeCase, root),
        (None, None) => Ok(None),
    }
}

/// The root that a text is.
fn root_in(member: SigningMember, value: &Value) -> Result<Option<Root>, SigningRefusal>
    ensures { result ≡ root_in member (view value.now) }
{
    match value.as_str().and_then(|text| read_hex::<32>(text)) {
        Some(bytes) => Ok(Some(Root(bytes))),
        None => Err(SigningRefusal::BadMember(member)),
    }
}
