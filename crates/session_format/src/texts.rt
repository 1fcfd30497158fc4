//! Members that are texts, as keys, numbers and roots, and members that are true or false.
ghost use Rattle.std.specs.Prelude.{◌≡◌, option_map};
ghost use Rattle.serde_json.specs.View.{view};
ghost use Rattle.session_format.specs.Requests.{key_at, number_at, root_at, text_at, truth_at};

use crate::member::Member;
use edge_kit::{PubKey, Root, read_hex, read_quoted};
use serde_json::Value;

/// The text of a member, if it is one.
pub(crate) fn text_of<'a>(value: &'a Value, name: &str) -> Option<&'a str>
    ensures { option_map (λ text. text.now) result ≡ text_at name.now (view value.now) }
{
    value.get(name).and_then(Value::as_str)
}

/// The key that a line names.
pub(crate) fn key_of(value: &Value) -> Result<PubKey, Member>
    ensures { result ≡ key_at (view value.now) }
{
    text_of(value, "pubkey")
        .and_then(|text| read_hex::<48>(text))
        .map(PubKey)
        .ok_or(Member::Pubkey)
}

/// The number in quotes that a member is.
pub(crate) fn number_of(value: &Value, name: &str, member: Member) -> Result<u64, Member>
    ensures { result ≡ number_at name.now member (view value.now) }
{
    text_of(value, name)
        .and_then(|text| read_quoted(text))
        .ok_or(member)
}

/// Whether a member is true or false.
pub(crate) fn truth_of(value: &Value, name: &str, member: Member) -> Result<bool, Member>
    ensures { result ≡ truth_at name.now member (view value.now) }
{
    value.get(name).and_then(Value::as_bool).ok_or(member)
}

/// The signing root that a line names.
pub(crate) fn root_of(value: &Value) -> Result<Root, Member>
    ensures { result ≡ root_at (view value.now) }
{
    text_of(value, "signing_root")
        .and_then(|text| read_hex::<32>(text))
        .map(Root)
        .ok_or(Member::SigningRoot)
}
