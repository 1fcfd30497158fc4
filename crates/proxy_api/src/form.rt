//! How a signature is replied.
ghost use Rattle.std.specs.Prelude.{◌≡◌};
ghost use Rattle.std.specs.List.{list_any};
ghost use Rattle.http_wire.specs.Parts.{parts, parts_of};
ghost use Rattle.proxy_api.specs.Forms.{accepts_json, form_of, names_json};

use http_wire::Field;
use memchr::memmem;

/// How a signature is replied.
#[derive(Clone, Copy, PartialEq, Eq, Debug)]
pub enum Form {
    /// As the object `{"signature":"0x.."}`.
    Json,
    /// As a text: `0x` and its hex digits alone.
    Text,
}

/// As a Web3Signer does: the object where a field `Accept` names `application/json`, in lower case, and else the text.
pub(crate) fn form_of(fields: &[Field]) -> Form
    ensures { result ≡ form_of (parts_of fields.now) }
{
    if is_json_accepted(fields) {
        Form::Json
    } else {
        Form::Text
    }
}

/// Whether a field accepts JSON.
fn is_json_accepted(fields: &[Field]) -> bool
    ensures { result ≡ list_any (λ f. accepts_json (parts f)) fields.now }
{
    fields.iter().any(|field| accepts_json(field))
}

/// Whether this field does.
fn accepts_json(field: &Field) -> bool
    ensures { result ≡ accepts_json (parts field.now) }
{
    field.name.eq_ignore_ascii_case(b"accept") && names_json(field.value.as_slice())
}

/// Whether a value names JSON.
fn names_json(value: &[u8]) -> bool
    ensures { result ≡ names_json value.now }
{
    memmem::find(value, b"application/json").is_some()
}
