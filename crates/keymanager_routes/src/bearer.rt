//! The token that a request bears.
ghost use Rattle.std.specs.Prelude.{◌≡◌, take, drop, find, option_map};
ghost use Rattle.std.specs.Option.{option_copied};
ghost use Rattle.std.specs.Str.{bytes_eq};
ghost use Rattle.http_wire.specs.Parts.{parts, parts_of};
ghost use Rattle.keymanager_routes.specs.Bearers.{bearer_of, is_bearing};

use http_wire::Field;

/// The token that a request bears (RFC 6750, section 2.1): what stands after `Bearer `, in letters of any case, in the
/// first field `Authorization` whose value begins so.
pub(crate) fn bearer_of(fields: &[Field]) -> Option<&[u8]>
    ensures { option_map (λ token. token.now) result ≡ bearer_of (parts_of fields.now) }
{
    match bearing(fields) {
        Some(field) => Some(rest_of(field)),
        None => None,
    }
}

/// The first field that bears a token.
fn bearing(fields: &[Field]) -> Option<&Field>
    ensures { option_copied result ≡ find (λ f. is_bearing (parts f)) fields.now }
{
    fields.iter().find(|field| is_bearing(field))
}

/// Whether a field bears a token.
fn is_bearing(field: &Field) -> bool
    ensures { result ≡ is_bearing (parts field.now) }
{
    field.name.eq_ignore_ascii_case(b"authorization")
        && front_of(field.value.as_slice()).eq_ignore_ascii_case(b"bearer ")
}

/// The first 7 bytes, or all where there are fewer.
fn front_of(value: &[u8]) -> &[u8]
    ensures { result.now ≡ take 7 value.now }
{
    if value.len() < 7 {
        return value;
    }
    &value[..7]
}

/// What stands after `Bearer `.
fn rest_of(field: &Field) -> &[u8]
    ensures { result.now ≡ drop 7 field.now.value.items }
{
    let value = field.value.as_slice();
    if value.len() < 7 {
        return &[];
    }
    &value[7..]
}

/// Whether two tokens are the same. Every byte of tokens of one length is looked at, wherever they differ, and
/// nothing is decided before the last one: so the work is the same for each token of one length, and tells no
/// more than the length. That is how it is written. What is proved is the answer; no contract speaks of time,
/// and a compiler may write it otherwise.
pub(crate) fn is_same_token(given: &[u8], token: &[u8]) -> bool
    ensures { result ≡ bytes_eq given.now token.now }
{
    if given.len() != token.len() {
        return false;
    }
    let mut differing = 0u8;
    'bytes: for (i, byte) in given.iter().enumerate() {
        differing |= *byte ^ token[i];
    }
    differing == 0
}
