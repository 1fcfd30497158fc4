//! Passing over values, with nothing kept of them.
ghost use Rattle.std.specs.Prelude.{◌≡◌, ◌<◌, ◌≤◌, ◌∷◌, length, OnOk};
ghost use Rattle.json.specs.Reads.{token_of};
ghost use Rattle.json_walk.specs.Walk.{Reads, nothing_of, value_at, items_at, members_at};

use crate::range::is_in_range;
use json::{Invalid, Reader, Token};

/// Passes over a value.
#[cycle(skip)]
pub fn skip(reader: &mut Reader<'_>, depth: usize) -> Result<(), Invalid>
    ensures value { Reads result nothing_of (value_at depth reader.old) reader.new }
    ensures shorter { OnOk result (length reader.new < length reader.old) }
{
    let Some(token) = reader.next() else {
        return Err(Invalid);
    };
    skip_rest(reader, token, depth)
}

/// Passes over the rest of a value that begins with a token.
#[cycle(skip)]
pub(crate) fn skip_rest(
    reader: &mut Reader<'_>,
    token: Token<'_>,
    depth: usize,
) -> Result<(), Invalid>
    ensures value { Reads result nothing_of (value_at depth (token_of token.entry ∷ reader.old)) reader.new }
    ensures shorter { OnOk result (length reader.new ≤ length reader.old) }
{
    match token {
        Token::String(_) => Ok(()),
        Token::Bool(_) => Ok(()),
        Token::Null => Ok(()),
        Token::Number(text) => if is_in_range(text) {
            Ok(())
        } else {
            Err(Invalid)
        },
        Token::EndObject | Token::EndArray | Token::Key(_) | Token::Bad => Err(Invalid),
        Token::BeginArray => if depth == 0 {
            Err(Invalid)
        } else {
            skip_items(reader, depth - 1)
        },
        Token::BeginObject => if depth == 0 {
            Err(Invalid)
        } else {
            skip_members(reader, depth - 1)
        },
    }
}

/// Passes over the items of an array, from one on, and its closing bracket.
#[cycle(skip)]
pub fn skip_items(reader: &mut Reader<'_>, depth: usize) -> Result<(), Invalid>
    ensures value { Reads result nothing_of (items_at depth (length reader.old) reader.old) reader.new }
    ensures shorter { OnOk result (length reader.new < length reader.old) }
{
    'items: while !reader.take_end_array() {
        skip(reader, depth)?;
    }
    Ok(())
}

/// Passes over the members of an object and its closing brace.
#[cycle(skip)]
fn skip_members(reader: &mut Reader<'_>, depth: usize) -> Result<(), Invalid>
    ensures value { Reads result nothing_of (members_at depth reader.old) reader.new }
    ensures shorter { OnOk result (length reader.new < length reader.old) }
{
    'members: while let Some(_) = reader.next_key()? {
        skip(reader, depth)?;
    }
    Ok(())
}
