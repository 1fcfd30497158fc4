//! What stands in front: a text, an object or an array.
ghost use Rattle.std.specs.Prelude.{◌≡◌, ◌<◌, length, OnOk};
ghost use Rattle.json_walk.specs.Walk.{Enters, EntersObject, EntersArray, ReadsText};

use crate::skipping::skip_rest;
use json::{Invalid, Reader, Token};

/// How a value was entered.
#[derive(Clone, Copy, Drop)]
pub enum Entered {
    /// Its opening bracket was taken.
    Inside,
    /// It is null, and was passed.
    Null,
    /// It is of another kind, and was passed.
    Other,
}

/// The next value's text: none of null, and else the text if it is one.
pub fn read_text_or_null<'a>(
    reader: &mut Reader<'a>,
    depth: usize,
) -> Result<Option<Option<&'a str>>, Invalid>
    ensures value { ReadsText result depth reader.old reader.new }
    ensures shorter { OnOk result (length reader.new < length reader.old) }
{
    let Some(token) = reader.next() else {
        return Err(Invalid);
    };
    match token {
        Token::String(text) => Ok(Some(Some(text))),
        Token::Null => Ok(None),
        _ => {
            skip_rest(reader, token, depth)?;
            Ok(Some(None))
        }
    }
}

/// Takes an object's opening brace, or else passes the value.
pub fn enter_object(reader: &mut Reader<'_>, depth: usize) -> Result<Entered, Invalid>
    ensures value { Enters EntersObject result depth reader.old reader.new }
    ensures shorter { OnOk result (length reader.new < length reader.old) }
{
    let Some(token) = reader.next() else {
        return Err(Invalid);
    };
    match token {
        Token::BeginObject => if depth == 0 {
            Err(Invalid)
        } else {
            Ok(Entered::Inside)
        },
        Token::Null => Ok(Entered::Null),
        _ => {
            skip_rest(reader, token, depth)?;
            Ok(Entered::Other)
        }
    }
}

/// Takes an array's opening bracket, or else passes the value.
pub fn enter_array(reader: &mut Reader<'_>, depth: usize) -> Result<Entered, Invalid>
    ensures value { Enters EntersArray result depth reader.old reader.new }
    ensures shorter { OnOk result (length reader.new < length reader.old) }
{
    let Some(token) = reader.next() else {
        return Err(Invalid);
    };
    match token {
        Token::BeginArray => if depth == 0 {
            Err(Invalid)
        } else {
            Ok(Entered::Inside)
        },
        Token::Null => Ok(Entered::Null),
        _ => {
            skip_rest(reader, token, depth)?;
            Ok(Entered::Other)
        }
    }
}
