//! The token of the Keymanager API.
ghost use Rattle.std.specs.Prelude.{◌≡◌, IfOk, string_bytes};
ghost use Rattle.std.specs.Char.{is_ascii_graphic};
ghost use Rattle.std.specs.List.{list_all};
ghost use Rattle.command_line.specs.Serving.{is_token, token_at};

use std::alloc::{AllocError, Global};
use std::fmt;
use std::marker::Model;

/// The token that requests of the Keymanager API must carry, which contracts see as its bytes. It is a secret,
/// which is never printed: `{:?}` writes `<token>`.
#[derive(Drop)]
pub struct TokenText {
    text: String,
}

impl Model for TokenText {
    ghost use Rattle.std.specs.Prelude.{ℕ, List, string_bytes};

    ghost Value = { List ℕ };

    ghost view = { λ t. string_bytes t.text };
}

impl TokenText {
    /// The text of a string.
    pub fn new(text: String) -> Self
        ensures { result ≡ string_bytes text }
    {
        TokenText { text }
    }

    /// The text, lent.
    pub fn as_str(&self) -> &str
        ensures { result.now ≡ self.now }
    {
        self.text.as_str()
    }
}

impl fmt::Debug for TokenText {
    fn fmt<W: fmt::Write>(&self, f: &mut fmt::Formatter<W>) -> fmt::Result {
        write!(f, "<token>")
    }
}

/// The token that a text is: none where it is empty, longer than 256 bytes, or has a byte that is no visible ASCII
/// character. The error is want of memory.
pub(crate) fn read_token(alloc: Global, text: &str) -> Result<Option<TokenText>, AllocError>
    ensures { IfOk result (λ token. token ≡ token_at text.now) }
{
    if !is_token(text) {
        return Ok(None);
    }
    let text = String::from_str(alloc, text)?;
    Ok(Some(TokenText::new(text)))
}

/// Whether a text has 1 to 256 bytes, each a visible ASCII character.
fn is_token(text: &str) -> bool
    ensures { result ≡ is_token text.now }
{
    !text.is_empty() && text.len() <= 256 && is_graphic(text)
}

/// Whether each byte is a visible ASCII character.
fn is_graphic(text: &str) -> bool
    ensures { result ≡ list_all is_ascii_graphic text.now }
{
    text.bytes().all(|byte| byte.is_ascii_graphic())
}
