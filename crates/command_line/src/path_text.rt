//! The text of a journal's path.
ghost use Rattle.std.specs.Prelude.{◌≡◌, IfOk, string_bytes};
ghost use Rattle.command_line.specs.Options.{path_at};

use std::alloc::{AllocError, Global};
use std::fmt;
use std::marker::Model;

/// The path of a journal, which contracts see as its bytes: the journal's files are this path with `.a`
/// and with `.b` at its end.
#[derive(Drop)]
pub struct PathText {
    text: String,
}

impl Model for PathText {
    ghost use Rattle.std.specs.Prelude.{ℕ, List, string_bytes};

    ghost Value = { List ℕ };

    ghost view = { λ p. string_bytes p.text };
}

impl PathText {
    /// The text of a string.
    pub fn new(text: String) -> Self
        ensures { result ≡ string_bytes text }
    {
        PathText { text }
    }

    /// The text, lent.
    pub fn as_str(&self) -> &str
        ensures { result.now ≡ self.now }
    {
        self.text.as_str()
    }
}

impl fmt::Debug for PathText {
    fn fmt<W: fmt::Write>(&self, f: &mut fmt::Formatter<W>) -> fmt::Result {
        write!(f, "{:?}", self.text.as_str())
    }
}

/// The path that a text writes: none where the text is empty.
pub(crate) fn read_path(alloc: Global, text: &str) -> Result<Option<PathText>, AllocError>
    ensures { IfOk result (λ path. path ≡ path_at text.now) }
{
    if text.is_empty() {
        return Ok(None);
    }
    let text = String::from_str(alloc, text)?;
    Ok(Some(PathText::new(text)))
}
