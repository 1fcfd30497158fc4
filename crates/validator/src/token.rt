//! The token of the Keymanager API, where the words name a file that holds it.

use crate::secret_file::SecretFile;
use plan_places::{token_path, with_token, without_line_end};
use std::alloc::{AllocError, Global};
use std::fs::{File, Files};
use std::io;
use std::io::ErrorKind;

/// What stands for a token that could not be read, so that what the other words name is known all the same. No run begins
/// with it.
const UNREAD: &str = "unread";

/// The words of the command line, with the token in the place of the option that names its file.
#[derive(Drop)]
pub(crate) struct TokenWords {
    /// The words.
    pub(crate) words: Vec<String>,
    /// What is to be told of the file.
    pub(crate) note: TokenNote,
}

/// What is to be told of the file of the token.
#[derive(Drop)]
pub(crate) enum TokenNote {
    /// Nothing: there is none, or its owner alone may read it.
    Nothing,
    /// Others than its owner may read it, as this line says.
    Warning(String),
    /// It could not be read, as this line says, and the words are not to be run.
    Refusal(String),
}

/// The words with the token in the place of the option that names its file, which is read; the same words where none is
/// named. What is told of the file names its path, and nothing that it holds.
///
/// # Errors
///
/// `AllocError` where memory was wanted.
pub(crate) fn token_words<R: Files<File = File>>(
    files: &R,
    alloc: Global,
    words: Vec<String>,
) -> Result<TokenWords, AllocError> {
    let Some(path) = token_path(words.as_slice()) else {
        let note = TokenNote::Nothing;
        return Ok(TokenWords { words, note });
    };
    let path = String::from_str(alloc, path)?;
    match SecretFile::read(files, alloc, path.as_str()) {
        Ok(token) => words_with(alloc, words, path.as_str(), &token),
        Err(error) if error.kind() == ErrorKind::OutOfMemory => Err(AllocError),
        Err(error) => words_without(alloc, words, path.as_str(), &error),
    }
}

/// The words with a token that was read.
fn words_with(
    alloc: Global,
    words: Vec<String>,
    path: &str,
    token: &SecretFile,
) -> Result<TokenWords, AllocError> {
    let words = with_token(alloc, words, without_line_end(token.text()))?;
    if !token.is_exposed() {
        let note = TokenNote::Nothing;
        return Ok(TokenWords { words, note });
    }
    let line = format!(in alloc; "{path}: others than its owner may read the token in it")?;
    let note = TokenNote::Warning(line);
    Ok(TokenWords { words, note })
}

/// The words where no token was read, for this cause.
fn words_without(
    alloc: Global,
    words: Vec<String>,
    path: &str,
    error: &io::Error,
) -> Result<TokenWords, AllocError> {
    let words = with_token(alloc, words, UNREAD)?;
    let note = TokenNote::Refusal(format!(in alloc; "{path}: {error}")?);
    Ok(TokenWords { words, note })
}
