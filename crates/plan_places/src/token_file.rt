//! The file that words name for the token of the Keymanager API, so that no list of processes shows the token.
ghost use Rattle.std.specs.Prelude.{◌≡◌, ◌++◌, ◌<◌, IfOk, length, map, option_map, string_bytes};
ghost use Rattle.std.specs.Io.BufRead.{strip_last};
ghost use Rattle.plan_places.specs.TokenFiles.{is_joined, takes_token, token_path, token_word, with_token, without_line_end};
ghost use Rattle.plan_places.specs.TokenPlaces.{IsPlaceOf};

use std::alloc::{AllocError, Global};

/// The option whose value is the next word.
const APART: &str = "--token-file";

/// The option whose value stands in the same word.
const JOINED: &str = "--token-file=";

/// What stands before the words that are no options, whatever they look like.
const END_OF_OPTIONS: &str = "--";

/// Where words have the option.
#[derive(Clone, Copy)]
enum Place {
    /// The word of this index is the option, and the next word is its value.
    Apart(usize),
    /// The word of this index has both.
    Joined(usize),
}

/// The path of the file that holds the token: the value of the first `--token-file` of the words, the first of which is
/// the program's name. None where the second one is not `serve` or `proxy`, or no such option with a value comes before a word `--`.
pub fn token_path(words: &[String]) -> Option<&str>
    ensures { option_map (λ path. path.now) result ≡ token_path (map string_bytes words.now) }
{
    match place_of(words)? {
        Place::Apart(index) => Some(words[index + 1].as_str()),
        Place::Joined(index) => words[index].as_str().strip_prefix(JOINED),
    }
}

/// The words with this text as the token, `--token=` and the text, in the place of the option that `token_path` reads;
/// the same words where there is none.
///
/// # Errors
///
/// `AllocError` where memory was wanted.
pub fn with_token(
    alloc: Global,
    mut words: Vec<String>,
    text: &str,
) -> Result<Vec<String>, AllocError>
    ensures { IfOk result (λ given. map string_bytes given.items ≡ with_token (map string_bytes words.items) text.now) }
{
    let Some(place) = place_of(words.as_slice()) else {
        return Ok(words);
    };
    let token = token_word(alloc, text)?;
    match place {
        Place::Apart(index) => {
            words[index] = token;
            words.remove(index + 1);
        }
        Place::Joined(index) => words[index] = token,
    }
    Ok(words)
}

/// The text without one line end at its end, `\n` or `\r\n`, if it has one there.
pub fn without_line_end(text: &str) -> &str
    ensures { result.now ≡ without_line_end text.now }
{
    match text.strip_suffix('\n') {
        Some(line) => without_return(line),
        None => text,
    }
}

/// The line without a carriage return at its end, if it has one there.
fn without_return(line: &str) -> &str
    ensures { result.now ≡ strip_last 13 line.now }
{
    match line.strip_suffix('\r') {
        Some(front) => front,
        None => line,
    }
}

/// The word that gives a text as the token.
fn token_word(alloc: Global, text: &str) -> Result<String, AllocError>
    ensures { IfOk result (λ word. string_bytes word ≡ token_word text.now) }
{
    format!(in alloc; "--token={text}")
}

/// Where words have the option, if the command takes a token.
fn place_of(words: &[String]) -> Option<Place>
    ensures { IsPlaceOf (map string_bytes words.now) result }
{
    if !takes_token(words) {
        return None;
    }
    'words: for index in 2..words.len() {
        let word = words[index].as_str();
        if word == END_OF_OPTIONS {
            return None;
        }
        if is_joined(word) {
            return Some(Place::Joined(index));
        }
        if word == APART && index + 1 < words.len() {
            return Some(Place::Apart(index));
        }
    }
    None
}

/// Whether a word has both the option and its value.
fn is_joined(word: &str) -> bool
    ensures { result ≡ is_joined word.now }
{
    word.starts_with(JOINED)
}

/// Whether the command takes a token: it is `serve` or `proxy`.
fn takes_token(words: &[String]) -> bool
    ensures { result ≡ takes_token (map string_bytes words.now) }
{
    match words {
        [_, command, ..] => command.as_str() == "serve" || command.as_str() == "proxy",
        _ => false,
    }
}
