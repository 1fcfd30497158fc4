//! What a run came to, as text.
use crate::outside::Ended;
use crate::words::has_word;
use std::alloc::{AllocError, Global};
use test_texts::{filled, is_text, kept_words};

/// The marks that stand for long digits and for what is around an interchange file, those first that hold others.
const MARKS: &[&str] = &[
    "<file>",
    "</file>",
    "</file G1>",
    "'",
    "<S(K1,Ra)>",
    "<S(K1,Rb)>",
    "<S(K2,Rb)>",
    "<S(K3,Ra)>",
    "<S7>",
    "<K1>",
    "<K2>",
    "<K3>",
    "<K4>",
    "<G0>",
    "<G1>",
    "<Ra>",
    "<Rb>",
];

/// What a run wrote, what a desk over its disks then says of each key, and how the run ended. After a compaction its sizes are left out where the words
/// say that the journal is compacted after each request.
pub fn shown<S>(alloc: Global, ended: &Ended<S>, words: &str) -> Result<String, AllocError> {
    let mut text = String::new(alloc);
    push_lines(alloc, &mut text, "wrote", ended.output.as_slice(), words)?;
    let kept = kept_words(alloc, &ended.disks, ended.genesis)?;
    push_lines(alloc, &mut text, "kept", kept.as_bytes(), words)?;
    let status = ended.status;
    let end = format!(in alloc; "ended {status:?}, status {}\n", status.code())?;
    text.push_str(end.as_str())?;
    Ok(text)
}

/// Adds the lines of bytes, each with a mark before it.
pub fn push_lines(
    alloc: Global,
    text: &mut String,
    mark: &str,
    bytes: &[u8],
    words: &str,
) -> Result<(), AllocError> {
    let lines = String::from_utf8_lossy(alloc, bytes)?;
    let is_compacting = has_word(words, "compacting");
    for line in lines.as_str().split_inclusive('\n') {
        let is_compaction = is_compacting && line.contains("compacted");
        let line = if is_compaction { "compacted\n" } else { line };
        push_line(text, mark, line)?;
    }
    Ok(())
}

/// Adds a line with a mark before it. Of one without its newline that is said.
fn push_line(text: &mut String, mark: &str, line: &str) -> Result<(), AllocError> {
    text.push_str(mark)?;
    text.push(' ')?;
    text.push_str(line)?;
    if line.ends_with('\n') {
        return Ok(());
    }
    text.push_str(" (no newline)\n")
}

/// The text with marks in it, where they stand for it exactly, and `\r` for the end of a line.
pub fn marked(alloc: Global, text: String) -> Result<String, AllocError> {
    let text = text.replace(alloc, "\r", "\\r")?;
    let short = shortened(alloc, text.as_str())?;
    if is_text(alloc, text.as_bytes(), short.as_str())? {
        return Ok(short);
    }
    Ok(text)
}

/// The text with each mark in the place of what it stands for.
fn shortened(alloc: Global, text: &str) -> Result<String, AllocError> {
    let mut short = String::from_str(alloc, text)?;
    for mark in MARKS {
        let long = filled(alloc, mark)?;
        short = short.replace(alloc, long.as_str(), mark)?;
    }
    Ok(short)
}
