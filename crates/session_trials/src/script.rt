//! Scripts, as lines tell them.
use crate::words::{chosen, has_word};
use std::alloc::{AllocError, Global};
use test_texts::filled;

/// A request to compact the journal.
const COMPACT: &str = "{\"op\":\"compact\"}\n";

/// The words of the sessions of a script, and its requests.
#[derive(Drop)]
pub struct Script {
    pub words: String,
    /// The requests, each with its newline where it has one.
    requests: Vec<String>,
}

impl Script {
    /// A script without words and without requests.
    pub fn new(alloc: Global) -> Script {
        Script {
            words: String::new(alloc),
            requests: Vec::new(alloc),
        }
    }

    /// Takes a line. False where it can't be read.
    pub fn take(
        &mut self,
        alloc: Global,
        subject: &str,
        arguments: &str,
    ) -> Result<bool, AllocError> {
        if subject == "script" {
            *self = begun(alloc, arguments)?;
            return Ok(true);
        }
        match text_of(alloc, subject, arguments)? {
            Some(text) => {
                self.requests.push(text)?;
                Ok(true)
            }
            None => Ok(false),
        }
    }

    /// The requests that words name, each followed by one to compact the journal where the words say so.
    pub fn input(&self, alloc: Global, words: &str) -> Result<String, AllocError> {
        let (before, count) = chosen(words);
        let behind = if has_word(words, "compacting") {
            COMPACT
        } else {
            ""
        };
        let mut input = String::new(alloc);
        for request in self.requests.iter().skip(before).take(count) {
            input.push_str(request.as_str())?;
            input.push_str(behind)?;
        }
        Ok(input)
    }
}

/// A script without requests, whose sessions are for the chain G0 and have these words.
fn begun(alloc: Global, words: &str) -> Result<Script, AllocError> {
    Ok(Script {
        words: format!(in alloc; "validator session --genesis <G0> {words}")?,
        requests: Vec::new(alloc),
    })
}

/// What a line adds; none where it can't be read.
fn text_of(alloc: Global, kind: &str, marked: &str) -> Result<Option<String>, AllocError> {
    let mut text = filled(alloc, marked)?;
    match kind {
        ">" => {
            text.push('\n')?;
            Ok(Some(text))
        }
        ">>" => Ok(Some(text)),
        ">*" => many(alloc, text.as_str()),
        _ => Ok(None),
    }
}

/// A text as many times as the number before it says; none where no number stands there.
fn many(alloc: Global, counted: &str) -> Result<Option<String>, AllocError> {
    let Some((count, text)) = counted.split_once(' ') else {
        return Ok(None);
    };
    let Ok(count) = count.parse::<u32>() else {
        return Ok(None);
    };
    match text.split_once('#') {
        Some((before, after)) => Ok(Some(numbered(alloc, count, before, after)?)),
        None => Ok(Some(text.repeat(alloc, count as usize)?)),
    }
}

/// Two texts that many times, with the number of each time between them, from 1 and in 96 hex digits.
fn numbered(alloc: Global, count: u32, before: &str, after: &str) -> Result<String, AllocError> {
    let mut text = String::new(alloc);
    for number in 0..count {
        let number = u64::from(number).saturating_add(1);
        let next = format!(in alloc; "{before}{number:096x}{after}")?;
        text.push_str(next.as_str())?;
    }
    Ok(text)
}
