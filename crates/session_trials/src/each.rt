//! A line that is run at each number of a range.
use crate::{Trial, outcome_of_run};
use std::alloc::{AllocError, Global};
use std::sync::Wait;
use std::thread::Threads;

/// What comes of a line at a number and those after it, as long as it is the same.
#[derive(Drop)]
struct Alike {
    first: u64,
    last: u64,
    outcome: String,
}

/// What comes of a line at each number of a range, which stands in the place of each `%`; none where it can't be read.
pub fn outcome<T: Threads + Wait + Sync>(
    rt: &T,
    alloc: Global,
    trial: &mut Trial,
    arguments: &str,
) -> Result<Option<String>, AllocError> {
    let Some((first, last, line)) = range_of(arguments) else {
        return Ok(None);
    };
    let mut text = String::new(alloc);
    let mut alike = alike_at(first, outcome_at(rt, alloc, trial, first, line)?);
    for number in first..=last {
        let outcome = outcome_at(rt, alloc, trial, number, line)?;
        if alike.outcome.as_str() != outcome.as_str() {
            push_alike(&mut text, &alike)?;
            alike = alike_at(number, outcome);
        }
        alike.last = number;
    }
    push_alike(&mut text, &alike)?;
    Ok(Some(text))
}

/// The first and the last number of a range, and the line after them.
fn range_of(arguments: &str) -> Option<(u64, u64, &str)> {
    let (first, rest) = arguments.split_once(' ')?;
    let (last, line) = rest.split_once(' ')?;
    Some((first.parse::<u64>().ok()?, last.parse::<u64>().ok()?, line))
}

/// What comes of a line at a number.
fn outcome_at<T: Threads + Wait + Sync>(
    rt: &T,
    alloc: Global,
    trial: &mut Trial,
    number: u64,
    line: &str,
) -> Result<String, AllocError> {
    let number = format!(in alloc; "{number}")?;
    let line = line.replace(alloc, "%", number.as_str())?;
    let (subject, words) = line.as_str().split_once(' ').unwrap_or((line.as_str(), ""));
    match outcome_of_run(rt, alloc, trial, subject, words)? {
        Some(outcome) => Ok(outcome),
        None => String::from_str(alloc, "no subject reads this line\n"),
    }
}

/// What comes of a line at a number alone.
fn alike_at(number: u64, outcome: String) -> Alike {
    Alike {
        first: number,
        last: number,
        outcome,
    }
}

/// Puts what came at some numbers after a text.
fn push_alike(text: &mut String, alike: &Alike) -> Result<(), AllocError> {
    writeln!(text, "at {} to {}", alike.first, alike.last)?;
    text.push_str(alike.outcome.as_str())
}
