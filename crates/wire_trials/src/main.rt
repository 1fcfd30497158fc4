//! Trials of what goes over a wire and of what is due: addresses of services, JSON and HTTP messages, the calls of the
//! signing service and of beacon nodes over links in memory, what nodes answer in their order, schedules, watches and
//! clocks. Each line of the input is a subject and its arguments; what comes of it is written below it.
//!
//! In texts of bytes `\r` and `\n` stand for the ends of lines. Of the arguments that are numbers the words between them
//! say what they are, and are passed over. Keys, roots, reveals and proofs are given by a number that each of their bytes
//! is.
#![tactic(auto)]

mod answers;
mod clocks;
mod duties;
mod links;
mod messages;
mod nodes;
mod permits;
mod questions;
mod reading;
mod scenes;
mod signers;
mod stages;
mod wires;

use crate::reading::{Stop, first_part, numbers_in};
use std::alloc::{AllocError, Global};
use std::io;
use std::rt::Clock;
use std::sync::Wait;
use trial_lines::{case_of, print_outcome, print_unread, read_input};

/// What comes of a subject and its arguments.
fn outcome<R: Wait + Clock + Sync>(
    rt: &R,
    alloc: Global,
    subject: &str,
    arguments: &str,
) -> Result<String, Stop> {
    match subject {
        "failing" => {
            let (range, case) = first_part(arguments, ": ");
            each_failing(alloc, range, case)
        }
        "url" | "json" | "json-bytes" | "request" | "response" => {
            wires::outcome(alloc, subject, arguments)
        }
        "link" | "signer" | "node" | "nodes" => { scenes::outcome(alloc, subject, arguments, &[]) }
        "clock" => clocks::mem_clock(rt, alloc, arguments),
        "system-clock" => clocks::system_clock(rt, alloc),
        "halted-clock" => clocks::halted_clock(rt, alloc),
        "halting-clock" => clocks::halting_clock(rt, alloc),
        _ => duties::outcome(alloc, subject, arguments),
    }
}

/// What comes of a case where the first of these calls of the link fails, then where the next one does, and so on to the
/// last: each outcome that differs from the one before it.
fn each_failing(alloc: Global, range: &str, case: &str) -> Result<String, Stop> {
    let (subject, arguments) = first_part(case, " ");
    let (first, last) = range_of(alloc, range)?;
    let mut text = String::new(alloc);
    let mut before = String::new(alloc);
    for call in first..=last {
        let words = scenes::outcome(alloc, subject, arguments, &[call])?;
        if words.as_str() != before.as_str() {
            let words = words.as_str();
            write!(text, "from call {call}:\n{words}")?;
        }
        before = words;
    }
    write!(text, "to call {last}")?;
    Ok(text)
}

/// The first and the last of a range.
fn range_of(alloc: Global, range: &str) -> Result<(u64, u64), Stop> {
    match numbers_in(alloc, range)?.as_slice() {
        [first, last] => Ok((*first, *last)),
        _ => Err(Stop::Unread),
    }
}

/// Writes a line and what comes of it.
fn write_line<R: Print + AllocGlobal + Wait + Clock + Sync>(rt: &R, line: &str) -> io::Result<()> {
    println!(rt; "{line}")?;
    let Some((subject, arguments)) = case_of(line) else {
        return Ok(());
    };
    match outcome(rt, rt.alloc(), subject, arguments) {
        Ok(text) => print_outcome(rt, text.as_str()),
        Err(Stop::Unread) => print_unread(rt),
        Err(Stop::OutOfMemory) => Err(AllocError)?,
    }
}

fn main(rt: HostRuntime) -> io::Result<()> {
    let input = read_input(&rt)?;
    for line in input.lines() {
        write_line(&rt, line)?;
    }
    Ok(())
}
