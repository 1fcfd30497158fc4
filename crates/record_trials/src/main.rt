//! Trials of roots, of the records of keys, of a journal's items and of interchange files: one a line, as `trial_lines` reads
//! and writes them. The module of a subject says how its arguments are written.
#![tactic(auto)]

mod batches;
mod books;
mod chains;
mod containers;
mod entries;
mod fixed_bytes;
mod items;
mod merkle;
mod records;
mod verdicts;

use std::alloc::Global;
use std::io;
use std::io::{Input, Print};
use trial_lines::{case_of, print_outcome, print_unread, read_input};

/// The written text of an interchange file, or why it is refused.
fn interchange(alloc: Global, text: &str) -> Option<String> {
    match interchange_io::read(alloc, text.as_bytes()).ok()? {
        Ok(file) => {
            let written = interchange_io::write(alloc, &file).ok()?;
            String::from_utf8_lossy(alloc, written.as_slice()).ok()
        }
        Err(fault) => fault.to_string(alloc).ok(),
    }
}

/// What comes of a line; nothing where no subject reads it, or where memory ran out.
fn outcome(alloc: Global, subject: &str, arguments: &str) -> Option<String> {
    match subject {
        "record" => records::outcome(alloc, arguments),
        "books" => books::outcome(alloc, arguments),
        "joined" => books::outcome_of_join(alloc, arguments),
        "interchange" => interchange(alloc, arguments),
        "payload" | "payload_two" | "replay" | "book" | "snapshot" => batches::outcome(
            alloc, subject, arguments,
        ),
        _ => containers::outcome(alloc, subject, arguments),
    }
}

/// Writes a line, and what comes of it.
fn run_line<R: Print + AllocGlobal>(rt: &R, line: &str) -> io::Result<()> {
    println!(rt; "{line}")?;
    let Some((subject, arguments)) = case_of(line) else {
        return Ok(());
    };
    match outcome(rt.alloc(), subject, arguments) {
        Some(text) => print_outcome(rt, text.as_str()),
        None => print_unread(rt),
    }
}

/// Writes each line of the input, and what comes of it.
fn run<R: Input + Print + AllocGlobal>(rt: &R) -> io::Result<()> {
    let input = read_input(rt)?;
    for line in input.lines() {
        run_line(rt, line)?;
    }
    Ok(())
}

fn main(rt: HostRuntime) -> io::Result<()> {
    run(&rt)
}
