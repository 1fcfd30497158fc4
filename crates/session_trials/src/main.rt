//! Trials of whole sessions. Lines make a script, and other lines run it: `script` begins one, with what stands after the
//! words of its sessions; `>` adds a request, `>>` a text without a newline, and `>*` a text that many times. `run` runs
//! requests of the script over new disks, `again` over those that the last run left, and `service` over new disks with
//! a service that signs; the words after it say which requests, and what fails. `each FIRST LAST` before such a line runs
//! it at each number of a range, which stands in the place of each `%`.
#![tactic(auto)]

mod each;
mod outside;
mod runs;
mod script;
mod service;
mod shown;
mod words;

use crate::outside::fresh_disks;
use crate::runs::{opening_calls, play_again, play_anew};
use crate::script::Script;
use crate::service::serve;
use crate::words::are_readable;
use edge_kit::{Disks, MemDisk};
use std::alloc::{AllocError, Global};
use std::io;
use std::io::Print;
use std::sync::Wait;
use std::thread::Threads;
use trial_lines::{case_of, print_outcome, print_unread, read_input};

/// What lines say until the next one.
#[derive(Drop)]
pub struct Trial {
    script: Script,
    /// What the last run left.
    disks: Disks<MemDisk>,
    /// How many calls of the first disk the opening of empty disks makes.
    opening: u64,
}

/// Runs the requests that the words name, and gives what came of it.
fn run_by<T: Threads + Wait + Sync>(
    rt: &T,
    alloc: Global,
    trial: &mut Trial,
    subject: &str,
    words: &str,
) -> Result<String, AllocError> {
    match subject {
        "again" => play_again(rt, alloc, trial, words),
        _ => play_anew(rt, alloc, trial, words),
    }
}

/// What comes of a line that runs a script; none where its words can't be read.
pub fn outcome_of_run<T: Threads + Wait + Sync>(
    rt: &T,
    alloc: Global,
    trial: &mut Trial,
    subject: &str,
    arguments: &str,
) -> Result<Option<String>, AllocError> {
    let (words, said) = arguments.split_once(" | ").unwrap_or((arguments, ""));
    if !are_readable(words) {
        return Ok(None);
    }
    if subject == "service" {
        return Ok(Some(serve(rt, alloc, &trial.script, words, said)?));
    }
    Ok(Some(run_by(rt, alloc, trial, subject, words)?))
}

/// What comes of a line; none where it can't be read.
fn outcome_of<T: Threads + Wait + Sync>(
    rt: &T,
    alloc: Global,
    trial: &mut Trial,
    subject: &str,
    arguments: &str,
) -> Result<Option<String>, AllocError> {
    match subject {
        "run" | "again" | "service" => outcome_of_run(rt, alloc, trial, subject, arguments),
        "each" => each::outcome(rt, alloc, trial, arguments),
        _ => {
            let is_read = trial.script.take(alloc, subject, arguments)?;
            Ok(is_read.then_some(String::new(alloc)))
        }
    }
}

/// Does what a line says, and writes what came of it.
fn take_line<R: Print + Threads + Wait + Sync>(
    rt: &R,
    alloc: Global,
    trial: &mut Trial,
    line: &str,
) -> io::Result<()> {
    let Some((subject, arguments)) = case_of(line) else {
        return Ok(());
    };
    match outcome_of(rt, alloc, trial, subject, arguments)? {
        Some(outcome) => print_outcome(rt, outcome.as_str()),
        None => print_unread(rt),
    }
}

/// Does what each line says.
fn take_lines<R: Print + Threads + Wait + Sync>(
    rt: &R,
    alloc: Global,
    trial: &mut Trial,
    lines: &str,
) -> io::Result<()> {
    for line in lines.lines() {
        println!(rt; "{line}")?;
        take_line(rt, alloc, trial, line)?;
    }
    Ok(())
}

/// A trial before its first line.
fn begin<T: Threads + Wait + Sync>(rt: &T, alloc: Global) -> Result<Trial, AllocError> {
    let opening = opening_calls(rt, alloc)?;
    let disks = fresh_disks(alloc)?;
    Ok(Trial {
        script: Script::new(alloc),
        disks,
        opening,
    })
}

fn main(rt: HostRuntime) -> io::Result<()> {
    let alloc = rt.alloc();
    let lines = read_input(&rt)?;
    let mut trial = begin(&rt, alloc)?;
    take_lines(&rt, alloc, &mut trial, lines.as_str())
}
