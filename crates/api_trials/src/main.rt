//! Trials of the Keymanager API: requests as bytes over links in memory, and the replies as bytes; of requests for a
//! signature, and of connections of the signing proxy. A line opens a desk, chooses a signer, makes a request, lets connections come in at a door, or looks at what
//! was left.
#![tactic(auto)]

mod doors;
mod exchanges;
mod exhausted;
mod links;
mod signatures;
mod stage;

use crate::doors::{accept_twice, serve_door};
use crate::exchanges::{answer_without_link, exchange, heard};
use crate::signatures::{pass, sign};
use crate::stage::{Chosen, Stage, choose_signer, look, open_desk};
use std::alloc::{AllocError, Global};
use std::io;
use std::io::Print;
use trial_lines::{case_of, print_outcome, print_unread, read_input};

/// What came of a line, in words; none where nothing reads it.
type Outcome = Result<Option<String>, AllocError>;

/// What came of a line that opens, chooses or looks.
fn set_or_look(alloc: Global, subject: &str, arguments: &str, stage: &mut Stage) -> Outcome {
    match subject {
        "desk" => open_desk(alloc, arguments, stage),
        "signer" => choose_signer(alloc, arguments, stage),
        "look" => look(alloc, arguments, stage),
        _ => Ok(None),
    }
}

/// What came of a line.
fn outcome(alloc: Global, subject: &str, arguments: &str, stage: &mut Stage) -> Outcome {
    match subject {
        "say" | "ask" => exchange(alloc, subject, arguments, stage),
        "heard" => heard(alloc, arguments, stage),
        "answer" => answer_without_link(alloc, arguments, stage),
        "door" => serve_door(alloc, arguments, stage),
        "accept" => accept_twice(alloc, arguments),
        "sign" => sign(alloc, arguments, stage),
        "pass" => pass(alloc, arguments, stage),
        _ => set_or_look(alloc, subject, arguments, stage),
    }
}

/// Runs the case that a line is, and writes what came of it.
fn run_case<R: Print + AllocGlobal>(
    rt: &R,
    subject: &str,
    arguments: &str,
    stage: &mut Stage,
) -> io::Result<()> {
    match outcome(rt.alloc(), subject, arguments, stage)? {
        Some(text) => print_outcome(rt, text.as_str()),
        None => print_unread(rt),
    }
}

/// Writes a line, and below it what came of it.
fn run_line<R: Print + AllocGlobal>(rt: &R, line: &str, stage: &mut Stage) -> io::Result<()> {
    println!(rt; "{line}")?;
    match case_of(line) {
        Some((subject, arguments)) => run_case(rt, subject, arguments, stage),
        None => Ok(()),
    }
}

fn main(rt: HostRuntime) -> io::Result<()> {
    let input = read_input(&rt)?;
    let mut stage = Stage {
        desk: None,
        signer: Chosen::Exhausted,
    };
    for line in input.lines() {
        run_line(&rt, line, &mut stage)?;
    }
    Ok(())
}
