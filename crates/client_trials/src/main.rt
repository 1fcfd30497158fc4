//! Trials of what calls a desk and a signing service next to it, over disks, signers, nodes and clocks in memory: duties
//! in lanes, turns of the duty loop, and custody of keys. Standard input has a trial on each line; what is wanted of it
//! stands in `stdout`.
#![tactic(auto)]

mod answers;
mod clocks;
mod custody;
mod desks;
mod disks;
mod duties;
mod lanes;
mod steps;
mod telling;
mod turns;
mod words;

use crate::custody::write_keystore;
use crate::steps::take_steps;
use crate::turns::play;
use std::alloc::Global;
use std::io;
use std::sync::Wait;
use std::thread::Threads;
use trial_lines::{case_of, print_outcome, print_unread, read_input};

/// Puts what comes of a line to a text.
fn push_outcome<R: Threads + Wait + Sync>(
    rt: &R,
    alloc: Global,
    text: &mut String,
    subject: &str,
    arguments: &str,
) -> Option<()> {
    match subject {
        "keystore" => write_keystore(alloc, text, arguments),
        "lane" => take_steps(alloc, text, arguments),
        "turns" => play(rt, alloc, text, arguments),
        _ => None,
    }
}

/// Writes what comes of a line.
fn write_outcome<R: Print + AllocGlobal + Threads + Wait + Sync>(
    rt: &R,
    subject: &str,
    arguments: &str,
) -> io::Result<()> {
    let mut text = String::new(rt.alloc());
    match push_outcome(rt, rt.alloc(), &mut text, subject, arguments) {
        Some(()) => print_outcome(rt, text.as_str()),
        None => print_unread(rt),
    }
}

/// Writes a line, and what comes of it.
fn write_line<R: Print + AllocGlobal + Threads + Wait + Sync>(
    rt: &R,
    line: &str,
) -> io::Result<()> {
    println!(rt; "{line}")?;
    match case_of(line) {
        Some((subject, arguments)) => write_outcome(rt, subject, arguments),
        None => Ok(()),
    }
}

fn main(rt: HostRuntime) -> io::Result<()> {
    let text = read_input(&rt)?;
    for line in text.as_str().lines() {
        write_line(&rt, line)?;
    }
    Ok(())
}
