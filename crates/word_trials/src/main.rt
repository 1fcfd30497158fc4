//! What words and lines come to: plans of the command line, words with a token in them, requests and answers of a session,
//! lines of keys, and journals that are merged into and shown. Standard input has the cases, one a line, and standard output
//! each of them with what came of it below.
#![tactic(auto)]

mod answers;
mod journals;
mod key_statuses;
mod plans;
mod reading;
mod refusals;
mod requests;

use crate::answers::push_line_of;
use crate::journals::{push_journal, push_keys, push_reading};
use crate::plans::{push_debug_of, push_plan_of, push_token_of};
use crate::requests::push_request_of;
use std::alloc::Global;
use std::io;
use std::io::Print;
use trial_lines::{case_of, print_outcome, print_unread, read_input};

/// Appends what comes of a case.
fn push_outcome(alloc: Global, subject: &str, arguments: &str, out: &mut String) -> Option<()> {
    match subject {
        "plan" => push_plan_of(alloc, arguments, out),
        "plan-debug" => push_debug_of(alloc, arguments, out),
        "token-file" => push_token_of(alloc, arguments, out),
        "request" => push_request_of(alloc, arguments, out),
        "answer" => push_line_of(alloc, arguments, out),
        "merge-and-show" => push_journal(alloc, arguments, out),
        "key-line" => push_keys(alloc, arguments, out),
        "read-whole" => push_reading(alloc, arguments, out),
        _ => None,
    }
}

/// Writes what comes of a case.
fn run_case<R: Print + AllocGlobal>(rt: &R, subject: &str, arguments: &str) -> io::Result<()> {
    let mut out = String::new(rt.alloc());
    match push_outcome(rt.alloc(), subject, arguments, &mut out) {
        Some(()) => print_outcome(rt, out.as_str()),
        None => print_unread(rt),
    }
}

/// Writes a line, and what comes of it where it is a case.
fn run_line<R: Print + AllocGlobal>(rt: &R, line: &str) -> io::Result<()> {
    println!(rt; "{line}")?;
    match case_of(line) {
        Some((subject, arguments)) => run_case(rt, subject, arguments),
        None => Ok(()),
    }
}

fn main(rt: HostRuntime) -> io::Result<()> {
    let input = read_input(&rt)?;
    for line in input.as_str().lines() {
        run_line(&rt, line)?;
    }
    Ok(())
}
