//! Trials of what keeps the record: journals over two disks, desks and seats over them, interchange files, lines that
//! close an output, and the system's readers, writers and files. Each line of standard input is a trial.
#![tactic(auto)]

mod adapters;
mod calls;
mod closings;
mod desks;
mod entries;
mod files;
mod interchanges;
mod journals;
mod phases;
mod replies;
mod seats;
mod words;

use crate::phases::{Opened, play_all};
use crate::words::number_of;
use std::fs::{File, Files};
use std::io;
use std::io::Eprint;
use std::sync::Wait;
use trial_lines::{case_of, print_outcome, print_unread, read_input};

/// Puts what comes of a subject and its arguments to a text.
fn play<R: Files<File = File> + Eprint + AllocGlobal + Wait>(
    rt: &R,
    subject: &str,
    words: &str,
    text: &mut String,
) -> Option<()> {
    let alloc = rt.alloc();
    match subject {
        "journal" => play_all(alloc, Opened::Journal, words, text),
        "desk" => play_all(alloc, Opened::Desk, words, text),
        "seats" => seats::play(rt, alloc, words, text),
        "closing" | "finish" | "fault" => closings::play(alloc, subject, words, text),
        "interchange" => interchanges::push_read(alloc, text, words),
        "order" => interchanges::push_ordered(alloc, text, words),
        "reader" => adapters::reads(rt, alloc, words, text),
        "writer" => adapters::writes(rt, alloc, words, text),
        "file" => files::play(rt, alloc, words, text),
        _ => None,
    }
}

/// Puts what comes of a subject and its arguments to a text, at a number that stands in the place of `%`.
fn play_at<R: Files<File = File> + Eprint + AllocGlobal + Wait>(
    rt: &R,
    number: u64,
    line: &str,
    text: &mut String,
) -> Option<()> {
    writeln!(text, "at {number}").ok()?;
    let digits = format!(in rt.alloc(); "{number}").ok()?;
    let line = line.replace(rt.alloc(), "%", digits.as_str()).ok()?;
    let (subject, words) = line.as_str().split_once(' ')?;
    play(rt, subject, words, text)
}

/// Puts what comes of a line at each number of a range to a text.
fn play_each<R: Files<File = File> + Eprint + AllocGlobal + Wait>(
    rt: &R,
    words: &str,
    text: &mut String,
) -> Option<()> {
    let (first, rest) = words.split_once(' ')?;
    let (last, line) = rest.split_once(' ')?;
    for number in number_of(first)?..=number_of(last)? {
        play_at(rt, number, line, text)?;
    }
    Some(())
}

/// What comes of a line.
fn came<R: Files<File = File> + Eprint + AllocGlobal + Wait>(
    rt: &R,
    subject: &str,
    words: &str,
) -> Option<String> {
    let mut text = String::new(rt.alloc());
    match subject {
        "each" => play_each(rt, words, &mut text)?,
        _ => play(rt, subject, words, &mut text)?,
    }
    Some(text)
}

/// Writes a line, and what comes of it.
fn try_line<R: Files<File = File> + Print + Eprint + AllocGlobal + Wait>(
    rt: &R,
    line: &str,
) -> io::Result<()> {
    println!(rt; "{line}")?;
    let Some((subject, words)) = case_of(line) else {
        return Ok(());
    };
    match came(rt, subject, words) {
        Some(text) => print_outcome(rt, text.as_str()),
        None => print_unread(rt),
    }
}

fn main(rt: HostRuntime) -> io::Result<()> {
    let input = read_input(&rt)?;
    for line in input.as_str().lines() {
        try_line(&rt, line)?;
    }
    Ok(())
}
