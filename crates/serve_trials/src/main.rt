//! Runs of the whole program, as lines of trials. A line `play` is a play of one act after another over the same disks,
//! with ` | ` between them. An act sets something for the next run, or is a run; the acts are listed at `Scene`. Marks in a
//! line stand for long digits, as `filled` of `test_texts` has them, and `\n` and `\r` for the ends of lines. A line `walk
//! FIRST LAST ACTS` is such a play at each number from the first to the last, a row each (`walk`).
#![tactic(auto)]

mod meetings;
mod nodes;
mod plays;
mod runs;
mod said;
mod scenes;
mod walks;

use std::io;
use std::io::Print;
use std::rt::Clock;
use std::sync::Wait;
use std::thread::Threads;
use trial_lines::{case_of, print_unread, read_input};

/// Writes a line and what comes of it.
fn take_line<T: Threads + Wait + Clock + Print + AllocGlobal + Sync>(
    rt: &T,
    line: &str,
) -> io::Result<()> {
    println!(rt; "{line}")?;
    let is_read = match case_of(line) {
        None => true,
        Some(("play", acts)) => plays::play(rt, rt.alloc(), acts).is_ok(),
        Some(("walk", words)) => walks::walk(rt, rt.alloc(), words).is_ok(),
        Some(_) => false,
    };
    if is_read {
        return Ok(());
    }
    print_unread(rt)
}

fn main(rt: HostRuntime) -> io::Result<()> {
    let input = read_input(&rt)?;
    for line in input.lines() {
        take_line(&rt, line)?;
    }
    Ok(())
}
