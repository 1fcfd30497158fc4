//! Clocks in memory, and the system's.
use crate::reading::{Stop, numbers_in};
use edge_clock::{Clock, Delay, Halt, MemClock, SystemClock};
use std::alloc::{AllocError, Global};
use std::rt;
use std::sync::Wait;

/// The delays that pairs of numbers are.
fn delays_of(alloc: Global, numbers: &[u64]) -> Result<Vec<Delay>, AllocError> {
    let mut delays = Vec::new(alloc);
    for pair in numbers.chunks(2) {
        if let [moment, seconds] = pair {
            delays.push(Delay {
                moment: *moment,
                seconds: *seconds,
            })?;
        }
    }
    Ok(delays)
}

/// What a clock in memory of this start shows, and which moment it reaches by a wait until another, with these delays.
pub fn mem_clock<R: Wait>(rt: &R, alloc: Global, words: &str) -> Result<String, Stop> {
    match numbers_in(alloc, words)?.as_slice() {
        [start, moment, delays @ ..] => {
            let clock = MemClock::new(*start, delays_of(alloc, delays)?);
            let shown = clock.now();
            let reached = clock.wait_until(rt, *moment);
            Ok(format!(in alloc; "shows {shown}, reaches {reached}")?)
        }
        _ => Err(Stop::Unread),
    }
}

/// What the system's clock shows, and whether it reaches moments that are past.
pub fn system_clock<R: Wait + rt::Clock + Sync>(rt: &R, alloc: Global) -> Result<String, Stop> {
    let halt = Halt::new();
    let clock = SystemClock::new(rt, &halt);
    let shown = clock.now();
    let is_after = shown > 0;
    let reaches_first = clock.wait_until(rt, 1) >= 1;
    let reaches_shown = clock.wait_until(rt, shown) >= shown;
    Ok(format!(in alloc;
        "shows a moment after 1970: {is_after}, reaches its first second: {reaches_first}, reaches what it showed: {reaches_shown}"
    )?)
}

/// Whether the system's clock is halted before its halt is raised, and after that.
pub fn halted_clock<R: rt::Clock + Sync>(rt: &R, alloc: Global) -> Result<String, Stop> {
    let halt = Halt::new();
    let clock = SystemClock::new(rt, &halt);
    let before = clock.is_halted();
    halt.raise();
    let after = clock.is_halted();
    Ok(format!(in alloc; "halted at first: {before}, once its halt is raised: {after}")?)
}

/// Whether the halt of the system's clock is raised before the clock is halted, and after that.
pub fn halting_clock<R: rt::Clock + Sync>(rt: &R, alloc: Global) -> Result<String, Stop> {
    let halt = Halt::new();
    let clock = SystemClock::new(rt, &halt);
    let before = halt.is_raised();
    clock.halt();
    let after = halt.is_raised();
    Ok(format!(in alloc; "raised at first: {before}, once its clock is halted: {after}")?)
}
