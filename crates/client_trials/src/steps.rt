//! The subject `lane`: a lane is described, and steps are taken with it, with ` | ` before each. What comes of each step is
//! written, and then what the lane has come to.
use crate::custody::{delete, import, list, merge};
use crate::desks::{begin_close, compact, finish_close, sign};
use crate::disks::{crash, stop};
use crate::duties::do_duties;
use crate::lanes::{MemLane, lane_of};
use crate::telling::write_lane;
use crate::words::{key, number_in};
use std::alloc::Global;

/// `begin-close key=K`, `finish-close key=K`, `sign key=K` or `compact`: one call of the desk.
fn call_desk(text: &mut String, lane: &mut MemLane, name: &str, rest: &str) -> Option<()> {
    let key = key(number_in(rest, "key")?);
    let word = match name {
        "begin-close" => begin_close(&mut lane.desk, key),
        "finish-close" => finish_close(&mut lane.desk, key),
        "sign" => sign(&mut lane.desk, key),
        "compact" => compact(&mut lane.desk),
        _ => return None,
    };
    writeln!(text, "{word}").ok()
}

fn take_step(
    alloc: Global,
    text: &mut String,
    lane: &mut MemLane,
    name: &str,
    rest: &str,
) -> Option<()> {
    match name {
        "delete" => delete(alloc, text, lane, rest),
        "import" => import(alloc, text, lane, rest),
        "merge" => merge(alloc, text, lane, rest),
        "list" => list(alloc, text, lane),
        "stop" => stop(alloc, lane, rest),
        "crash" => crash(alloc, lane, rest),
        "vote" => do_duties(alloc, text, lane, false, rest),
        "propose" => do_duties(alloc, text, lane, true, rest),
        _ => call_desk(text, lane, name, rest),
    }
}

fn take_each(alloc: Global, text: &mut String, lane: &mut MemLane, steps: &str) -> Option<()> {
    for step in steps.split(" | ") {
        let (name, rest) = step.split_once(' ').unwrap_or((step, ""));
        take_step(alloc, text, lane, name, rest)?;
    }
    Some(())
}

/// Takes the steps of a line, and writes what comes of them.
pub fn take_steps(alloc: Global, text: &mut String, line: &str) -> Option<()> {
    let (part, steps) = line.split_once(" | ")?;
    let mut lane = lane_of(alloc, part)?;
    take_each(alloc, text, &mut lane, steps)?;
    write_lane(alloc, text, lane).ok()
}
