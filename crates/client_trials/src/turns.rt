//! The subject `turns`: turns of the duty loop. The first part of a line has the words `start=N`, when the clock starts;
//! `turns=N`, how many are taken; `watches=1` where keys are watched; `aggregates=1` where validators that are chosen
//! aggregate the votes of their committee; `late=MOMENT,SECONDS`, the wait that is over late; `jump=MOMENT,REACHED`,
//! the moment at which the wait for another is over; `keep=N` of how many epochs all is kept, all of it where that is
//! absent; and `joins=KEY`, the keys that become active after the first of two turns. The second part describes the
//! loop's own desk and node, and each further part a lane. The chain began at second 1000. Where not all is kept, what
//! is kept at the loop's own desk is written.
ghost use Rattle.std.specs.Prelude.{OnOk};
ghost use Rattle.duty_work.specs.Houses.{IsHolding};

use crate::answers::FORK;
use crate::clocks::{Jump, TrialClock};
use crate::lanes::{MemLane, activate_all, lane_of};
use crate::telling::{write_kept, write_lane};
use crate::words::{epoch_in, keys_in, number_in, numbers_in, root};
use duty_loop::{DutyEnd, Held, first_held, run_duties, take_turn};
use duty_plans::DutySetup;
use edge_clock::{Clock, Delay, MemClock};
use edge_kit::{MemSink, PubKey};
use std::alloc::{AllocError, Global};
use std::sync::Wait;
use std::thread::Threads;
use trial_lines::push_lossy;

/// What turns are taken by.
#[derive(Drop)]
struct Course {
    setup: DutySetup,
    clock: TrialClock,
    joining: Vec<PubKey>,
}

fn clock_of(alloc: Global, part: &str) -> Option<TrialClock> {
    let start = number_in(part, "start")?;
    let late = numbers_in(alloc, part, "late")?;
    let mut delays = Vec::new(alloc);
    if let [moment, seconds] = *late.as_slice() {
        delays.push(Delay { moment, seconds }).ok()?;
    }
    let jump = numbers_in(alloc, part, "jump")?;
    let jump = match *jump.as_slice() {
        [moment, reached] => Some(Jump { moment, reached }),
        _ => None,
    };
    Some(TrialClock::new(MemClock::new(start, delays), jump))
}

fn setup_of(alloc: Global, part: &str) -> Option<DutySetup> {
    let watch = number_in(part, "watches")? == 1;
    let aggregate = number_in(part, "aggregates")? == 1;
    let slots = number_in(part, "turns")?;
    let keep_epochs = match number_in(part, "keep")? {
        0 => None,
        epochs => Some(epochs),
    };
    let altair = epoch_in(alloc, part, "altair")?;
    Some(DutySetup {
        genesis: root(0),
        genesis_time: 1000,
        fork: FORK,
        altair,
        watch,
        aggregate,
        slots,
        keep_epochs,
    })
}

fn course_of(alloc: Global, part: &str) -> Option<Course> {
    let setup = setup_of(alloc, part)?;
    let clock = clock_of(alloc, part)?;
    let joining = keys_in(alloc, part, "joins")?;
    Some(Course {
        setup,
        clock,
        joining,
    })
}

fn lanes_of(alloc: Global, parts: &str) -> Option<Vec<MemLane>> {
    let mut lanes = Vec::new(alloc);
    for part in parts.split(" | ") {
        lanes.push(lane_of(alloc, part)?).ok()?;
    }
    Some(lanes)
}

/// Takes one turn, where there is a lane.
fn turn<R: Threads + Wait + Sync>(
    rt: &R,
    alloc: Global,
    course: &Course,
    held: &mut Held,
    own: &mut MemLane,
    lanes: &mut [MemLane],
    out: &mut MemSink,
) -> Result<(), DutyEnd>
    requires { IsHolding held.old }
    ensures { OnOk result (IsHolding held.new) }
{
    if lanes.is_empty() {
        return Ok(());
    }
    take_turn(
        rt,
        alloc,
        &course.setup,
        &course.clock,
        held,
        &mut own.desk,
        &mut own.nodes,
        lanes,
        out,
    )
}

/// Makes keys active at the loop's own desk and at those of the lanes.
fn join(keys: &[PubKey], own: &mut MemLane, lanes: &mut [MemLane]) {
    activate_all(&mut own.desk, keys, 1);
    for lane in lanes {
        activate_all(&mut lane.desk, keys, 1);
    }
}

/// Takes two turns, and makes the joining keys active between them.
fn take_two<R: Threads + Wait + Sync>(
    rt: &R,
    alloc: Global,
    course: &Course,
    own: &mut MemLane,
    lanes: &mut [MemLane],
    out: &mut MemSink,
) -> Result<(), DutyEnd> {
    let mut held = first_held(alloc, &course.setup, course.clock.now());
    turn(rt, alloc, course, &mut held, own, lanes, out)?;
    join(course.joining.as_slice(), own, lanes);
    turn(rt, alloc, course, &mut held, own, lanes, out)
}

/// Takes the turns of a course, where there is a lane.
fn take_turns<R: Threads + Wait + Sync>(
    rt: &R,
    alloc: Global,
    course: &Course,
    own: &mut MemLane,
    lanes: &mut [MemLane],
    out: &mut MemSink,
) -> Result<(), DutyEnd> {
    if lanes.is_empty() {
        return Ok(());
    }
    if !course.joining.is_empty() {
        return take_two(rt, alloc, course, own, lanes, out);
    }
    run_duties(
        rt,
        alloc,
        &course.setup,
        &course.clock,
        &mut own.desk,
        &mut own.nodes,
        lanes,
        out,
    )
}

/// Takes the turns of a course, and writes what they print and how they end.
fn write_turns<R: Threads + Wait + Sync>(
    rt: &R,
    alloc: Global,
    text: &mut String,
    course: &Course,
    own: &mut MemLane,
    lanes: &mut [MemLane],
) -> Option<()> {
    let mut out = MemSink::new(alloc, 4096, Vec::new(alloc)).ok()?;
    let ended = take_turns(rt, alloc, course, own, lanes, &mut out);
    push_lossy(alloc, text, out.into_bytes().as_slice()).ok()?;
    writeln!(text, "ended {ended:?}").ok()
}

/// Writes what the loop's own desk and node have come to: where not all is kept, what is.
fn write_own(
    alloc: Global,
    text: &mut String,
    course: &Course,
    own: MemLane,
) -> Result<(), AllocError> {
    if course.setup.keep_epochs.is_some() {
        return write_kept(alloc, text, own);
    }
    write_lane(alloc, text, own)
}

/// Writes what lanes have come to.
fn write_lanes(alloc: Global, text: &mut String, lanes: Vec<MemLane>) -> Result<(), AllocError> {
    for lane in lanes {
        write_lane(alloc, text, lane)?;
    }
    Ok(())
}

/// Takes the turns over the loop's own desk and node and over lanes, and writes what comes of them.
fn play_over<R: Threads + Wait + Sync>(
    rt: &R,
    alloc: Global,
    text: &mut String,
    course: &Course,
    parts: &str,
) -> Option<()> {
    let (own, lanes) = parts.split_once(" | ")?;
    let mut own = lane_of(alloc, own)?;
    let mut lanes = lanes_of(alloc, lanes)?;
    write_turns(rt, alloc, text, course, &mut own, lanes.as_mut_slice())?;
    write_own(alloc, text, course, own).ok()?;
    write_lanes(alloc, text, lanes).ok()
}

/// Takes the turns of a line, and writes what comes of them.
pub fn play<R: Threads + Wait + Sync>(
    rt: &R,
    alloc: Global,
    text: &mut String,
    line: &str,
) -> Option<()> {
    let (first, parts) = line.split_once(" | ")?;
    let course = course_of(alloc, first)?;
    play_over(rt, alloc, text, &course, parts)
}
