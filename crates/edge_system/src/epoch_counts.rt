//! Duties counted by epoch.
use crate::epoch_notes::EpochNotes;
use crate::reports::Reports;
use edge_kit::{Failed, Sink};
use std::alloc::Global;
use std::fmt;
use std::fmt::{Display, Formatter};
use std::io::Eprint;
use std::rt::Clock;

/// How many slots an epoch has (consensus-specs, `SLOTS_PER_EPOCH`).
const SLOTS_PER_EPOCH: u64 = 32;

/// How many bytes of a line are looked at.
const LINE_BYTES: usize = 256;

/// How a duty ended, or that the line is of a question that no node answered.
#[derive(Clone, Copy)]
enum Ending {
    Sent,
    Refused,
    Missed,
    NoAnswer,
}

/// What a line says of a slot.
#[derive(Clone, Copy)]
struct SlotLine {
    slot: u64,
    ending: Ending,
}

/// How the duties of an epoch ended.
#[derive(Clone, Copy)]
struct Counts {
    epoch: u64,
    sent: u64,
    refused: u64,
    missed: u64,
    without_answer: u64,
    /// How many keys were active at the last line.
    keys: u64,
    /// How many tenths of a second after the votes of its slot were due the latest line came.
    slowest: u64,
}

impl Counts {
    // Those of an epoch of which no line came yet.
    fn of(epoch: u64) -> Self {
        Counts {
            epoch,
            sent: 0,
            refused: 0,
            missed: 0,
            without_answer: 0,
            keys: 0,
            slowest: 0,
        }
    }

    // Counts what a line says.
    fn count(&mut self, ending: Ending) {
        match ending {
            Ending::Sent => add_one(&mut self.sent),
            Ending::Refused => add_one(&mut self.refused),
            Ending::Missed => add_one(&mut self.missed),
            Ending::NoAnswer => add_one(&mut self.without_answer),
        }
    }

    // Notes that so many keys are active now, and that a duty's line comes so many tenths of a second after the votes of its
    // slot were due.
    fn note(&mut self, keys: u64, tenths: u64) {
        self.keys = keys;
        self.slowest = self.slowest.max(tenths);
    }

    // How many duties were done.
    fn duties(&self) -> u64 {
        self.sent
            .saturating_add(self.refused)
            .saturating_add(self.missed)
    }
}

impl Display for Counts {
    fn fmt<W: fmt::Write>(&self, f: &mut Formatter<W>) -> fmt::Result {
        write!(
            f,
            "epoch {}: {} keys; {} duties, {} sent, {} refused, {} missed; {} questions without an answer; slowest {}.{} s",
            self.epoch,
            self.keys,
            self.duties(),
            self.sent,
            self.refused,
            self.missed,
            self.without_answer,
            self.slowest / 10,
            self.slowest % 10
        )
    }
}

/// The line that is being written, and what was counted of those before it.
#[derive(Drop)]
struct Tally<'a, E> {
    handle: E,
    notes: &'a EpochNotes,
    reports: Reports,
    line: Vec<u8>,
    counts: Counts,
}

impl<E: Eprint + Clock> Tally<'_, E> {
    // Looks at bytes that were written.
    fn look_at(&mut self, bytes: &[u8]) {
        for byte in bytes {
            if *byte == b'\n' {
                self.take();
                self.line.clear();
            } else if self.line.len() < LINE_BYTES {
                let _ = self.line.push(*byte);
            }
        }
    }

    // Counts what the line says, if it is of a slot.
    fn take(&mut self) {
        if let Some(line) = slot_line(self.line.as_slice()) {
            self.begin_epoch(line.slot / SLOTS_PER_EPOCH);
            self.counts.count(line.ending);
            if !matches!(line.ending, Ending::NoAnswer) {
                self.note_duty();
            }
        }
    }

    // Notes what is known now of the keys and of the time that the duties took.
    fn note_duty(&mut self) {
        let tenths = self.notes.tenths_after(&self.handle).unwrap_or(0);
        self.counts.note(self.notes.keys(), tenths);
    }

    // What was counted before is reported where it is of another epoch than this.
    fn begin_epoch(&mut self, epoch: u64) {
        if epoch != self.counts.epoch {
            report(&self.counts, &self.handle, self.reports);
            self.counts = Counts::of(epoch);
        }
    }
}

/// An output of duty lines, which reports on standard error what they say of each epoch, in one line once a line of another
/// epoch comes or nothing more is written, with how many keys are active, and how many seconds past the moment at which the votes of a slot are due the
/// lines of the slowest came. What is written goes to the output behind it, unchanged.
#[derive(Drop)]
pub struct EpochCounts<'a, O, E> {
    inner: O,
    tally: Tally<'a, E>,
}

impl<'a, O, E> EpochCounts<'a, O, E> {
    /// Such an output, before another one. It reports by this handle, where what is no fault is to be reported, and reads
    /// these notes.
    pub fn new(
        alloc: Global,
        inner: O,
        handle: E,
        notes: &'a EpochNotes,
        reports: Reports,
    ) -> Self {
        EpochCounts {
            inner,
            tally: Tally {
                handle,
                notes,
                reports,
                line: Vec::new(alloc),
                counts: Counts::of(0),
            },
        }
    }
}

impl<O, E: Eprint + Clock> EpochCounts<'_, O, E> {
    /// Reports what was counted of the epoch at hand. For an output to which nothing more is written.
    pub fn end(&self) {
        report(&self.tally.counts, &self.tally.handle, self.tally.reports);
    }
}

impl<O: Sink, E: Eprint + Clock> Sink for EpochCounts<'_, O, E> {
    ghost held = { λ s. O.held s.inner };

    ghost faults = { λ s. O.faults s.inner };

    fn write(&mut self, piece: &[u8]) -> Result<usize, Failed> {
        let written = self.inner.write(piece);
        if let Ok(count) = &written {
            let bytes = piece.get(..*count).unwrap_or(piece);
            self.tally.look_at(bytes);
        }
        written
    }
}

// Counts one more.
fn add_one(count: &mut u64) {
    *count = count.saturating_add(1);
}

// Reports what was counted, if anything was, and what is no fault is to be reported.
fn report<E: Eprint>(counts: &Counts, handle: &E, reports: Reports) {
    if reports.has_news() && (counts.duties() > 0 || counts.without_answer > 0) {
        let counts = *counts;
        let _ = eprintln!(handle; "{counts}");
    }
}

// What a line says of a slot, if it is of one.
fn slot_line(line: &[u8]) -> Option<SlotLine> {
    let text = str::from_utf8(line).ok()?;
    let (slot, what) = text.split_once(' ')?;
    Some(SlotLine {
        slot: slot.parse::<u64>().ok()?,
        ending: ending_of(what),
    })
}

// How the duty ended of which a line says this.
fn ending_of(what: &str) -> Ending {
    match result_of(what) {
        None => Ending::NoAnswer,
        Some("sent") => Ending::Sent,
        Some(result) if result.starts_with("refused") => Ending::Refused,
        Some(_) => Ending::Missed,
    }
}

// The result of the duty of which a line says this; none where it is of no duty.
fn result_of(what: &str) -> Option<&str> {
    let (_, rest) = what.split_once(' ')?;
    let (_, result) = rest.split_once(' ')?;
    Some(result)
}
