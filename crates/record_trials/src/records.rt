//! `record STEP | STEP ..`: what becomes of an empty record by these steps, in order. A step that
//! changes it writes nothing, and one that asks writes a line.
//!
//! | Step | What it does |
//! |---|---|
//! | `merge ENTRIES` | merges a book |
//! | `parts FLOORS of ENTRIES` | begins anew with these floors and entries |
//! | `prune` | prunes |
//! | `twice` | goes on with an empty record that this one was joined to twice |
//! | `propose MESSAGE` | checks the message, and adds it where it passes |
//! | `check MESSAGE` | checks it alone |
//! | `count MESSAGE` | checks a block, and counts its steps |
//! | `keeps MESSAGE` | asks whether it is kept |
//! | `keep` | asks for all that is kept |
//! | `export` | asks for the exported book |
ghost use Rattle.std.specs.Prelude.{◌≡◌, ◌≢◌, ◌+◌, ◌<◌, ◌≤◌, All, length};

use crate::entries::{
    Entries, book_of, entries_of, message_of, put_block, put_record, put_vote, record_of,
};
use crate::verdicts::put_verdict;
use edge_kit::Root;
use protect_record::{Floors, Record, Steps, Verdict};
use slash_defs::{Book, Message, VoteEntry};
use std::alloc::{AllocError, Global};
use std::marker::Brand;
use std::sync::ledger::{Blank, Ledger};

/// The floors that entries stand for: the first block's and the first vote's.
fn floors_of(least: &Entries) -> Floors {
    Floors {
        block: least.blocks.first().map(|entry| entry.slot),
        vote: least
            .votes
            .first()
            .map(|entry| (entry.source, entry.target)),
    }
}

/// The record of the floors and the entries that a text writes, with ` of ` between them.
fn parts(alloc: Global, text: &str) -> Option<Record> {
    let (least, kept) = text.split_once(" of ")?;
    let floors = floors_of(&entries_of(alloc, least)?);
    record_of(alloc, floors, kept)
}

/// An empty record that another is joined to twice.
fn joined_twice(alloc: Global, record: &Record) -> Result<Record, AllocError> {
    let mut joined = Record::new(alloc);
    joined.join(record)?;
    joined.join(record)?;
    Ok(joined)
}

/// Records a message if it passes, and gives the verdict.
fn propose(record: &mut Record, message: &Message) -> Result<Verdict, AllocError> {
    record.reserve(1, 1)?;
    let verdict = record.check(message);
    if let Verdict::Pass = verdict {
        record.add(message);
    }
    Ok(verdict)
}

/// A check of a block. Among a thousand kept ones, none of its slot, it takes at most 11 steps.
fn counted_check<L: Ledger>(record: &Record, slot: u64, root: Root, steps: &mut Steps<L>) -> Verdict
    ensures { length «record».now.blocks ≡ 1000 → All (λ e. e.slot ≢ slot) «record».now.blocks → steps.new ≤ steps.old + 11 }
{
    record.check_counted(&Message::Block { slot, root }, steps)
}

/// A check of a block, whose steps are counted from none.
fn check_in<L: Ledger>(record: &Record, slot: u64, root: Root, blank: Blank) -> Verdict
    requires name { blank.name ≡ L.name }
    requires parts { blank.parts ≡ L.parts }
    requires some { 0 < blank.parts }
{
    let mut steps = Steps::<L>::new(blank);
    counted_check(record, slot, root, &mut steps)
}

/// A check of a block, whose steps are counted.
fn count(record: &Record, slot: u64, root: Root) -> Verdict {
    check_in::<Brand>(record, slot, root, Blank::new(1))
}

/// The verdict that a step asks for.
fn verdict_on(record: &mut Record, word: &str, message: &Message) -> Option<Verdict> {
    match (word, *message) {
        ("propose", _) => propose(record, message).ok(),
        ("check", _) => Some(record.check(message)),
        ("count", Message::Block { slot, root }) => Some(count(record, slot, root)),
        _ => None,
    }
}

fn put_votes(alloc: Global, out: &mut String, votes: &[VoteEntry]) -> Result<(), AllocError> {
    for vote in votes {
        put_vote(alloc, out, vote)?;
    }
    Ok(())
}

fn put_book(alloc: Global, out: &mut String, book: &Book) -> Result<(), AllocError> {
    for block in book.blocks.as_slice() {
        put_block(alloc, out, block)?;
    }
    put_votes(alloc, out, book.votes.as_slice())
}

/// Puts what a step of a message asks for after a text.
fn put_judged(
    alloc: Global,
    out: &mut String,
    record: &mut Record,
    word: &str,
    message: &Message,
) -> Option<()> {
    if word == "keeps" {
        return write!(out, "{}", record.keeps(message)).ok();
    }
    let verdict = verdict_on(record, word, message)?;
    put_verdict(alloc, out, &verdict).ok()
}

/// Puts what a step asks for after a text.
fn put_answer(
    alloc: Global,
    out: &mut String,
    record: &mut Record,
    word: &str,
    rest: &str,
) -> Option<()> {
    match word {
        "keep" => put_record(alloc, out, record).ok(),
        "export" => put_book(alloc, out, &record.export(alloc).ok()?).ok(),
        _ => put_judged(alloc, out, record, word, &message_of(rest)?),
    }
}

/// Takes a step that asks.
fn ask(alloc: Global, out: &mut String, record: &mut Record, step: &str) -> Option<()> {
    let (word, rest) = step.split_once(' ').unwrap_or((step, ""));
    write!(out, "{step}: ").ok()?;
    put_answer(alloc, out, record, word, rest)?;
    out.push('\n').ok()
}

/// Takes a step.
fn take(alloc: Global, out: &mut String, record: &mut Record, step: &str) -> Option<()> {
    let (word, rest) = step.split_once(' ').unwrap_or((step, ""));
    match word {
        "merge" => record.merge_book(&book_of(alloc, rest)?).ok()?,
        "parts" => *record = parts(alloc, rest)?,
        "prune" => record.prune().ok()?,
        "twice" => *record = joined_twice(alloc, record).ok()?,
        _ => ask(alloc, out, record, step)?,
    }
    Some(())
}

/// Takes the steps.
fn take_all(alloc: Global, out: &mut String, record: &mut Record, steps: &str) -> Option<()> {
    for step in steps.split('|') {
        take(alloc, out, record, step.trim())?;
    }
    Some(())
}

/// What comes of the steps.
pub fn outcome(alloc: Global, steps: &str) -> Option<String> {
    let mut out = String::new(alloc);
    take_all(alloc, &mut out, &mut Record::new(alloc), steps)?;
    Some(out)
}
