//! `books STEP | STEP ..`: what becomes of the records of no key by these steps, in order, a line for each.
//! `joined STEP | STEP .. & STEP | STEP ..`: in the same way of two, and what is kept when the second is joined to the first.
//!
//! | Step | What it does |
//! |---|---|
//! | `fill COUNT` | keeps that many keys, by the numbers from 0 on |
//! | `begin KEY` | keeps a key, and lists it if it was not kept |
//! | `insert KEY` | keeps a key with an empty record |
//! | `merge KEY ENTRIES` | merges a file that lists the key alone |
//! | `ready KEY ENTRIES` | the same in two calls |
//! | `back KEY ENTRIES` | takes back the first of the two |
//! | `sign KEY MESSAGE` | judges the message, and adds it where it may be |
//! | `judge KEY MESSAGE` | the same where there is no room |
//! | `keep KEY` | asks for all that is kept of a key |
//! | `keys` | asks how many keys are kept, and how many are listed |
ghost use Rattle.std.specs.Prelude.{IfSome};
ghost use Rattle.record_join.specs.BooksPasts.{EachOnce};

use crate::entries::{book_of, message_of, put_record};
use crate::fixed_bytes::{key_at, key_of, put_bytes};
use crate::verdicts::put_judged;
use edge_kit::{Items, PubKey, Root};
use protect_record::Record;
use record_join::{Books, Fresh, Judged, MergeFault};
use slash_defs::{File, Message};
use std::alloc::{AllocError, Global};
use std::fmt::Display;

/// The file that lists a key alone, with the entries that a text writes.
fn file_of(alloc: Global, key: PubKey, text: &str) -> Option<File>
    ensures { IfSome result (λ file. EachOnce file.books) }
{
    let book = book_of(alloc, text)?;
    let mut books = Vec::new(alloc);
    books.push((key, book)).ok()?;
    Some(File {
        genesis: Root([0xaa; 32]),
        books: Items::from_vec(books),
    })
}

/// How a message is judged by the books, which it is added to where it may be.
fn sign(books: &mut Books, key: &PubKey, message: &Message, has_room: bool) -> Judged {
    let judged = books.judge(key, message, has_room);
    if let Judged::Ready { .. } = judged {
        books.add(key, message);
    }
    judged
}

/// Keeps that many keys, by the numbers from 0 on.
fn fill(books: &mut Books, count: u64) -> Option<()> {
    for number in 0..count {
        let number = u16::try_from(number).ok()?;
        let _ = books.prepare_key(key_at(number)).ok()?;
    }
    Some(())
}

/// Puts the keys that were not kept before after a text.
fn put_fresh(alloc: Global, out: &mut String, fresh: &Fresh) -> Result<(), AllocError> {
    out.push_str("new")?;
    for key in fresh.as_slice() {
        out.push(' ')?;
        put_bytes(alloc, out, &key.0)?;
    }
    Ok(())
}

/// Puts after a text whether something was done, or why not.
fn put_done<E: Display + Drop>(out: &mut String, done: Result<(), E>) -> Result<(), AllocError> {
    match done {
        Ok(()) => Ok(out.push_str("done")?),
        Err(fault) => write!(out, "{fault}"),
    }
}

/// Makes ready for a file, and merges it.
fn merge_in_two(books: &mut Books, file: &File) -> Result<(), MergeFault>
    requires { EachOnce file.now.books }
{
    let _ = books.prepare(file.books.as_slice(), true)?;
    books.merge_prepared(file.books.as_slice());
    Ok(())
}

/// Makes ready for a file, puts the keys that were not kept after a text, and takes back what was made ready.
fn put_back(alloc: Global, out: &mut String, books: &mut Books, file: &File) -> Option<()>
    requires { EachOnce file.now.books }
{
    let fresh = books.prepare(file.books.as_slice(), true).ok()?;
    put_fresh(alloc, out, &fresh).ok()?;
    books.take_back(fresh);
    Some(())
}

/// Takes a step of a file.
fn take_file(
    alloc: Global,
    out: &mut String,
    books: &mut Books,
    word: &str,
    file: &File,
) -> Option<()>
    requires { EachOnce file.now.books }
{
    match word {
        "merge" => put_done(out, books.merge_file(file, true)).ok(),
        "ready" => put_done(out, merge_in_two(books, file)).ok(),
        "back" => put_back(alloc, out, books, file),
        _ => None,
    }
}

/// Keeps a key, and puts it after a text if it was not kept.
fn put_begun(alloc: Global, out: &mut String, books: &mut Books, key: PubKey) -> Option<()> {
    match books.prepare_key(key) {
        Ok(fresh) => put_fresh(alloc, out, &fresh).ok(),
        Err(fault) => put_done(out, Err(fault)).ok(),
    }
}

/// Puts what is kept of a key after a text.
fn put_kept(
    alloc: Global,
    out: &mut String,
    books: &Books,
    key: &PubKey,
) -> Result<(), AllocError> {
    match books.get(key) {
        Some(record) => put_record(alloc, out, record),
        None => Ok(out.push_str("not kept")?),
    }
}

/// Takes a step of a key.
fn take_key(
    alloc: Global,
    out: &mut String,
    books: &mut Books,
    word: &str,
    key: PubKey,
    rest: &str,
) -> Option<()> {
    match word {
        "begin" => put_begun(alloc, out, books, key),
        "insert" => put_done(out, books.insert(key, Record::new(alloc))).ok(),
        "keep" => put_kept(alloc, out, books, &key).ok(),
        "sign" | "judge" => {
            let judged = sign(books, &key, &message_of(rest)?, word == "sign");
            put_judged(alloc, out, &judged).ok()
        }
        _ => take_file(alloc, out, books, word, &file_of(alloc, key, rest)?),
    }
}

/// Puts how many keys are kept, and how many are listed, after a text.
fn put_count(alloc: Global, out: &mut String, books: &Books) -> Result<(), AllocError> {
    let listed = books.keys(alloc)?.len();
    write!(out, "{} kept, {listed} listed", books.len())
}

/// Takes a step.
fn take(alloc: Global, out: &mut String, books: &mut Books, step: &str) -> Option<()> {
    let (word, rest) = step.split_once(' ').unwrap_or((step, ""));
    match word {
        "fill" => fill(books, rest.parse::<u64>().ok()?),
        "keys" => put_count(alloc, out, books).ok(),
        _ => {
            let (key, rest) = rest.split_once(' ').unwrap_or((rest, ""));
            take_key(alloc, out, books, word, key_of(key)?, rest)
        }
    }
}

/// Puts a line of a step after a text, and takes the step.
fn put_step(alloc: Global, out: &mut String, books: &mut Books, step: &str) -> Option<()> {
    write!(out, "{step}: ").ok()?;
    take(alloc, out, books, step)?;
    out.push('\n').ok()
}

/// The records after these steps, of which each puts a line after a text.
fn run(alloc: Global, out: &mut String, steps: &str) -> Option<Books> {
    let mut books = Books::new(alloc);
    for step in steps.split('|') {
        put_step(alloc, out, &mut books, step.trim())?;
    }
    Some(books)
}

/// What comes of the steps.
pub fn outcome(alloc: Global, steps: &str) -> Option<String> {
    let mut out = String::new(alloc);
    let _ = run(alloc, &mut out, steps)?;
    Some(out)
}

/// Puts all that is kept after a text, a line for each key.
pub fn put_books(alloc: Global, out: &mut String, books: &Books) -> Result<(), AllocError> {
    for (key, record) in books.iter() {
        put_bytes(alloc, out, &key.0)?;
        out.push_str(": ")?;
        put_record(alloc, out, record)?;
        out.push('\n')?;
    }
    Ok(())
}

/// Joins the records after these steps to others.
fn join(alloc: Global, out: &mut String, books: &mut Books, steps: &str) -> Option<()> {
    let others = run(alloc, out, steps)?;
    books.join(&others).ok()
}

/// Puts what comes of the steps of two after a text, and all that is kept where the second is joined to the first.
fn put_joined(alloc: Global, out: &mut String, steps: &str, others: &str) -> Option<()> {
    let mut books = run(alloc, out, steps)?;
    join(alloc, out, &mut books, others)?;
    put_books(alloc, out, &books).ok()
}

/// What comes of the steps of two, and of joining the second to the first.
pub fn outcome_of_join(alloc: Global, steps: &str) -> Option<String> {
    let (steps, others) = steps.split_once('&')?;
    let mut out = String::new(alloc);
    put_joined(alloc, &mut out, steps, others)?;
    Some(out)
}
