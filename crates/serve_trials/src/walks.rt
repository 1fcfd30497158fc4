//! Walks: a play at each number of a range, a row each.
use crate::meetings::Flags;
use crate::plays::{on_one_line, unmarked, words_of};
use crate::runs::{Left, outside_of, run};
use crate::scenes::{Scene, number_of};
use edge_kit::{Disks, MemDisk, MemLink, Root};
use std::alloc::{AllocError, Global};
use std::io;
use std::io::Print;
use std::rt::Clock;
use std::sync::Wait;
use std::thread::Threads;
use test_texts::{genesis_of, kept_words};

/// How many digits are shown of a longer row of hex digits.
const SHOWN_DIGITS: u64 = 8;

/// What came of a run.
#[derive(Drop)]
struct Came {
    code: u8,
    /// The lines that it wrote, and then what each connection was sent, a line each.
    wrote: String,
    disks: Disks<MemDisk>,
    genesis: Root,
}

/// A row, with what its runs and those of the row without a fault wrote.
#[derive(Drop)]
struct Row<'a> {
    usual: &'a [String],
    wrote: Vec<String>,
    text: String,
}

/// Rows that are alike, of numbers that follow one another.
#[derive(Drop)]
struct Alike {
    first: u64,
    last: u64,
    text: String,
}

/// Plays acts at each number from the first to the last one, which stands in the place of each `%`. A row has what came of
/// each run, with ` | ` between them: its status, and each line that it wrote, with `=` for one that is written there in
/// the play without a fault, too. That play, at a number that no call has, is the first row. Rows that follow one another
/// and are alike are one.
pub fn walk<T: Threads + Wait + Clock + Print + Sync>(
    rt: &T,
    alloc: Global,
    words: &str,
) -> io::Result<()> {
    let (first, rest) = words.split_once(' ').unwrap_or((words, ""));
    let (last, acts) = rest.split_once(' ').unwrap_or((rest, ""));
    let numbers = (number_of(first)?, number_of(last)?);
    let acts = unmarked(alloc, acts)?;
    let usual = row_at(rt, alloc, u64::MAX, acts.as_str(), &[])?;
    print_row(rt, alloc, "none", usual.text.as_str())?;
    walk_range(rt, alloc, numbers, acts.as_str(), usual.wrote.as_slice())
}

/// Plays acts at each number of a range.
fn walk_range<T: Threads + Wait + Clock + Print + Sync>(
    rt: &T,
    alloc: Global,
    numbers: (u64, u64),
    acts: &str,
    usual: &[String],
) -> io::Result<()> {
    let (first, last) = numbers;
    let mut alike = alike_at(first, row_at(rt, alloc, first, acts, usual)?);
    for number in first..=last {
        let row = row_at(rt, alloc, number, acts, usual)?;
        if alike.text.as_str() != row.text.as_str() {
            print_alike(rt, alloc, &alike)?;
            alike = alike_at(number, row);
        }
        alike.last = number;
    }
    print_alike(rt, alloc, &alike)
}

/// The row of a number alone.
fn alike_at(number: u64, row: Row) -> Alike {
    Alike {
        first: number,
        last: number,
        text: row.text,
    }
}

/// Writes rows that are alike as one.
fn print_alike<T: Print>(rt: &T, alloc: Global, alike: &Alike) -> io::Result<()> {
    let (first, last) = (alike.first, alike.last);
    let name = if first == last {
        format!(in alloc; "{first}")?
    } else {
        format!(in alloc; "{first} to {last}")?
    };
    print_row(rt, alloc, name.as_str(), alike.text.as_str())
}

/// Writes a row.
fn print_row<T: Print>(rt: &T, alloc: Global, name: &str, text: &str) -> io::Result<()> {
    let text = shortened(alloc, text)?;
    let text = text.as_str();
    println!(rt; "  {name}:{text}")
}

/// The row of a number.
fn row_at<'u, T: Threads + Wait + Clock + Sync>(
    rt: &T,
    alloc: Global,
    number: u64,
    acts: &str,
    usual: &'u [String],
) -> io::Result<Row<'u>> {
    let number = format!(in alloc; "{number}")?;
    let acts = acts.replace(alloc, "%", number.as_str())?;
    let mut row = Row {
        usual,
        wrote: Vec::new(alloc),
        text: String::new(alloc),
    };
    take_acts(rt, alloc, &mut row, acts.as_str())?;
    Ok(row)
}

/// Carries out acts, and puts what came of their runs into a row.
fn take_acts<T: Threads + Wait + Clock + Sync>(
    rt: &T,
    alloc: Global,
    row: &mut Row,
    acts: &str,
) -> io::Result<()> {
    let mut scene = Scene::new(alloc);
    for act in acts.split(" | ") {
        take_act(rt, alloc, &mut scene, row, act)?;
    }
    Ok(())
}

/// Carries out an act: `before WORDS` does what the words say, of which the row has nothing; `run WORDS` does so too, and
/// the row has what came of it and what a desk over the disks that are left says of each key; `then WORDS` is a run that
/// leaves the disks as they were before it.
fn take_act<'a, T: Threads + Wait + Clock + Sync>(
    rt: &T,
    alloc: Global,
    scene: &mut Scene<'a>,
    row: &mut Row,
    act: &'a str,
) -> io::Result<()> {
    match act.split_once(' ').unwrap_or((act, "")) {
        ("before", words) => {
            let came = came_of(rt, alloc, scene, words)?;
            scene.hold(alloc, &came.disks)
        }
        ("run", words) => run_in(rt, alloc, scene, row, words),
        ("then", words) => {
            let came = came_of(rt, alloc, scene, words)?;
            scene.forget();
            row.take(alloc, came)
        }
        (name, text) => scene.set(alloc, name, text),
    }
}

/// Does what words say, and leaves the disks to the next run.
fn run_in<T: Threads + Wait + Clock + Sync>(
    rt: &T,
    alloc: Global,
    scene: &mut Scene,
    row: &mut Row,
    words: &str,
) -> io::Result<()> {
    let came = came_of(rt, alloc, scene, words)?;
    scene.hold(alloc, &came.disks)?;
    let kept = kept_words(alloc, &scene.sound_disks(alloc)?, came.genesis)?;
    row.take(alloc, came)?;
    row.push_lines("kept ", kept.as_str())
}

/// What comes of words.
fn came_of<T: Threads + Wait + Clock + Sync>(
    rt: &T,
    alloc: Global,
    scene: &Scene,
    words: &str,
) -> io::Result<Came> {
    let said = scene.said(alloc)?;
    let flags = Flags::new(scene.waits(alloc)?);
    let words = words_of(alloc, words)?;
    let genesis = genesis_of(words.as_slice());
    let outside = outside_of(rt, alloc, scene, said.as_slice(), &flags)?;
    let Left { ending, output } = run(rt, alloc, words.as_slice(), outside);
    let finished = ending.door.door.into_finished();
    Ok(Came {
        code: ending.status.code(),
        wrote: written(alloc, output.as_slice(), finished)?,
        disks: ending.disks,
        genesis,
    })
}

/// The lines of an output, and what each connection was sent.
fn written(alloc: Global, output: &[u8], finished: Vec<MemLink>) -> Result<String, AllocError> {
    let mut text = String::from_utf8_lossy(alloc, output)?;
    if !output.is_empty() && !output.ends_with(b"\n") {
        text.push_str(" (no end)\n")?;
    }
    for link in finished {
        let sent = on_one_line(alloc, link.into_sent().as_slice())?;
        writeln!(text, "sent {}", sent.as_str())?;
    }
    Ok(text)
}

impl<'a> Row<'a> {
    /// Takes in what came of a run: its status, and each line that the run of the row without a fault did not write at
    /// that place.
    fn take(&mut self, alloc: Global, came: Came) -> io::Result<()> {
        let usual = match self.usual.get(self.wrote.len()) {
            Some(usual) => usual.as_str(),
            None => "",
        };
        let lines = unusual(alloc, came.wrote.as_str(), usual)?;
        write!(self.text, " | status {}", came.code)?;
        self.push_lines("", lines.as_str())?;
        Ok(self.wrote.push(came.wrote)?)
    }

    /// Adds lines, each with a mark before it.
    fn push_lines(&mut self, mark: &str, lines: &str) -> io::Result<()> {
        for line in lines.lines() {
            write!(self.text, " / {mark}{line}")?;
        }
        Ok(())
    }
}

/// Lines, with `=` for each that stands at the same place of others.
fn unusual(alloc: Global, lines: &str, usual: &str) -> Result<String, AllocError> {
    let mut text = String::new(alloc);
    let mut others = usual.lines();
    for line in lines.lines() {
        let other = others.next().unwrap_or("");
        let shown = if line == other { "=" } else { line };
        writeln!(text, "{shown}")?;
    }
    Ok(text)
}

/// The text with the first digits of each long row of hex digits.
fn shortened(alloc: Global, text: &str) -> Result<String, AllocError> {
    let mut short = String::new(alloc);
    let mut digits = 0u64;
    for letter in text.chars() {
        digits = if letter.is_ascii_hexdigit() {
            digits.saturating_add(1)
        } else {
            0
        };
        if digits <= SHOWN_DIGITS {
            short.push(letter)?;
        }
    }
    Ok(short)
}
