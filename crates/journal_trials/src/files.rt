//! A file of the system as a disk.
use crate::words::{bytes_of, number_of, push_bytes};
use edge_kit::Disk;
use edge_system::FileDisk;
use std::alloc::Global;
use std::fs;
use std::fs::{File, Files};
use std::io::Eprint;

/// Puts what a read at the start answers to a text, and the eight bytes of its buffer, which were nines.
fn push_read<D: Disk>(text: &mut String, disk: &mut D) -> Option<()> {
    let mut buf = [9; 8];
    let answer = disk.read(0, &mut buf);
    write!(text, "read {answer:?} [").ok()?;
    push_bytes(text, &buf)?;
    text.push(']').ok()
}

/// Puts what a write of these bytes at a place answers to a text.
fn push_write<D: Disk>(alloc: Global, text: &mut String, disk: &mut D, words: &str) -> Option<()> {
    let (at, bytes) = words.split_once(' ')?;
    let at = number_of(at)?;
    let bytes = bytes_of(alloc, bytes)?;
    let answer = disk.write_at(at, bytes.as_slice());
    write!(text, "write {answer:?}").ok()
}

/// Puts what a call of a disk answers to a text.
fn push_call<D: Disk>(alloc: Global, text: &mut String, disk: &mut D, call: &str) -> Option<()> {
    let (word, rest) = call.split_once(' ').unwrap_or((call, ""));
    match word {
        "len" => write!(text, "len {:?}", disk.len()).ok(),
        "sync" => write!(text, "sync {:?}", disk.sync()).ok(),
        "read" => push_read(text, disk),
        "cut" => write!(text, "cut {:?}", disk.cut(number_of(rest)?)).ok(),
        "write" => push_write(alloc, text, disk, rest),
        _ => None,
    }
}

/// Makes calls of the disk of a file, and puts what they answer to a text, and how often it has failed by then.
fn push_calls<R: Files<File = File> + Eprint + Drop>(
    alloc: Global,
    text: &mut String,
    disk: &mut FileDisk<R>,
    calls: &str,
) -> Option<()> {
    for call in calls.split(',') {
        push_call(alloc, text, disk, call.trim())?;
        text.push('\n').ok()?;
    }
    writeln!(text, "faults {}", disk.faults()).ok()
}

/// The disk of a path.
fn disk_at<R: Files<File = File> + Eprint + Drop>(
    rt: R,
    alloc: Global,
    path: &str,
) -> Option<FileDisk<R>> {
    let path = String::from_str(alloc, path).ok()?;
    Some(FileDisk::new(rt, path))
}

/// Makes calls of a disk of a path, and further ones of another one while the first is there, and again once that has ended.
fn push_two<R: Files<File = File> + Eprint + Copy + Drop>(
    rt: R,
    alloc: Global,
    text: &mut String,
    path: &str,
    calls: [&str; 3],
) -> Option<()> {
    let mut first = disk_at(rt, alloc, path)?;
    push_calls(alloc, text, &mut first, calls[0])?;
    let mut second = disk_at(rt, alloc, path)?;
    push_calls(alloc, text, &mut second, calls[1])?;
    drop(first);
    push_calls(alloc, text, &mut second, calls[2])
}

/// Makes calls of a disk of a path.
fn push_one<R: Files<File = File> + Eprint + Drop>(
    rt: R,
    alloc: Global,
    text: &mut String,
    path: &str,
    calls: &str,
) -> Option<()> {
    let mut disk = disk_at(rt, alloc, path)?;
    push_calls(alloc, text, &mut disk, calls)
}

/// Puts what calls of the disks of a file answer to a text that is not there before, and whether it is there after them.
pub fn play<R: Files<File = File> + Eprint>(
    rt: &R,
    alloc: Global,
    words: &str,
    text: &mut String,
) -> Option<()> {
    let mut words = words.split(" | ");
    let path = words.next()?;
    let calls = [words.next()?, words.next()?, words.next()?];
    let _ = fs::remove_file(rt, path);
    push_two(rt, alloc, text, path, calls)?;
    push_one(rt, alloc, text, path, words.next()?)?;
    let is_there = fs::remove_file(rt, path).is_ok();
    writeln!(text, "there {is_there}").ok()
}
