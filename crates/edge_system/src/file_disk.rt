//! A file of the system as a disk. It tells nothing of its content.
ghost use Rattle.std.specs.Prelude.{◌≡◌, ◌≤◌, ◌<◌, length, IfOk, None, OnOk, Some};
ghost use Rattle.std.specs.Result.{result_ok};
ghost use Rattle.edge_kit.specs.Causes.{HasCause};

use crate::open_file::open_apart;
use crate::streams::{StandardStream, Standing};
use crate::told::counted;
use edge_kit::{Disk, Failed, count_fault};
use std::fs::{File, Files, OpenFile};
use std::io;
use std::io::{Eprint, ErrorKind, Read, Seek, SeekFrom, Write};

/// The file of a path, with a count of its failures. It is opened at the first call, created where it is
/// absent, for its owner alone, locked against every other open of it until the end, and its directory is synced
/// then. A file that is locked already is a failure, and so is one that is no regular file (a link to one may
/// stand), the file at the path that it is to be apart from, or that of a standard stream. Once it failed, each later call does: a system may forget what it could not
/// write, and answer the next sync well. What the system says of a failure is told on standard error.
#[derive(Drop)]
pub struct FileDisk<R: Files<File = File> + Eprint + Drop> {
    handle: R,
    path: String,
    other: Option<String>,
    file: Option<File>,
    faults: u64,
}

impl<R: Files<File = File> + Eprint + Drop> FileDisk<R> {
    /// The file of a path, not opened yet.
    pub fn new(handle: R, path: String) -> Self
        ensures handle { result.handle ≡ handle }
        ensures path { result.path ≡ path }
        ensures other { result.other ≡ None }
        ensures faults { result.faults ≡ 0 }
    {
        FileDisk {
            handle,
            path,
            other: None,
            file: None,
            faults: 0,
        }
    }

    /// The same, as a file that is never the one at this other path.
    pub fn apart_from(mut self, other: String) -> Self
        ensures handle { result.handle ≡ self.handle }
        ensures path { result.path ≡ self.path }
        ensures other { result.other ≡ Some other }
        ensures faults { result.faults ≡ self.faults }
    {
        self.other = Some(other);
        self
    }

    /// How many calls have failed.
    pub fn faults(&self) -> u64
        ensures { result ≡ self.now.faults }
    {
        self.faults
    }
}

// Reads until the buffer is full or the file ends.
fn read_full<F: Read + Seek>(file: &mut F, at: u64, buf: &mut [u8]) -> io::Result<usize>
    ensures { IfOk result (λ n. n ≤ length buf.new) }
{
    file.seek(SeekFrom::Start(at))?;
    let mut filled = 0;
    'filling: for _ in 0..u64::MAX {
        if filled == buf.len() {
            return Ok(filled);
        }
        match file.read(&mut buf[filled..]) {
            Ok(0) => return Ok(filled),
            Ok(count) => filled += count,
            Err(e) if e.kind() == ErrorKind::Interrupted => {}
            Err(e) => return Err(e),
        }
    }
    Ok(filled)
}

// Writes all the bytes.
fn write_full<F: Write + Seek>(file: &mut F, at: u64, bytes: &[u8]) -> io::Result<()> {
    file.seek(SeekFrom::Start(at))?;
    let mut done = 0;
    'writing: for _ in 0..u64::MAX {
        if done == bytes.len() {
            return Ok(());
        }
        match file.write(&bytes[done..]) {
            Ok(0) => return Err(io::Error::from(ErrorKind::WriteZero)),
            Ok(count) => done += count,
            Err(e) if e.kind() == ErrorKind::Interrupted => {}
            Err(e) => return Err(e),
        }
    }
    Err(io::Error::from(ErrorKind::WriteZero))
}

// Cuts a file that is longer.
fn cut_to<F: Seek + OpenFile>(file: &mut F, len: u64) -> io::Result<()> {
    if len < file.seek(SeekFrom::End(0))? {
        file.set_len(len)?;
    }
    Ok(())
}

impl<R: Files<File = File> + Eprint + Drop> FileDisk<R> {
    // The file for one call, opened where it isn't yet; none once a call has failed.
    fn take(&mut self) -> Result<File, Failed>
        ensures cause { HasCause self.old.faults self.new.faults result }
        ensures unfailed { OnOk result (self.old.faults ≡ 0) }
    {
        if self.faults > 0 {
            return Err(count_fault(&mut self.faults));
        }
        match self.file.take() {
            Some(file) => Ok(file),
            None => self.open(),
        }
    }

    // Opens the file. A failure is counted, and told only where standard error is apart from the journal.
    fn open(&mut self) -> Result<File, Failed>
        ensures cause { HasCause self.old.faults self.new.faults result }
    {
        let other = self.other.as_ref().map(|other| other.as_str());
        match open_apart(&self.handle, &self.path, other) {
            Err(_) if !self.may_tell() => Err(count_fault(&mut self.faults)),
            opened => counted(opened, &self.handle, self.path.as_str(), &mut self.faults),
        }
    }

    // Whether standard error is apart from the journal.
    fn may_tell(&self) -> bool {
        let path = self.path.as_str();
        let other = self.other.as_ref().map_or(path, |other| other.as_str());
        StandardStream::Error.standing(&self.handle, Some((path, other))) == Standing::Apart
    }

    // Puts the file back after a call, whose failure is counted.
    fn give_back<T>(&mut self, file: File, done: io::Result<T>) -> Result<T, Failed>
        ensures same { result_ok result ≡ result_ok done }
        ensures cause { HasCause self.old.faults self.new.faults result }
    {
        self.file = Some(file);
        counted(done, &self.handle, self.path.as_str(), &mut self.faults)
    }
}

impl<R: Files<File = File> + Eprint + Drop> Disk for FileDisk<R> {
    ghost shows = { λ d c. ⊥ };

    ghost moment = { λ d. 0 };

    ghost leaves = { λ d k c. ⊥ };

    ghost faults = { λ d. d.faults };

    fn len(&mut self) -> Result<u64, Failed> {
        let mut file = self.take()?;
        let done = file.seek(SeekFrom::End(0));
        self.give_back(file, done)
    }

    fn read(&mut self, at: u64, buf: &mut [u8]) -> Result<usize, Failed> {
        let mut file = self.take()?;
        let done = read_full(&mut file, at, buf);
        self.give_back(file, done)
    }

    fn write_at(&mut self, at: u64, bytes: &[u8]) -> Result<(), Failed> {
        let mut file = self.take()?;
        let done = write_full(&mut file, at, bytes);
        self.give_back(file, done)
    }

    fn cut(&mut self, len: u64) -> Result<(), Failed> {
        let mut file = self.take()?;
        let done = cut_to(&mut file, len);
        self.give_back(file, done)
    }

    fn sync(&mut self) -> Result<(), Failed> {
        let file = self.take()?;
        let done = file.sync_all();
        self.give_back(file, done)
    }
}
