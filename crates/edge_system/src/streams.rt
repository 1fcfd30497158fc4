//! The three standard streams of the process: that none of their numbers is free for another file, and which file is
//! theirs.
ghost use Rattle.std.specs.Prelude.{◌≡◌, ◌↔◌, IsTrue, None};

use std::fs::{File, Files, Metadata};
use std::io::{ErrorKind, Read};
use std::os::fd::AsRawFd;
use std::os::unix::fs::{FileTypeExt, MetadataExt};
use std::{fs, io};

/// What stands in for a stream that was closed when the program started.
const NULL: &str = "/dev/null";

/// What stands at bytes 1 to 8 of a journal's file.
const MAGIC: &[u8; 8] = b"VKHJRN01";

/// A standard stream, by the file that the system shows for its number.
#[derive(Clone, Copy)]
pub enum StandardStream {
    Input,
    Output,
    Error,
}

/// What stands in for those standard streams that were closed when the program started: `/dev/null`, open for reading
/// alone, so that such an input is empty, and each write to such an output fails. As long as it is kept, no other file
/// gets a number of theirs, and what is meant for a stream goes into no file.
#[derive(Drop)]
pub struct StandardStreams {
    input: Option<File>,
    output: Option<File>,
    error: Option<File>,
}

impl StandardStreams {
    /// Takes the numbers 0, 1 and 2, where one is free. Call it before anything is opened: an open gets the lowest
    /// number that is free. Fails where `/dev/null` cannot be opened, or is no device of characters, or the process may
    /// open no more files.
    pub fn take<R: Files<File = File>>(files: &R) -> io::Result<Self> {
        let mut streams = StandardStreams {
            input: None,
            output: None,
            error: None,
        };
        for _ in 0..3u8 {
            let null = open_null(files)?;
            match null.as_raw_fd() {
                0 => streams.input = Some(null),
                1 => streams.output = Some(null),
                2 => streams.error = Some(null),
                _ => return Ok(streams),
            }
        }
        Ok(streams)
    }

    /// Whether standard output was open when the program started.
    pub fn has_output(&self) -> bool
        ensures { IsTrue result ↔ self.now.output ≡ None }
    {
        self.output.is_none()
    }
}

// Opens `/dev/null` for reading. It is looked at first, since to open a pipe may wait for its writer.
fn open_null<R: Files<File = File>>(files: &R) -> io::Result<File> {
    if fs::metadata(files, NULL)?.file_type().is_char_device() {
        return File::open(files, NULL);
    }
    Err(io::Error::other("/dev/null is no device"))
}

impl StandardStream {
    // Where the system shows the file of the stream.
    fn path(self) -> &'static str {
        match self {
            StandardStream::Input => "/proc/self/fd/0",
            StandardStream::Output => "/proc/self/fd/1",
            StandardStream::Error => "/proc/self/fd/2",
        }
    }

    // Which file is the stream's.
    pub(crate) fn file_id<R: Files>(self, files: &R) -> io::Result<FileId> {
        FileId::at(files, self.path())
    }

    /// What the stream's file is, next to the two files of a journal, where one is named. What is no regular file is
    /// apart from any journal.
    pub fn standing<R: Files<File = File>>(
        self,
        files: &R,
        journal: Option<(&str, &str)>,
    ) -> Standing {
        match fs::metadata(files, self.path()) {
            Ok(own) if !own.is_file() => Standing::Apart,
            Ok(own) => self.standing_of(files, FileId::of_metadata(&own), journal),
            Err(_) => Standing::Unknown,
        }
    }

    // The same, where the stream's file is regular, and which one it is.
    fn standing_of<R: Files<File = File>>(
        self,
        files: &R,
        own: FileId,
        journal: Option<(&str, &str)>,
    ) -> Standing {
        if begins_as_a_journal(files, self.path()).unwrap_or(false) {
            return Standing::Journal;
        }
        match journal {
            Some((first, second)) => own.at_path(files, first).or(own.at_path(files, second)),
            None => Standing::Apart,
        }
    }
}

/// What a standard stream's file is, next to a journal.
#[derive(Clone, Copy, PartialEq, Eq)]
pub enum Standing {
    /// It is no file of the journal, and does not begin as one of another.
    Apart,
    /// It is a file of the journal, or begins as a file of some journal does.
    Journal,
    /// The system does not show which file it is (it does in `/proc`), or not which files are at the journal's paths.
    Unknown,
}

impl Standing {
    // The graver of both.
    fn or(self, other: Standing) -> Standing {
        match (self, other) {
            (Standing::Journal, _) | (_, Standing::Journal) => Standing::Journal,
            (Standing::Unknown, _) | (_, Standing::Unknown) => Standing::Unknown,
            _ => Standing::Apart,
        }
    }
}

// Whether the file at a path has the magic bytes of a journal at its bytes 1 to 8.
fn begins_as_a_journal<R: Files<File = File>>(files: &R, path: &str) -> io::Result<bool> {
    let mut head = [0u8; 9];
    let count = File::open(files, path)?.read(&mut head)?;
    Ok(count == head.len() && head[1..].iter().eq(MAGIC.iter()))
}

// Which file it is: the number of its device, and its own on that device.
#[derive(Clone, Copy, PartialEq, Eq)]
pub(crate) struct FileId {
    device: u64,
    number: u64,
}

impl FileId {
    // That of the file at a path, behind any links.
    pub(crate) fn at<R: Files>(files: &R, path: &str) -> io::Result<Self> {
        Ok(FileId::of_metadata(&fs::metadata(files, path)?))
    }

    // That of an open file.
    pub(crate) fn of(file: &File) -> io::Result<Self> {
        Ok(FileId::of_metadata(&file.metadata()?))
    }

    // That of a file that was looked at.
    fn of_metadata(found: &Metadata) -> Self {
        FileId {
            device: found.dev(),
            number: found.ino(),
        }
    }

    // What it is to the file at a path. Nothing is at a path that is absent.
    fn at_path<R: Files>(self, files: &R, path: &str) -> Standing {
        match FileId::at(files, path) {
            Ok(found) if found == self => Standing::Journal,
            Ok(_) => Standing::Apart,
            Err(error) if error.kind() == ErrorKind::NotFound => Standing::Apart,
            Err(_) => Standing::Unknown,
        }
    }
}
