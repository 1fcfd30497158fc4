//! How the file of a disk is opened: a regular file, apart from the other file of its journal and from the standard streams.
use crate::streams::{FileId, StandardStream};
use std::fs::{File, Files, OpenOptions, TryLockError};
use std::io::ErrorKind;
use std::os::unix::fs::OpenOptionsExt;
use std::path::Path;
use std::{fs, io};

/// Who may read and write a file that is created: its owner alone.
const OWNER_ALONE: u32 = 0o600;

// Opens a file for reading and writing, creates it where it is absent, locks it, and syncs its directory. What is there
// and is no regular file, the file at the other path, and that of a standard stream are refused.
pub(crate) fn open_apart<R: Files<File = File>>(
    files: &R,
    path: &str,
    other: Option<&str>,
) -> io::Result<File> {
    refuse_special(files, path)?;
    let file = open_regular(files, path)?;
    refuse_other(files, &file, other)?;
    refuse_streams(files, &file)?;
    lock(&file)?;
    sync_directory(files, path)?;
    Ok(file)
}

// Refuses what is at the path and is no regular file, before it is opened: to open a device can do something to it.
fn refuse_special<R: Files>(files: &R, path: &str) -> io::Result<()> {
    match fs::metadata(files, path) {
        Ok(found) if !found.is_file() => Err(io::Error::other("not a regular file")),
        Ok(_) => Ok(()),
        Err(error) if error.kind() == ErrorKind::NotFound => Ok(()),
        Err(error) => Err(error),
    }
}

// Opens a file for reading and writing, and creates it where it is absent, for its owner alone.
fn open_regular<R: Files<File = File>>(files: &R, path: &str) -> io::Result<File> {
    let mut how = OpenOptions::new();
    how.read(true).write(true).create(true).mode(OWNER_ALONE);
    let file = how.open(files, path)?;
    if file.metadata()?.is_file() {
        return Ok(file);
    }
    Err(io::Error::other("not a regular file"))
}

// Refuses a file that is the one at the other path.
fn refuse_other<R: Files>(files: &R, file: &File, other: Option<&str>) -> io::Result<()> {
    let Some(other) = other else {
        return Ok(());
    };
    match FileId::at(files, other) {
        Ok(found) if found == FileId::of(file)? => {
            Err(io::Error::other("the same file as the other one of the journal"))
        }
        Ok(_) => Ok(()),
        Err(error) if error.kind() == ErrorKind::NotFound => Ok(()),
        Err(error) => Err(error),
    }
}

// Refuses a file that is one of the standard streams'.
fn refuse_streams<R: Files>(files: &R, file: &File) -> io::Result<()> {
    refuse_stream(
        files,
        file,
        StandardStream::Input,
        "the file of standard input",
    )?;
    refuse_stream(
        files,
        file,
        StandardStream::Output,
        "the file of standard output",
    )?;
    refuse_stream(
        files,
        file,
        StandardStream::Error,
        "the file of standard error",
    )
}

// Refuses a file that is a standard stream's, with these words.
fn refuse_stream<R: Files>(
    files: &R,
    file: &File,
    stream: StandardStream,
    why: &str,
) -> io::Result<()> {
    if FileId::of(file)? == stream.file_id(files)? {
        return Err(io::Error::other(why));
    }
    Ok(())
}

// Locks a file against every other open of it.
fn lock(file: &File) -> io::Result<()> {
    match file.try_lock() {
        Ok(()) => Ok(()),
        Err(TryLockError::WouldBlock) => Err(io::Error::other("already locked")),
        Err(TryLockError::Error(error)) => Err(error),
    }
}

// Syncs the directory of a path.
fn sync_directory<R: Files<File = File>>(files: &R, path: &str) -> io::Result<()> {
    let directory = match Path::new(path).parent() {
        Some(parent) if !parent.as_str().is_empty() => File::open(files, parent)?,
        _ => File::open(files, ".")?,
    };
    directory.sync_all()
}
