//! Files that a journal may not be: the disk of each refuses, and what is there stays as it is.
use edge_kit::Disk;
use edge_system::{FileDisk, StandardStream, Standing};
use std::alloc::{AllocError, Global};
use std::fs::{File, Files};
use std::io::Eprint;
use std::test::Fail;
use std::{fs, io};

/// The disk of a path that is apart from another.
fn disk_of<R: Files<File = File> + Eprint + Drop>(
    rt: R,
    alloc: Global,
    path: &str,
    other: &str,
) -> Result<FileDisk<R>, AllocError> {
    let other = String::from_str(alloc, other)?;
    Ok(FileDisk::new(rt, String::from_str(alloc, path)?).apart_from(other))
}

/// Whether a sync of the disk of a path is refused, that is apart from another.
fn is_refused<R: Files<File = File> + Eprint + Copy + Drop>(
    rt: R,
    alloc: Global,
    path: &str,
    other: &str,
) -> Result<bool, AllocError> {
    Ok(disk_of(rt, alloc, path, other)?.sync().is_err())
}

/// Makes a file with a second name, and a directory.
fn make_paths<R: Files>(rt: &R) -> io::Result<()> {
    fs::write(rt, "file.a", b"kept")?;
    fs::hard_link(rt, "file.a", "file.b")?;
    fs::create_dir(rt, "folder.a")
}

#[test]
fn a_file_by_two_names_is_no_journal(rt: HostRuntime) -> Result<(), Fail> {
    make_paths(&rt)?;
    let alloc = rt.alloc();
    assert!(rt; is_refused(&rt, alloc, "file.a", "file.b")?);
    assert!(rt; is_refused(&rt, alloc, "folder.a", "folder.b")?);
    assert!(rt; !is_refused(&rt, alloc, "file.a", "other.b")?);
    assert!(rt; fs::metadata(&rt, "file.a")?.len() == 4);
    Ok(())
}

#[test]
fn a_stream_is_apart_from_other_files(rt: HostRuntime) -> Result<(), Fail> {
    fs::write(&rt, "apart", b"")?;
    let apart = StandardStream::Input.standing(&rt, Some(("apart", "absent")));
    assert!(rt; apart == Standing::Apart);
    Ok(())
}
