//! A small file of the system that holds a secret.

use std::alloc::Global;
use std::fs::{File, Files, Metadata, OpenFile};
use std::io;
use std::io::Read;
use std::os::unix::fs::MetadataExt;

/// How many bytes such a file has at most.
const MOST_BYTES: usize = 4096;

/// The bit of a file's mode by which its group may read it.
const GROUP_READS: u32 = 0o040;

/// The bit of a file's mode by which everyone may read it.
const ALL_READ: u32 = 0o004;

/// The number of the user root.
const ROOT: u32 = 0;

/// A text that a file holds, which is a secret: nothing prints it.
#[derive(Drop)]
pub(crate) struct SecretFile {
    text: String,
    is_exposed: bool,
}

impl SecretFile {
    /// Reads the file at a path.
    ///
    /// # Errors
    ///
    /// What the system says of a file that it does not open or read. One of the kind `Other` where the file has more than
    /// 4,096 bytes, or is not UTF-8. One of the kind `OutOfMemory` where memory was wanted.
    pub(crate) fn read<R: Files<File = File>>(
        files: &R,
        alloc: Global,
        path: &str,
    ) -> io::Result<Self> {
        let file = File::open(files, path)?;
        let is_exposed = is_exposed(&file.metadata()?);
        let text = read_text(alloc, file)?;
        Ok(SecretFile { text, is_exposed })
    }

    /// The text.
    pub(crate) fn text(&self) -> &str {
        self.text.as_str()
    }

    /// Whether the file's mode lets others than its owner read it: everyone, or its group, where root does not own it. The
    /// group of a file that root owns is root's choice, and where an access list lets one user read it, the bit of the
    /// group shows that.
    pub(crate) fn is_exposed(&self) -> bool {
        self.is_exposed
    }
}

// Whether the mode of a file lets others than its owner read it.
fn is_exposed(found: &Metadata) -> bool {
    let others = if found.uid() == ROOT {
        ALL_READ
    } else {
        ALL_READ | GROUP_READS
    };
    found.mode() & others != 0
}

// The text of a file.
fn read_text(alloc: Global, file: File) -> io::Result<String> {
    let bytes = read_bytes(alloc, file)?;
    match str::from_utf8(bytes.as_slice()) {
        Ok(text) => Ok(String::from_str(alloc, text)?),
        Err(_) => Err(io::Error::other("not UTF-8")),
    }
}

// The bytes of a file that has no more than `MOST_BYTES`.
fn read_bytes(alloc: Global, file: File) -> io::Result<Vec<u8>> {
    let mut bytes = Vec::new(alloc);
    file.take(MOST_BYTES as u64 + 1).read_to_end(&mut bytes)?;
    if bytes.len() > MOST_BYTES {
        return Err(io::Error::other("more than 4096 bytes"));
    }
    Ok(bytes)
}
