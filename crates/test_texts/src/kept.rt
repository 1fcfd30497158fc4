//! What a desk that is opened over disks says of each key, in words.
use check_sign::{Desk, DeskReply, KeyStandings, Keys};
use edge_kit::{Disks, MemDisk, PubKey, Root, hex_text, read_hex};
use slash_defs::{BlockEntry, Book, File, VoteEntry};
use std::alloc::{AllocError, Global};

/// What a desk says of each key that is opened over what these disks hold, for the chain with this root, one on each
/// line: the key in hex, how it stands, and what is handed over of it. Of more than a few keys their count is said, and
/// where the desk does not open, that.
pub fn kept_words(
    alloc: Global,
    disks: &Disks<MemDisk>,
    genesis: Root,
) -> Result<String, AllocError> {
    let first = disk_like(alloc, &disks.first)?;
    let second = disk_like(alloc, &disks.second)?;
    match Desk::open(alloc, Disks { first, second }, genesis, false, 0) {
        Ok(mut desk) => desk_words(alloc, &mut desk),
        Err((fault, _disks)) => format!(in alloc; "not opened: {fault:?}\n"),
    }
}

/// The root of genesis validators that the words of a command line name; zeros where they name none.
pub fn genesis_of(words: &[String]) -> Root {
    let mut is_next = false;
    for word in words {
        if is_next {
            return root_of(word.as_str());
        }
        is_next = word.as_str() == "--genesis";
    }
    Root([0; 32])
}

/// The root that a text writes; zeros where it writes none.
fn root_of(text: &str) -> Root {
    match read_hex(text) {
        Some(bytes) => Root(bytes),
        None => Root([0; 32]),
    }
}

/// A disk that holds the same and never fails.
fn disk_like(alloc: Global, disk: &MemDisk) -> Result<MemDisk, AllocError> {
    let bytes = disk.bytes().to_vec(alloc)?;
    MemDisk::new(alloc, bytes, Vec::new(alloc), None)
}

/// Of how many keys a desk is asked at most.
const FEW_KEYS: usize = 16;

/// What a desk says of each key; of more than a few keys how many there are.
fn desk_words(alloc: Global, desk: &mut Desk<MemDisk>) -> Result<String, AllocError> {
    let mut text = String::new(alloc);
    let listed = standings(desk)?;
    let count = listed.len();
    if count > FEW_KEYS {
        writeln!(text, "{count} keys")?;
        return Ok(text);
    }
    for (key, standing) in listed.as_slice() {
        let name = hex_text(alloc, &key.0)?;
        write!(text, "{} {standing:?}", name.as_str())?;
        push_books(alloc, &mut text, &exported(alloc, desk, *key)?)?;
        text.push('\n')?;
    }
    Ok(text)
}

/// How the kept keys stand.
fn standings(desk: &mut Desk<MemDisk>) -> Result<KeyStandings, AllocError> {
    match desk.keys() {
        DeskReply::Keys(listed) => Ok(listed),
        DeskReply::OutOfMemory => Err(AllocError),
        _ => unreachable!(),
    }
}

/// What is handed over of a key.
fn exported(alloc: Global, desk: &mut Desk<MemDisk>, key: PubKey) -> Result<File, AllocError> {
    let keys = vec![in alloc; key]?;
    match desk.export(Keys::from_vec(keys)) {
        DeskReply::Exported(file) => Ok(file),
        DeskReply::OutOfMemory => Err(AllocError),
        _ => unreachable!(),
    }
}

/// Adds what a file holds for its keys.
fn push_books(alloc: Global, text: &mut String, file: &File) -> Result<(), AllocError> {
    for (_, book) in file.books.as_slice() {
        push_blocks(alloc, text, book)?;
        push_votes(alloc, text, book)?;
    }
    Ok(())
}

/// Adds the blocks of a book.
fn push_blocks(alloc: Global, text: &mut String, book: &Book) -> Result<(), AllocError> {
    for BlockEntry { slot, root } in book.blocks.as_slice() {
        write!(text, ", block {}", *slot)?;
        push_root(alloc, text, root)?;
    }
    Ok(())
}

/// Adds the votes of a book.
fn push_votes(alloc: Global, text: &mut String, book: &Book) -> Result<(), AllocError> {
    for vote in book.votes.as_slice() {
        let VoteEntry {
            source,
            target,
            root,
        } = vote;
        write!(text, ", vote {} {}", *source, *target)?;
        push_root(alloc, text, root)?;
    }
    Ok(())
}

/// Adds a signing root, if there is one.
fn push_root(alloc: Global, text: &mut String, root: &Option<Root>) -> Result<(), AllocError> {
    let Some(root) = root else {
        return Ok(());
    };
    let root = hex_text(alloc, &root.0)?;
    write!(text, " {}", root.as_str())
}
