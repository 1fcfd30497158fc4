//! Whether a body in chunks has come in whole.
use crate::request_front::{BODY_LIMIT, HEAD_LIMIT, front_of, whole_lines};
use httparse::spans::{EMPTY_HEADER_SPAN, parse_headers};
use httparse::{Status, parse_chunk_size};

/// What ends a chunk.
const CHUNK_END: &[u8] = b"\r\n";

/// What a look at the next chunk has found.
#[derive(Clone, Copy)]
enum Found {
    /// More of it is to come in.
    Part,
    /// This many bytes, which hold that many of the body.
    Chunk { bytes: usize, size: u64 },
    /// The end of the body, or what no body has.
    End,
}

/// How far a body in chunks was followed.
#[derive(Drop)]
pub(crate) struct ChunkScan {
    /// Where the next chunk begins.
    at: usize,
    /// How many bytes the chunks before it hold.
    size: u64,
}

impl ChunkScan {
    // Before the first chunk.
    pub(crate) fn new() -> Self {
        ChunkScan { at: 0, size: 0 }
    }

    // Whether a body of which this has come in is whole, or what has come in is no body that is read, which is judged where who
    // serves the request judges it (`http_wire`): at the end of a line, two bytes after a chunk, and at a limit. Each
    // chunk is looked at until it is there, and not again.
    pub(crate) fn is_over(&mut self, body: &[u8]) -> bool {
        'chunks: for _ in 0..u64::MAX {
            let rest = body.get(self.at..).unwrap_or(&[]);
            match next_chunk(rest, BODY_LIMIT.saturating_sub(self.size)) {
                Found::Part => return false,
                Found::End => return true,
                Found::Chunk { bytes, size } => {
                    self.at = self.at.saturating_add(bytes);
                    self.size = self.size.saturating_add(size);
                }
            }
        }
        true
    }
}

// The next chunk, where the body may have that many bytes more.
fn next_chunk(rest: &[u8], room: u64) -> Found {
    match parse_chunk_size(first_line(front_of(rest))) {
        Ok(Status::Complete((line, 0))) => last_chunk(rest.get(line..).unwrap_or(&[])),
        Ok(Status::Complete((line, size))) if size <= room => sized_chunk(rest, line, size),
        Ok(Status::Partial) if rest.len() < HEAD_LIMIT => Found::Part,
        _ => Found::End,
    }
}

// A chunk of this size, after a line of that many bytes.
fn sized_chunk(rest: &[u8], line: usize, size: u64) -> Found {
    let Ok(count) = usize::try_from(size) else {
        return Found::End;
    };
    let before = line.saturating_add(count);
    let end = rest.get(before..).unwrap_or(&[]);
    if end.starts_with(CHUNK_END) {
        let bytes = before.saturating_add(CHUNK_END.len());
        return Found::Chunk { bytes, size };
    }
    if end.len() < CHUNK_END.len() && !end.starts_with(b"\n") {
        Found::Part
    } else {
        Found::End
    }
}

// What follows the line of the last chunk: fields, and an empty line.
fn last_chunk(rest: &[u8]) -> Found {
    let mut spans = [EMPTY_HEADER_SPAN; 64];
    match parse_headers(whole_lines(front_of(rest)), &mut spans) {
        Ok(Status::Partial) if rest.len() < HEAD_LIMIT => Found::Part,
        _ => Found::End,
    }
}

// The first line with its end; nothing where that is not there.
fn first_line(bytes: &[u8]) -> &[u8] {
    match bytes.iter().position(|byte| *byte == b'\n') {
        Some(end) => bytes.get(..end.saturating_add(1)).unwrap_or(bytes),
        None => &[],
    }
}
