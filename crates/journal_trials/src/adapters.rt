//! Readers as sources, and writers as sinks.
use crate::words::{bytes_of, number_of, push_bytes, push_named};
use edge_kit::{Sink, Source};
use edge_system::{Reading, Writing};
use std::alloc::Global;
use std::io;
use std::io::{Eprint, Read, Write};

/// Takes or gives at most three bytes at a call, and fails at every third.
#[derive(Drop)]
struct Halting<T> {
    inner: T,
    calls: u8,
}

impl<T> Halting<T> {
    /// How many bytes a call moves.
    fn turn(&mut self, len: usize) -> io::Result<usize> {
        self.calls = self.calls % 3 + 1;
        if self.calls == 3 {
            return Err(io::Error::from(io::ErrorKind::WouldBlock));
        }
        Ok(len.min(3))
    }
}

impl<T: Read> Read for Halting<T> {
    fn read(&mut self, buf: &mut [u8]) -> io::Result<usize> {
        let len = self.turn(buf.len())?.min(buf.len());
        self.inner.read(&mut buf[..len])
    }
}

impl<T: Write> Write for Halting<T> {
    fn write(&mut self, buf: &[u8]) -> io::Result<usize> {
        let len = self.turn(buf.len())?.min(buf.len());
        self.inner.write(&buf[..len])
    }

    fn flush(&mut self) -> io::Result<()> {
        Ok(())
    }
}

/// Reads a piece of at most four bytes, and puts what is answered to a text, with the bytes that came.
fn push_read<S: Source>(text: &mut String, source: &mut S) -> Option<()> {
    let mut piece = [0; 4];
    let answer = source.read(&mut piece);
    let count = answer.unwrap_or(0).min(piece.len());
    write!(text, "{answer:?} [").ok()?;
    push_bytes(text, &piece[..count])?;
    text.push_str("]\n").ok()
}

/// Puts what that many reads of a source of these bytes answer to a text.
pub fn reads<E: Eprint + Copy + Drop>(
    rt: E,
    alloc: Global,
    words: &str,
    text: &mut String,
) -> Option<()> {
    let (count, bytes) = words.split_once(' ')?;
    let bytes = bytes_of(alloc, bytes)?;
    let inner = bytes.as_slice();
    let mut source = Reading::new(Halting { inner, calls: 0 }, rt);
    for _ in 0..number_of(count)? {
        push_read(text, &mut source)?;
    }
    Some(())
}

/// Writes a piece to a sink, and puts what is answered to a text.
fn push_write<S: Sink>(alloc: Global, text: &mut String, sink: &mut S, piece: &str) -> Option<()> {
    let piece = bytes_of(alloc, piece.trim())?;
    let answer = sink.write(piece.as_slice());
    writeln!(text, "{answer:?}").ok()
}

/// Puts what writes of pieces to a sink of five bytes answer to a text, and what it then holds.
pub fn writes<E: Eprint + Copy + Drop>(
    rt: E,
    alloc: Global,
    pieces: &str,
    text: &mut String,
) -> Option<()> {
    let mut held = [0; 5];
    let inner: &mut [u8] = &mut held;
    let mut sink = Writing::new(Halting { inner, calls: 0 }, rt);
    for piece in pieces.split(',') {
        push_write(alloc, text, &mut sink, piece)?;
    }
    push_named(text, "holds [", &held)?;
    text.push_str("]\n").ok()
}
