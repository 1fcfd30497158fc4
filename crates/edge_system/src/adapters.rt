//! Any reader as a source, and any writer as a sink.
ghost use Rattle.std.specs.Prelude.{◌≡◌};

use crate::told::counted;
use edge_kit::{Failed, Sink, Source};
use std::io;
use std::io::{Eprint, ErrorKind, Read, Write};

/// A reader, with a count of its failures. What the system says of one is told on standard error.
#[derive(Drop)]
pub struct Reading<R: Read, E: Eprint> {
    inner: R,
    handle: E,
    faults: u64,
}

impl<R: Read, E: Eprint> Reading<R, E> {
    pub fn new(inner: R, handle: E) -> Self
        ensures { result.faults ≡ 0 }
    {
        Reading {
            inner,
            handle,
            faults: 0,
        }
    }
}

impl<R: Read, E: Eprint> Source for Reading<R, E> {
    ghost left = { λ s. R.remaining s.inner };

    ghost faults = { λ s. s.faults };

    fn read(&mut self, buf: &mut [u8]) -> Result<usize, Failed> {
        let read = self.inner.read(buf);
        counted(read, &self.handle, "input", &mut self.faults)
    }
}

/// A writer, with a count of its failures. A write of nothing is one. What the system says of one is told on
/// standard error.
#[derive(Drop)]
pub struct Writing<W: Write, E: Eprint> {
    inner: W,
    handle: E,
    faults: u64,
}

impl<W: Write, E: Eprint> Writing<W, E> {
    pub fn new(inner: W, handle: E) -> Self
        ensures { result.faults ≡ 0 }
    {
        Writing {
            inner,
            handle,
            faults: 0,
        }
    }
}

impl<W: Write, E: Eprint> Sink for Writing<W, E> {
    ghost held = { λ s. W.contents s.inner };

    ghost faults = { λ s. s.faults };

    fn write(&mut self, piece: &[u8]) -> Result<usize, Failed> {
        let written = match self.inner.write(piece) {
            Ok(0) if !piece.is_empty() => Err(io::Error::from(ErrorKind::WriteZero)),
            done => done,
        };
        counted(written, &self.handle, "output", &mut self.faults)
    }
}
