//! What a connection of the system does, whoever began it.
ghost use Rattle.std.specs.Prelude.{◌≡◌, ◌<◌, length, IfOk};
ghost use Rattle.std.specs.Io.{ReadsAtMost, WritesAtMost};
ghost use Rattle.std.specs.Result.{result_ok};

use crate::span::Span;
use std::alloc::Global;
use std::io;
use std::io::{BufReader, ErrorKind, Read, Write};
use std::net::OpenStream;
use std::rt::Clock;
use std::time::Duration;

/// What the path of a request has that wants a block to be made, whatever its version.
const MADE_BLOCKS: &[u8] = b"/validator/blocks/";

/// What the path of a request has that hands a block in.
const SENT_BLOCKS: &[u8] = b"/beacon/blocks";

/// What the path of a request has that takes keystores in or gives them up.
const KEYSTORES: &[u8] = b"/eth/v1/keystores";

/// What the path of a question whether a node is syncing has.
const SYNCING: &[u8] = b"/eth/v1/node/syncing";

/// Requests that may last longer than others.
#[derive(Clone, Copy, Debug, PartialEq, Eq)]
pub enum LongRequests {
    /// The making of a block, and the handing in of one.
    Blocks,
    /// The taking in and giving up of keystores.
    Keystores,
}

/// A connection with room to read ahead, whose calls all end with its span.
#[derive(Drop)]
pub struct Timed<S: Read + Write + OpenStream + Drop> {
    inner: BufReader<S>,
    span: Span,
    is_begun: bool,
    is_heard: bool,
}

impl<S: Read + Write + OpenStream + Drop> Timed<S> {
    /// A connection whose calls all end with this span.
    pub fn new(alloc: Global, stream: S, span: Span) -> io::Result<Self> {
        stream.set_nodelay(true)?;
        Ok(Timed {
            inner: BufReader::new(alloc, stream)?,
            span,
            is_begun: false,
            is_heard: false,
        })
    }

    /// Whether the peer has sent something, and its last call didn't fail.
    pub fn is_heard(&self) -> bool {
        self.is_heard
    }

    /// Gives the connection this limit where the first piece that it sends, which is this one, is of such a request.
    pub fn allow_for(&mut self, piece: &[u8], requests: LongRequests, limit: Duration) {
        if !self.is_begun && is_of(piece, requests) {
            self.span = self.span.with_limit(limit);
        }
        self.is_begun = true;
    }

    /// From now on its calls all end with this span.
    pub fn restart(&mut self, span: Span) {
        self.span = span;
    }

    /// Whether its calls wait for the peer from now on. What is read or sent within a span is to be waited for.
    pub fn set_waiting(&self, waits: bool) -> io::Result<()> {
        self.inner.get_ref().set_nonblocking(!waits)
    }

    /// Writes what the system takes of the piece at once, where its calls do not wait.
    pub fn write_now(&mut self, piece: &[u8]) -> io::Result<usize>
        ensures bound { WritesAtMost result piece.now }
    {
        write_now(self.inner.get_mut(), piece)
    }

    /// The connection alone. What was read ahead is dropped.
    pub fn into_stream(self) -> S {
        let Timed {
            inner,
            span: _span,
            is_begun: _is_begun,
            is_heard: _is_heard,
        } = self;
        inner.into_inner()
    }

    // Writes some bytes of the piece within what is left of the span.
    fn write_in_time<C: Clock>(&mut self, clock: &C, piece: &[u8]) -> io::Result<usize>
        ensures bound { WritesAtMost result piece.now }
    {
        let left = self.span.left(clock)?;
        let inner = self.inner.get_mut();
        inner.set_write_timeout(Some(left))?;
        in_time(inner.write(piece))
    }

    // Reads some bytes into the front of the buffer, within what is left of the span where none were read ahead.
    fn read_in_time<C: Clock>(&mut self, clock: &C, buf: &mut [u8]) -> io::Result<usize>
        ensures bound { ReadsAtMost result buf.new }
    {
        if self.inner.buffer().is_empty() {
            let left = self.span.left(clock)?;
            self.inner.get_ref().set_read_timeout(Some(left))?;
        }
        in_time(self.inner.read(buf))
    }

    // The same. It notes whether the peer was heard.
    fn hear<C: Clock>(&mut self, clock: &C, buf: &mut [u8]) -> io::Result<usize>
        ensures bound { ReadsAtMost result buf.new }
    {
        let read = self.read_in_time(clock, buf);
        match &read {
            Ok(0) => {}
            Ok(_) => self.is_heard = true,
            Err(_) => self.is_heard = false,
        }
        read
    }
}

// Whether a piece begins such a request.
fn is_of(piece: &[u8], requests: LongRequests) -> bool {
    let line = first_line(piece);
    match requests {
        LongRequests::Blocks => has(line, MADE_BLOCKS) || has(line, SENT_BLOCKS),
        LongRequests::Keystores => has(line, KEYSTORES),
    }
}

// Whether a piece begins a question whether a node is syncing.
pub(crate) fn asks_for_syncing(piece: &[u8]) -> bool {
    has(first_line(piece), SYNCING)
}

// What a piece has before its first line feed. The path of a request stands there.
fn first_line(piece: &[u8]) -> &[u8] {
    let end = piece.iter().position(|byte| *byte == b'\n');
    end.and_then(|end| piece.get(..end)).unwrap_or(piece)
}

// Whether a piece has this part, which isn't empty.
fn has(piece: &[u8], part: &[u8]) -> bool
    requires { 0 < length part.now }
{
    piece.windows(part.len()).any(|found| found == part)
}

// A call that waited until its limit has timed out.
fn in_time(done: io::Result<usize>) -> io::Result<usize>
    ensures { result_ok result ≡ result_ok done }
{
    match done {
        Err(error) if error.kind() == ErrorKind::WouldBlock => {
            Err(io::Error::from(ErrorKind::TimedOut))
        }
        done => done,
    }
}

/// Writes what the system takes of the piece at once, to what does not wait: none where it takes none now.
pub fn write_now<W: Write>(stream: &mut W, piece: &[u8]) -> io::Result<usize>
    ensures bound { WritesAtMost result piece.now }
{
    match stream.write(piece) {
        Err(error) if is_later(error.kind()) => Ok(0),
        done => done,
    }
}

/// Whether a failure of what does not wait says that nothing can be done now.
pub fn is_later(kind: ErrorKind) -> bool {
    matches!(kind, ErrorKind::WouldBlock | ErrorKind::Interrupted)
}

/// Sends some bytes of the piece, at least one where it isn't empty.
pub fn send_over<S: Read + Write + OpenStream + Drop, C: Clock>(
    stream: &mut Option<Timed<S>>,
    clock: &C,
    piece: &[u8],
) -> io::Result<usize>
    ensures bound { WritesAtMost result piece.now }
    ensures some { IfOk result (λ n. 0 < length piece.now → 0 < n) }
{
    let Some(stream) = stream else {
        return Err(io::Error::from(ErrorKind::NotConnected));
    };
    match stream.write_in_time(clock, piece) {
        Ok(0) if !piece.is_empty() => Err(io::Error::from(ErrorKind::WriteZero)),
        done => done,
    }
}

/// Reads some bytes into the front of the buffer.
pub(crate) fn recv_over<S: Read + Write + OpenStream + Drop, C: Clock>(
    stream: &mut Option<Timed<S>>,
    clock: &C,
    buf: &mut [u8],
) -> io::Result<usize>
    ensures bound { ReadsAtMost result buf.new }
{
    match stream {
        Some(stream) => stream.hear(clock, buf),
        None => Err(io::Error::from(ErrorKind::NotConnected)),
    }
}
