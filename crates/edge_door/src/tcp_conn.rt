//! A connection of the system that came in, as a link. It tells nothing of its bytes.
ghost use Rattle.std.specs.Prelude.{◌≡◌, ◌<◌, None, IfOk, length};
ghost use Rattle.std.specs.Io.{ReadsAtMost, WritesAtMost};
ghost use Rattle.std.specs.Result.{result_ok};
ghost use Rattle.edge_kit.specs.Causes.{HasCause};

use crate::api::Api;
use crate::callers::Callers;
use crate::key_outcomes::{KeyOutcomes, Messages};
use crate::leaving::Leaving;
use crate::rest::Rest;
use crate::waiting::{Arrived, CONTINUE};
use edge_kit::{Failed, Link, count_fault};
use edge_sockets::{Heard, Span, Timed, Visible, send_over};
use edge_system::Reports;
use std::alloc::{AllocError, Global};
use std::fmt::{Display, Formatter};
use std::io::{Eprint, ErrorKind, Read, Write};
use std::net::OpenStream;
use std::rt::Clock;
use std::time::Duration;
use std::{fmt, io, mem};

/// How many seconds the request of a connection may last, from the start to its last byte, and its reply, from the first byte
/// to the last.
pub(crate) const LIMIT_SECONDS: u64 = 30;

/// How many seconds a connection may be silent while its request comes in.
pub(crate) const READ_SECONDS: u64 = 10;

/// A connection that was accepted, with a count of its failures. Its request is what came in before that: `recv` waits for
/// nothing, gives the end where the peer has said it, and fails after what came in where it has not. Its reply may last 30
/// seconds from its first byte on. It was begun by its peer, so `connect` begins no other, and fails.
///
/// A reply does not wait for its peer: `send` takes the whole piece, and what the system does not take at once is kept in
/// memory. A response of status 100 has left before the request is read on. Where the door has sent that response already, the
/// first `send`, if it is of just that, takes it as sent.
///
/// Where key managers call, `hang_up` ends the calls at once; what is left of the reply is sent once the door has the connection
/// back. Where validator clients call, the door may have it back much later: there `hang_up` sends what is left of the reply
/// within its time, waits for that, and says to the peer that nothing further comes, so that the peer sees the end at once.
/// It gives the memory back that the connection took.
///
/// Of the Keymanager API it reports on standard error a request that changes something and one that is refused: the method, the
/// target before its query, the status, and the first 200 bytes of the reply's body where no keystores were to be taken in; and
/// before that what became of each key that was to be taken in or given up. Of the calls of validator clients (Web3Signer API)
/// it reports one that is refused in the same way, and one that would sign and had no reply; a signature that was given is no
/// news. Where the reply is not taken in its time, that is reported as well.
#[derive(Drop)]
pub struct TcpConn<S: Read + Write + OpenStream + Drop, C: Eprint + Clock + Drop> {
    alloc: Global,
    stream: Option<Timed<S>>,
    /// The connection after its end, where a reply was begun.
    leaving: Option<Leaving<S>>,
    /// What came in of the request before the connection was accepted. Nothing was sent since while its peer counts as asked.
    arrived: Arrived,
    /// How much of that was received.
    taken: usize,
    /// The span of the reply, where one was begun.
    reply: Option<Span>,
    /// What is still to be sent of it.
    rest: Rest,
    clock: C,
    api: Api,
    heard: Heard,
    outcomes: KeyOutcomes,
    callers: Callers,
    reports: Reports,
    faults: u64,
}

/// What became of a request: the method, the target before its query, the status, and the front of the reply's body, of which
/// nothing is reported where keystores were sent, since it may have what the signing service said of them.
#[derive(Drop)]
struct Replied<'a>(&'a Heard);

impl Display for Replied<'_> {
    fn fmt<W: fmt::Write>(&self, f: &mut Formatter<W>) -> fmt::Result {
        let Replied(heard) = self;
        let call = heard.call_without_query();
        let Some(status) = heard.status() else {
            return write!(f, "{call}: no reply");
        };
        write!(f, "{call}: {}", Visible(status))?;
        if !heard.is_import() {
            write!(f, " {}", heard.body())?;
        }
        Ok(())
    }
}

// A connection whose calls wait, and end with this span until it has another.
fn timed<S: Read + Write + OpenStream + Drop>(
    alloc: Global,
    stream: S,
    span: Span,
) -> io::Result<Timed<S>> {
    stream.set_nonblocking(false)?;
    Timed::new(alloc, stream, span)
}

impl<S: Read + Write + OpenStream + Drop, C: Eprint + Clock + Drop> TcpConn<S, C> {
    // A connection whose request has come in where these call, and that makes these reports. One that the system does not let
    // wait fails at each call.
    pub(crate) fn new(
        alloc: Global,
        stream: S,
        span: Span,
        arrived: Arrived,
        clock: C,
        callers: Callers,
        reports: Reports,
    ) -> Self
        ensures { result.faults ≡ 0 }
    {
        let api = Api::of(callers, arrived.bytes.as_slice());
        TcpConn {
            alloc,
            stream: timed(alloc, stream, span).ok(),
            leaving: None,
            arrived,
            taken: 0,
            reply: None,
            rest: Rest::new(alloc),
            clock,
            api,
            heard: Heard::new(alloc),
            outcomes: KeyOutcomes::new(alloc),
            callers,
            reports,
            faults: 0,
        }
    }

    // The connection as it leaves, where a reply was begun and it was ended.
    pub(crate) fn into_leaving(self) -> Option<Leaving<S>> {
        let TcpConn {
            alloc: _alloc,
            stream: _stream,
            leaving,
            arrived: _arrived,
            taken: _taken,
            reply: _reply,
            rest: _rest,
            clock: _clock,
            api: _api,
            heard: _heard,
            outcomes: _outcomes,
            callers: _callers,
            reports: _reports,
            faults: _faults,
        } = self;
        leaving
    }

    /// How many calls have failed.
    pub fn faults(&self) -> u64
        ensures { result ≡ self.now.faults }
    {
        self.faults
    }

    // Takes a piece that is to be sent. The response that asks for the body is not sent again.
    fn take(&mut self, piece: &[u8]) -> io::Result<usize>
        ensures bound { WritesAtMost result piece.now }
        ensures some { IfOk result (λ n. 0 < length piece.now → 0 < n) }
        ensures faults { self.new.faults ≡ self.old.faults }
    {
        let is_asked = mem::replace(&mut self.arrived.is_asked, false);
        if is_asked && self.stream.is_some() && piece == CONTINUE {
            return Ok(piece.len());
        }
        self.reply(piece)
    }

    // Begins a reply with its first piece. It has a limit of its own, and does not wait for the peer.
    fn begin_reply(&mut self) -> io::Result<()>
        ensures { self.new.faults ≡ self.old.faults }
    {
        let Some(stream) = &mut self.stream else {
            return Err(io::Error::from(ErrorKind::NotConnected));
        };
        if self.reply.is_none() {
            let span = Span::begin(&self.clock, Duration::from_secs(LIMIT_SECONDS))?;
            stream.set_waiting(false)?;
            stream.restart(span);
            self.reply = Some(span);
        }
        Ok(())
    }

    // Sends what the system takes of a piece at once: nothing while something before it is still to be sent.
    fn send_now(&mut self, piece: &[u8]) -> io::Result<usize>
        ensures bound { WritesAtMost result piece.now }
        ensures faults { self.new.faults ≡ self.old.faults }
    {
        match &mut self.stream {
            Some(stream) if self.rest.is_empty() => stream.write_now(piece),
            _ => Ok(0),
        }
    }

    // Takes a piece of a reply: what the system does not take at once is kept, where there is memory for it.
    fn reply(&mut self, piece: &[u8]) -> io::Result<usize>
        ensures bound { WritesAtMost result piece.now }
        ensures some { IfOk result (λ n. 0 < length piece.now → 0 < n) }
        ensures faults { self.new.faults ≡ self.old.faults }
    {
        self.begin_reply()?;
        let count = self.send_now(piece)?;
        match self.rest.keep(piece.get(count..).unwrap_or(&[])) {
            Ok(()) => Ok(piece.len()),
            Err(AllocError) if count > 0 => Ok(count),
            Err(AllocError) => self.reply_waiting(piece),
        }
    }

    // Sends what is kept and some bytes of a piece within the reply's time, and waits for that, since nothing more can be kept.
    fn reply_waiting(&mut self, piece: &[u8]) -> io::Result<usize>
        ensures bound { WritesAtMost result piece.now }
        ensures some { IfOk result (λ n. 0 < length piece.now → 0 < n) }
        ensures faults { self.new.faults ≡ self.old.faults }
    {
        if let Some(stream) = &self.stream {
            stream.set_waiting(true)?;
        }
        self.rest.send_all(&mut self.stream, &self.clock)?;
        let sent = send_over(&mut self.stream, &self.clock, piece);
        if let Some(stream) = &self.stream {
            let _ = stream.set_waiting(false);
        }
        sent
    }

    // Has all leave that was sent before the request is read on, which was a response of status 100.
    fn end_reply(&mut self) -> io::Result<()>
        ensures { self.new.faults ≡ self.old.faults }
    {
        if self.reply.take().is_none() {
            return Ok(());
        }
        if let Some(stream) = &self.stream {
            stream.set_waiting(true)?;
        }
        self.rest.send_all(&mut self.stream, &self.clock)
    }

    // Reads some bytes of a request, of those that came in before. Nothing is waited for after them, whatever is missing.
    fn read(&mut self, buf: &mut [u8]) -> io::Result<usize>
        ensures bound { ReadsAtMost result buf.new }
        ensures faults { self.new.faults ≡ self.old.faults }
    {
        if self.stream.is_none() {
            return Err(io::Error::from(ErrorKind::NotConnected));
        }
        self.end_reply()?;
        let mut rest = self.arrived.bytes.get(self.taken..).unwrap_or(&[]);
        if rest.is_empty() && !self.arrived.is_ended {
            return Err(io::Error::from(ErrorKind::TimedOut));
        }
        let count = rest.read(buf)?;
        self.taken = self.taken.saturating_add(count);
        Ok(count)
    }

    // Reports a request that was refused, and one that is news. A connection over which none was begun is reported nowhere.
    fn report(&self) {
        let is_told = self.is_news() || self.heard.is_refusal();
        if self.stream.is_some() && self.heard.is_begun() && is_told {
            let api = self.api;
            let replied = Replied(&self.heard);
            let _ = eprintln!(&self.clock; "{api}: {replied}");
        }
    }

    // Whether its request is news that is to be reported: it was to change something, and is none for a signature that was given.
    fn is_news(&self) -> bool {
        let is_given = self.api.is_signing() && self.heard.status().is_some();
        self.reports.has_news() && self.heard.changes() && !is_given
    }

    // Notes what was sent of a reply.
    fn note_reply(&mut self, piece: &[u8])
        ensures { self.new.faults ≡ self.old.faults }
    {
        self.heard.answer(piece);
        if self.heard.changes() && !self.api.is_signing() {
            let messages = Messages::of(&self.heard);
            self.outcomes
                .answer(&self.clock, self.reports, messages, piece);
        }
    }

    // Notes what was read of a request.
    fn note_request(&mut self, piece: &[u8])
        ensures { self.new.faults ≡ self.old.faults }
    {
        self.heard.ask(piece);
        if !self.api.is_signing() {
            self.outcomes.ask(piece);
        }
    }

    // Ends it. What it leaves with is there where a reply was begun.
    fn end(&mut self)
        ensures { self.new.faults ≡ self.old.faults }
    {
        if let Some(stream) = self.stream.take()
            && let Some(span) = self.reply.take()
        {
            let rest = mem::replace(&mut self.rest, Rest::new(self.alloc));
            let heard = mem::replace(&mut self.heard, Heard::new(self.alloc));
            let leaving = Leaving::new(stream.into_stream(), rest, span, self.api, heard);
            self.leaving = Some(leaving);
        }
    }

    // Sends what is left of its reply, says to the peer that nothing further comes, and gives its memory back, since the door
    // may have it back much later.
    fn see_off(&mut self)
        ensures { self.new.faults ≡ self.old.faults }
    {
        if let Some(mut leaving) = self.leaving.take() {
            leaving.see_off(self.alloc, &self.clock);
            self.leaving = Some(leaving).filter(|leaving| !leaving.is_over());
        }
        self.arrived = Arrived::none(self.alloc);
        self.heard = Heard::new(self.alloc);
        self.outcomes = KeyOutcomes::new(self.alloc);
    }

    // What the system answered, whose failure is counted.
    fn counted<T>(&mut self, done: io::Result<T>) -> Result<T, Failed>
        ensures same { result_ok result ≡ result_ok done }
        ensures cause { HasCause self.old.faults self.new.faults result }
    {
        match done {
            Ok(value) => Ok(value),
            Err(_) => Err(count_fault(&mut self.faults)),
        }
    }
}

impl<S: Read + Write + OpenStream + Drop, C: Eprint + Clock + Copy + Drop> Link for TcpConn<S, C> {
    ghost left = { λ _. None };

    ghost coming = { λ _. None };

    ghost held = { λ _. None };

    ghost faults = { λ s. s.faults };

    fn connect(&mut self) -> Result<(), Failed> {
        self.stream = None;
        Err(count_fault(&mut self.faults))
    }

    fn send(&mut self, piece: &[u8]) -> Result<usize, Failed> {
        let sent = self.take(piece);
        if let Ok(count) = &sent {
            self.note_reply(piece.get(..*count).unwrap_or(piece));
        }
        self.counted(sent)
    }

    fn recv(&mut self, buf: &mut [u8]) -> Result<usize, Failed> {
        let read = self.read(buf);
        if let Ok(count) = &read {
            self.note_request(buf.get(..*count).unwrap_or(&[]));
        }
        self.counted(read)
    }

    fn hang_up(&mut self) -> Result<(), Failed> {
        self.report();
        self.end();
        if self.callers.has_validator_clients() {
            self.see_off();
        }
        Ok(())
    }

    /// A connection that is not there, since its peer began one alone: each `connect`, `send` and `recv` of it fails
    /// and is counted. Takes no memory.
    fn twin(&self, alloc: Global) -> Result<Self, AllocError>
        ensures faults { IfOk result (λ t. t.faults ≡ 0) }
        ensures gone { IfOk result (λ t. t.stream ≡ None) }
    {
        Ok(TcpConn {
            alloc,
            stream: None,
            leaving: None,
            arrived: Arrived::none(alloc),
            taken: 0,
            reply: None,
            rest: Rest::new(alloc),
            clock: self.clock,
            api: self.api,
            heard: Heard::new(alloc),
            outcomes: KeyOutcomes::new(alloc),
            callers: self.callers,
            reports: self.reports,
            faults: 0,
        })
    }
}
