//! A TCP connection of the system as a link. It tells nothing of its bytes.
ghost use Rattle.std.specs.Prelude.{◌≡◌, None, Some, IfOk, string_bytes};
ghost use Rattle.std.specs.Result.{result_ok};
ghost use Rattle.edge_kit.specs.Causes.{HasCause};

use crate::address::Address;
use crate::heard::{Call, Heard};
use crate::silence::Peers;
use crate::span::Span;
use crate::tcp_stream::{LongRequests, Timed, asks_for_syncing, recv_over, send_over};
use edge_kit::{Failed, Link, count_fault};
use edge_system::{Reports, counted};
use std::alloc::{AllocError, Global};
use std::fmt::Display;
use std::io;
use std::io::{Eprint, ErrorKind};
use std::net::{Net, SocketAddr, ToSocketAddrs};
use std::rt::Clock;
use std::sync::Arc;
use std::time::Duration;

/// The place of a peer among those one of which is asked where another fails.
#[derive(Drop)]
struct Place {
    peers: Arc<Peers, Global>,
    index: usize,
}

/// A link to a host, by its address or its name, with a count of its failures. It looks the name up and
/// connects at `connect`, or at the first `send` after it where the peer may be set aside, and reads ahead, so that reading
/// byte by byte is cheap. An exchange begins there. To connect, and all that is sent and received over the connection, lasts
/// no longer than one limit: the call that is over it fails, and so does each later one of the exchange. How long the system
/// looks a name up is not limited, and does not count. What the system says of a failure is reported on standard error, with
/// the call; and so is an answer whose status is not one of success, with the first 200 bytes of its body, and that the peer
/// is set aside or taken back.
#[derive(Drop)]
pub struct TcpLink<N: Net + Eprint + Clock + Drop> {
    alloc: Global,
    handle: N,
    host: String,
    port: u16,
    limit: Duration,
    long: Option<(LongRequests, Duration)>,
    silence: Option<Place>,
    reports: Reports,
    /// It connects at the next `send`, since what that sends says how long the exchange may last.
    is_due: bool,
    stream: Option<Timed<N::Stream>>,
    heard: Heard,
    faults: u64,
}

impl<N: Net + Eprint + Clock + Drop> TcpLink<N> {
    /// A link that is not yet connected. An exchange may last 10 seconds.
    pub fn new(alloc: Global, handle: N, host: String, port: u16) -> Self
        ensures handle { result.handle ≡ handle }
        ensures host { result.host ≡ host }
        ensures port { result.port ≡ port }
        ensures faults { result.faults ≡ 0 }
    {
        TcpLink {
            alloc,
            handle,
            host,
            port,
            limit: Duration::from_secs(10),
            long: None,
            silence: None,
            reports: Reports::All,
            is_due: false,
            stream: None,
            heard: Heard::new(alloc),
            faults: 0,
        }
    }

    /// From the next `connect` on an exchange may last so long.
    pub fn set_limit(&mut self, limit: Duration)
        ensures limit { self.new.limit ≡ limit }
        ensures faults { self.new.faults ≡ self.old.faults }
        ensures place { (self.new.handle ≡ self.old.handle) × (self.new.host ≡ self.old.host) × (self.new.port ≡ self.old.port) }
    {
        self.limit = limit;
    }

    /// From the next `connect` on an exchange whose first piece is of such a request may last so long. Connecting has
    /// the plain limit there too.
    pub fn set_long_limit(&mut self, requests: LongRequests, limit: Duration)
        ensures limit { self.new.long ≡ Some (requests, limit) }
        ensures faults { self.new.faults ≡ self.old.faults }
        ensures place { (self.new.handle ≡ self.old.handle) × (self.new.host ≡ self.old.host) × (self.new.port ≡ self.old.port) }
    {
        self.long = Some((requests, limit));
    }

    /// From now on the peer, which is that of this place among the peers, is set aside after an exchange that passed its
    /// limit: each exchange of this link, of those that are made of it by `twin`, and of others of this place, fails at its
    /// first `send` without a call, until the peer answers; but where no other peer answered last, each is asked. A peer
    /// that is set aside is asked whether it is syncing after a second, then after twice as long each time in a row, after a
    /// minute at most, and taken back where it answers. One that refuses, or ends the connection, is not set aside.
    ///
    /// The questions whether peers are syncing that follow each other within 6 seconds last no longer than one limit together,
    /// and 2 seconds at most, however many peers and links there are: each such exchange has an equal share of that. One for
    /// which no share is left fails without a call.
    pub fn set_aside_among(&mut self, peers: Arc<Peers, Global>, index: usize)
        ensures faults { self.new.faults ≡ self.old.faults }
        ensures place { (self.new.handle ≡ self.old.handle) × (self.new.host ≡ self.old.host) × (self.new.port ≡ self.old.port) }
    {
        self.silence = Some(Place { peers, index });
    }

    /// From now on these reports are made. That a peer is set aside or taken back is no fault.
    pub fn set_reports(&mut self, reports: Reports)
        ensures reports { self.new.reports ≡ reports }
        ensures faults { self.new.faults ≡ self.old.faults }
        ensures place { (self.new.handle ≡ self.old.handle) × (self.new.host ≡ self.old.host) × (self.new.port ≡ self.old.port) }
    {
        self.reports = reports;
    }

    /// How many calls have failed.
    pub fn faults(&self) -> u64
        ensures { result ≡ self.now.faults }
    {
        self.faults
    }

    // A connection to an address, within its share of what is left of the span, where that many are left to be tried.
    fn open_at(&self, address: SocketAddr, span: &Span, count: usize) -> io::Result<N::Stream> {
        let left = span.left(&self.handle)?;
        let count = u32::try_from(count).unwrap_or(u32::MAX);
        let share = left.checked_div(count).unwrap_or(left);
        self.handle.connect_timeout(address, share)
    }

    // A connection to the first address of the host that takes one within its share of what is left of the exchange,
    // which begins once the name is looked up, and may last so long.
    fn open_timed(&self, limit: Duration) -> io::Result<Timed<N::Stream>> {
        let addresses = (self.host.as_str(), self.port).to_socket_addrs(&self.handle)?;
        let span = Span::begin(&self.handle, limit)?;
        let count = addresses.size_hint().0;
        let mut last = io::Error::from(ErrorKind::NotFound);
        for (index, address) in addresses.enumerate() {
            match self.open_at(address, &span, count.saturating_sub(index)) {
                Ok(stream) => return Timed::new(self.alloc, stream, span),
                Err(e) => last = e,
            }
        }
        Err(last)
    }

    // How long an exchange may last that begins with this piece; None where the peer is set aside for it.
    fn limit_for(&self, piece: &[u8]) -> Option<Duration> {
        let Some(place) = &self.silence else {
            return Some(self.limit);
        };
        if asks_for_syncing(piece) {
            return place
                .peers
                .syncing_limit(&self.handle, place.index, self.limit);
        }
        if place.peers.is_set_aside(place.index) {
            return None;
        }
        Some(self.limit)
    }

    // Connects for an exchange that may last so long.
    fn open(&mut self, limit: Duration) -> Result<(), Failed>
        ensures cause { HasCause self.old.faults self.new.faults result }
    {
        let stream = self.open_timed(limit);
        self.stream = Some(self.counted(stream)?);
        Ok(())
    }

    // Connects for an exchange that begins with this piece, where that is due and the peer is not set aside.
    fn open_for(&mut self, piece: &[u8]) -> Result<(), Failed>
        ensures cause { HasCause self.old.faults self.new.faults result }
    {
        if !self.is_due {
            return Ok(());
        }
        self.is_due = false;
        match self.limit_for(piece) {
            Some(limit) => self.open(limit),
            None => Err(count_fault(&mut self.faults)),
        }
    }

    // Notes that an exchange with a peer failed, where this is wanted; and sets the peer aside where it passed its limit.
    fn note_failure(&self, error: &io::Error) {
        if let Some(place) = &self.silence {
            place.peers.note_failure(place.index);
            if error.kind() == ErrorKind::TimedOut {
                let pause = place.peers.set_aside(&self.handle, place.index);
                self.tell_pause(pause);
            }
        }
    }

    // Reports for how many milliseconds the peer is set aside, if it is since now.
    fn tell_pause(&self, pause: Option<u64>) {
        if let Some(pause) = pause {
            self.tell_news(format_args!("set aside for {pause} ms"));
        }
    }

    // Reports what is no fault of the peer, where that is wanted.
    fn tell_news<W: Display + Drop>(&self, what: W) {
        if self.reports.has_news() {
            let address = self.address();
            let _ = eprintln!(&self.handle; "{address}: {what}");
        }
    }

    // Takes the peer back where it was heard to the end of the exchange. Where it was not, it had no answer.
    fn note_answer(&self) {
        if let (Some(place), Some(stream)) = (&self.silence, &self.stream) {
            if !stream.is_heard() {
                place.peers.note_failure(place.index);
            } else if place.peers.take_back(place.index) {
                self.tell_news("taken back");
            }
        }
    }

    // Reports an answer whose status is not one of success.
    fn note_refusal(&self) {
        if !self.heard.is_refusal() {
            return;
        }
        let address = self.address();
        if self.heard.is_import() {
            let call = self.heard.call();
            let _ = eprintln!(&self.handle; "{address}: {call}: refused");
        } else {
            let call = Call(&self.heard);
            let _ = eprintln!(&self.handle; "{address}: {call}");
        }
    }

    // Where the peer is.
    fn address(&self) -> Address<'_> {
        Address {
            host: &self.host,
            port: self.port,
        }
    }

    // Gives the exchange its longer limit where this first piece of it is of a long request.
    fn allow_for(&mut self, piece: &[u8])
        ensures { self.new.faults ≡ self.old.faults }
    {
        if let (Some(stream), Some((requests, limit))) = (&mut self.stream, self.long) {
            stream.allow_for(piece, requests, limit);
        }
    }

    // What the system answered, whose failure is counted and reported. A peer whose exchange passed its limit is set
    // aside. What was said is looked at only for the report.
    fn counted<T>(&mut self, done: io::Result<T>) -> Result<T, Failed>
        ensures same { result_ok result ≡ result_ok done }
        ensures cause { HasCause self.old.faults self.new.faults result }
    {
        let error = match done {
            Ok(value) => return Ok(value),
            Err(error) => error,
        };
        self.note_failure(&error);
        let address = Address {
            host: &self.host,
            port: self.port,
        };
        if self.heard.is_begun() {
            let call = self.heard.call();
            let what = format_args!("{address}: {call}");
            return counted(Err(error), &self.handle, what, &mut self.faults);
        }
        counted(Err(error), &self.handle, address, &mut self.faults)
    }
}

impl<N: Net + Eprint + Clock + Copy + Drop> Link for TcpLink<N> {
    ghost left = { λ _. None };

    ghost coming = { λ _. None };

    ghost held = { λ _. None };

    ghost faults = { λ s. s.faults };

    fn connect(&mut self) -> Result<(), Failed> {
        self.stream = None;
        self.heard.begin();
        self.is_due = self.silence.is_some();
        if self.is_due {
            return Ok(());
        }
        self.open(self.limit)
    }

    fn send(&mut self, piece: &[u8]) -> Result<usize, Failed> {
        self.open_for(piece)?;
        self.allow_for(piece);
        let sent = send_over(&mut self.stream, &self.handle, piece);
        if let Ok(count) = &sent {
            self.heard.ask(piece.get(..*count).unwrap_or(piece));
        }
        self.counted(sent)
    }

    fn recv(&mut self, buf: &mut [u8]) -> Result<usize, Failed> {
        let read = recv_over(&mut self.stream, &self.handle, buf);
        if let Ok(count) = &read {
            self.heard.answer(buf.get(..*count).unwrap_or(&[]));
        }
        self.counted(read)
    }

    fn hang_up(&mut self) -> Result<(), Failed> {
        self.note_answer();
        self.note_refusal();
        self.is_due = false;
        self.stream = None;
        Ok(())
    }

    /// Another link to the same host and port, with the same limits and reports, which is not yet connected. Where the peer
    /// is set aside for one of both, it is for the other.
    fn twin(&self, alloc: Global) -> Result<Self, AllocError>
        ensures handle { IfOk result (λ t. t.handle ≡ self.now.handle) }
        ensures host { IfOk result (λ t. string_bytes t.host ≡ string_bytes self.now.host) }
        ensures port { IfOk result (λ t. t.port ≡ self.now.port) }
        ensures limit { IfOk result (λ t. t.limit ≡ self.now.limit) }
        ensures long { IfOk result (λ t. t.long ≡ self.now.long) }
        ensures reports { IfOk result (λ t. t.reports ≡ self.now.reports) }
        ensures faults { IfOk result (λ t. t.faults ≡ 0) }
    {
        let host = String::from_str(alloc, self.host.as_str())?;
        Ok(TcpLink {
            alloc,
            handle: self.handle,
            host,
            port: self.port,
            limit: self.limit,
            long: self.long,
            silence: shared(&self.silence)?,
            reports: self.reports,
            is_due: false,
            stream: None,
            heard: Heard::new(alloc),
            faults: 0,
        })
    }
}

// The same place, for one more link.
fn shared(silence: &Option<Place>) -> Result<Option<Place>, AllocError> {
    match silence {
        Some(place) => Ok(Some(Place {
            peers: Arc::try_clone(&place.peers)?,
            index: place.index,
        })),
        None => Ok(None),
    }
}
