//! Connections that were accepted and whose requests are coming in.
use crate::allowance::Allowance;
use crate::callers::Callers;
use crate::request_front::Coming;
use edge_sockets::{Span, is_later, write_now};
use std::alloc::Global;
use std::io;
use std::io::{Read, Write};
use std::net::OpenStream;
use std::rt::Clock;
use std::time::Duration;

/// How many bytes are read of a connection at a time.
const PIECE_BYTES: usize = 16_384;

/// The response that asks for the body of a request (RFC 9110, section 10.1.1).
pub(crate) const CONTINUE: &[u8] = b"HTTP/1.1 100 Continue\r\n\r\n";

/// How far a request has come in.
#[derive(Clone, Copy)]
enum Progress {
    /// More of it is to come in.
    Comes,
    /// It is to be served now: it is there, or nothing more of it is waited for.
    Due,
    /// The same, since its peer says that nothing more of it comes.
    Ended,
}

/// What has come in of a request that is to be served.
#[derive(Drop)]
pub(crate) struct Arrived {
    /// Its bytes. Nothing is read after them.
    pub bytes: Vec<u8>,
    /// Whether its end was seen after them.
    pub is_ended: bool,
    /// Its peer was asked for the body, or is not to be asked any more.
    pub is_asked: bool,
}

impl Arrived {
    // Nothing of a request. Takes no memory.
    pub(crate) fn none(alloc: Global) -> Self {
        Arrived {
            bytes: Vec::new(alloc),
            is_ended: false,
            is_asked: false,
        }
    }
}

/// A connection whose request is coming in.
#[derive(Drop)]
pub(crate) struct Waiting<S> {
    stream: S,
    whole: Allowance,
    /// From when on nothing has come in, and for how long that may be so.
    silence: Allowance,
    arrived: Vec<u8>,
    coming: Coming,
    /// Its peer was asked for the body, or is not to be asked any more.
    is_asked: bool,
    progress: Progress,
}

/// What a look at the connections has found.
#[derive(Clone, Copy)]
pub(crate) enum Look {
    /// The request of the one at this place among those that wait is to be served now.
    Ready(usize),
    /// More of something has come in, or has left.
    More,
    /// Nothing can be done before something happens at a connection or at the listener, or a time is over.
    Nothing,
    /// Something could not be done, and may be later, though nothing happens at a connection or at the listener.
    Barred,
}

/// Connections whose requests are coming in.
#[derive(Drop)]
pub(crate) struct Room<S> {
    alloc: Global,
    waiting: Vec<Waiting<S>>,
}

impl<S: Read + Write + OpenStream + Drop> Room<S> {
    /// No connection waits. Takes no memory.
    pub(crate) fn new(alloc: Global) -> Self {
        Room {
            alloc,
            waiting: Vec::new(alloc),
        }
    }

    /// Whether there is a place for one more, of those that there are where these call.
    pub(crate) fn has_place(&self, callers: Callers) -> bool {
        self.waiting.len() < callers.waiting_places()
    }

    /// Lets a connection wait whose request may last that long from now on, and which may be silent that long. Where the system
    /// does not let it, or memory is wanted, the connection is ended.
    pub(crate) fn admit<C: Clock>(
        &mut self,
        clock: &C,
        stream: S,
        limit: Duration,
        silent: Duration,
    ) {
        let Ok(waiting) = Waiting::new(self.alloc, clock, stream, limit, silent) else {
            return;
        };
        let _ = self.waiting.push(waiting);
    }

    /// Whether no connection waits.
    pub(crate) fn is_empty(&self) -> bool {
        self.waiting.is_empty()
    }

    /// Makes no connection's time shorter by this pause, in which none was looked at.
    pub(crate) fn overlook(&mut self, pause: Duration) {
        'waiting: for waiting in self.waiting.iter_mut() {
            waiting.overlook(pause);
        }
    }

    /// Reads what has come in of the requests that are not there yet, asks for the bodies whose senders wait for that, gives up
    /// those that come in too slowly, and finds the first connection whose request is to be served now.
    pub(crate) fn look<C: Clock>(&mut self, clock: &C, callers: Callers, token: &str) -> Look {
        let mut ready = None;
        let mut has_come = false;
        'waiting: for (place, waiting) in self.waiting.iter_mut().enumerate() {
            has_come |= waiting.is_coming() && waiting.work(clock, callers, token);
            if ready.is_none() && !waiting.is_coming() {
                ready = Some(place);
            }
        }
        match ready {
            Some(place) => Look::Ready(place),
            None if has_come => Look::More,
            None => Look::Nothing,
        }
    }

    /// The connection at a place, which waits no longer; none where none is there.
    pub(crate) fn take(&mut self, place: usize) -> Option<Waiting<S>> {
        if place < self.waiting.len() {
            Some(self.waiting.remove(place))
        } else {
            None
        }
    }
}

impl<S: Read + Write + OpenStream + Drop> Waiting<S> {
    // A connection that waits from now on.
    fn new<C: Clock>(
        alloc: Global,
        clock: &C,
        stream: S,
        limit: Duration,
        silent: Duration,
    ) -> io::Result<Self> {
        let whole = Allowance::begin(clock, limit)?;
        let silence = Allowance::begin(clock, silent)?;
        stream.set_nonblocking(true)?;
        Ok(Waiting {
            stream,
            whole,
            silence,
            arrived: Vec::new(alloc),
            coming: Coming::new(),
            is_asked: false,
            progress: Progress::Comes,
        })
    }

    // The connection, its span, and what of its request has come in.
    pub(crate) fn into_parts(self) -> (S, Span, Arrived) {
        let Waiting {
            stream,
            whole,
            silence: _silence,
            arrived: bytes,
            coming: _coming,
            is_asked,
            progress,
        } = self;
        let is_ended = matches!(progress, Progress::Ended);
        let arrived = Arrived {
            bytes,
            is_ended,
            is_asked,
        };
        (stream, whole.span(), arrived)
    }

    // Whether more of its request is to come in.
    fn is_coming(&self) -> bool {
        matches!(self.progress, Progress::Comes)
    }

    // Reads what has come in, and says whether anything has. Where its peer waits to be asked for the body, it is. Where
    // nothing has come in and its time is over, it is given up: so nothing that has come in already is lost by that.
    fn work<C: Clock>(&mut self, clock: &C, callers: Callers, token: &str) -> bool {
        let has_come = self.read(clock, callers, token);
        if !has_come && self.is_late(clock) {
            self.give_up();
        }
        if self.is_coming() && !self.is_asked && self.coming.waits_to_be_asked() {
            self.ask();
        }
        has_come
    }

    // Asks its peer for the body. Where the system takes nothing now, that is left to the next look.
    fn ask(&mut self) {
        match write_now(&mut self.stream, CONTINUE) {
            Ok(0) => {}
            Ok(count) if count == CONTINUE.len() => self.is_asked = true,
            _ => self.give_up(),
        }
    }

    // Nothing more of its request is waited for.
    fn give_up(&mut self) {
        self.is_asked = true;
        self.progress = Progress::Due;
    }

    // Reads what has come in, and says whether anything has. Where memory is wanted for it, nothing more is waited for.
    fn read<C: Clock>(&mut self, clock: &C, callers: Callers, token: &str) -> bool {
        let mut piece = [0; PIECE_BYTES];
        if self.arrived.reserve(PIECE_BYTES).is_err() {
            self.give_up();
            return false;
        }
        match self.stream.read(&mut piece) {
            Err(error) if is_later(error.kind()) => false,
            Ok(0) => {
                self.progress = Progress::Ended;
                false
            }
            Err(_) => {
                self.give_up();
                false
            }
            Ok(count) => {
                self.keep(clock, piece.get(..count).unwrap_or(&[]));
                self.judge(callers, token);
                true
            }
        }
    }

    // Looks whether its request is to be served now.
    fn judge(&mut self, callers: Callers, token: &str) {
        if self
            .coming
            .is_ready(self.arrived.as_slice(), callers, token)
        {
            self.progress = Progress::Due;
        }
    }

    // Keeps a piece, for which there is room.
    fn keep<C: Clock>(&mut self, clock: &C, piece: &[u8]) {
        let _ = self.arrived.extend_from_slice(piece);
        if let Ok(silence) = self.silence.again(clock) {
            self.silence = silence;
        }
    }

    // Whether more of its request is to come in, and its time is over.
    fn is_late<C: Clock>(&self, clock: &C) -> bool {
        self.is_coming() && (self.whole.is_over(clock) || self.silence.is_over(clock))
    }

    // Its time is no shorter by this pause.
    fn overlook(&mut self, pause: Duration) {
        self.whole = self.whole.with_pause(pause);
        self.silence = self.silence.with_pause(pause);
    }
}
