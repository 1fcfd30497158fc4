//! Connections that were served, and whose replies the system has not taken yet, or may still take back.
use crate::allowance::Allowance;
use crate::api::Api;
use crate::callers::Callers;
use crate::rest::Rest;
use crate::tcp_conn::LIMIT_SECONDS;
use edge_sockets::{Heard, Span, Visible, is_later};
use std::alloc::{AllocError, Global};
use std::io::{Eprint, Read, Write};
use std::net::{OpenStream, Shutdown};
use std::rt::Clock;
use std::time::Duration;
use std::{io, thread};

/// For how many milliseconds whoever waits until a reply is sent waits at most before more of it is sent.
const LONGEST_NAP: u64 = 50;

/// How many bytes are read of a connection at a time.
const PIECE_BYTES: usize = 16_384;

/// How many milliseconds the peer of a reply that was sent may be silent before its connection is dropped.
const SILENT_MILLISECONDS: u64 = 500;

/// For how many seconds what the peer sends after its reply is read at most.
const READING_SECONDS: u64 = 2;

/// How far a connection is that leaves.
#[derive(Clone, Copy)]
enum Stage {
    /// Its reply is sent, within this time.
    Sends(Allowance),
    /// Its reply was sent, and what its peer still sends is read and dropped, so that the system does not take the reply
    /// back: within the whole of the one span, and as long as the peer is silent no longer than the other one.
    Reads {
        whole: Allowance,
        silence: Allowance,
    },
    /// Nothing goes over it any more.
    Over,
}

impl Stage {
    // The same stage, whose time is no shorter by this pause.
    fn with_pause(self, pause: Duration) -> Stage {
        match self {
            Stage::Sends(whole) => Stage::Sends(whole.with_pause(pause)),
            Stage::Reads { whole, silence } => Stage::Reads {
                whole: whole.with_pause(pause),
                silence: silence.with_pause(pause),
            },
            Stage::Over => Stage::Over,
        }
    }

    // The same stage, of which the whole time of reading begins now. Where the peer was silent for long enough before, it
    // still was.
    fn with_reading<C: Clock>(self, clock: &C) -> io::Result<Stage> {
        match self {
            Stage::Reads { whole, silence } => Ok(Stage::Reads {
                whole: whole.again(clock)?,
                silence,
            }),
            Stage::Sends(_) | Stage::Over => Ok(self),
        }
    }
}

/// A connection that leaves.
#[derive(Drop)]
pub(crate) struct Leaving<S> {
    stream: S,
    rest: Rest,
    stage: Stage,
    api: Api,
    heard: Heard,
}

/// Connections that leave.
#[derive(Drop)]
pub(crate) struct Exit<S> {
    leaving: Vec<Leaving<S>>,
}

impl<S: Read + Write + OpenStream + Drop> Exit<S> {
    /// No connection leaves. Takes no memory.
    pub(crate) fn new(alloc: Global) -> Self {
        Exit {
            leaving: Vec::new(alloc),
        }
    }

    /// Makes room for one more, so that none takes memory when it leaves.
    pub(crate) fn make_room(&mut self) -> Result<(), AllocError> {
        self.leaving.reserve(1)
    }

    /// Whether there is a place for one more, of those that there are where these call.
    pub(crate) fn has_place(&self, callers: Callers) -> bool {
        self.leaving.len() < callers.leaving_places()
    }

    /// Whether no connection leaves.
    pub(crate) fn is_empty(&self) -> bool {
        self.leaving.is_empty()
    }

    /// Makes no connection's time shorter by this pause, in which none was gone on with.
    pub(crate) fn overlook(&mut self, pause: Duration) {
        'leaving: for leaving in self.leaving.iter_mut() {
            leaving.stage = leaving.stage.with_pause(pause);
        }
    }

    /// Lets a connection leave. Where there is no room for it, it is dropped.
    pub(crate) fn admit<C: Clock>(&mut self, clock: &C, mut leaving: Leaving<S>) {
        leaving.stage = leaving.stage.with_reading(clock).unwrap_or(leaving.stage);
        let _ = self.leaving.push(leaving);
    }

    /// Sends what the system takes at once, and reads what has come in. Says whether it did anything, or ended one. Whoever has
    /// nothing more to send or to read leaves no longer.
    pub(crate) fn work<C: Eprint + Clock>(&mut self, handle: &C) -> bool {
        let mut has_worked = false;
        'leaving: for leaving in self.leaving.iter_mut() {
            has_worked |= leaving.work(handle);
        }
        self.leaving.retain(|leaving| !leaving.is_over());
        has_worked
    }
}

impl<S: Read + Write + OpenStream + Drop> Leaving<S> {
    /// A connection that does not wait for its peer, of whose reply this rest is to be sent within this span.
    pub(crate) fn new(stream: S, rest: Rest, span: Span, api: Api, heard: Heard) -> Self {
        Leaving {
            stream,
            rest,
            stage: Stage::Sends(Allowance::of(span, Duration::from_secs(LIMIT_SECONDS))),
            api,
            heard,
        }
    }

    /// Sends what is left of its reply within its span, waits for that, and says to the peer that nothing further comes. All
    /// memory that it needed for that is given back.
    pub(crate) fn see_off<C: Eprint + Clock>(&mut self, alloc: Global, handle: &C) {
        self.send_all(handle);
        self.rest = Rest::new(alloc);
        self.heard = Heard::new(alloc);
    }

    // Sends what is left of its reply within its span, and waits for that.
    fn send_all<C: Eprint + Clock>(&mut self, handle: &C) {
        let mut nap: u64 = 1;
        'sends: for _ in 0..u64::MAX {
            let Stage::Sends(whole) = self.stage else {
                return;
            };
            if self.send(handle, whole) {
                nap = 1;
            } else {
                thread::sleep(handle, Duration::from_millis(nap));
                nap = nap.saturating_mul(2).min(LONGEST_NAP);
            }
        }
    }

    /// Whether nothing goes over it any more.
    pub(crate) fn is_over(&self) -> bool {
        matches!(self.stage, Stage::Over)
    }

    // Does what can be done now, and says whether that was anything, or ended it.
    fn work<C: Eprint + Clock>(&mut self, handle: &C) -> bool {
        match self.stage {
            Stage::Sends(whole) => self.send(handle, whole),
            Stage::Reads { whole, silence } => self.read(handle, whole, silence),
            Stage::Over => false,
        }
    }

    // Sends what the system takes at once, and says whether that was anything, or ended it.
    fn send<C: Eprint + Clock>(&mut self, handle: &C, whole: Allowance) -> bool {
        let Ok(count) = self.rest.send(&mut self.stream) else {
            self.stage = Stage::Over;
            return true;
        };
        if self.rest.is_empty() {
            self.stage = self.shut(handle).unwrap_or(Stage::Over);
            return true;
        }
        if whole.is_over(handle) {
            self.report(handle);
            self.stage = Stage::Over;
        }
        count > 0 || self.is_over()
    }

    // Says to the peer that nothing further comes.
    fn shut<C: Clock>(&self, clock: &C) -> io::Result<Stage> {
        self.stream.shutdown(Shutdown::Write)?;
        let whole = Allowance::begin(clock, Duration::from_secs(READING_SECONDS))?;
        let silence = Allowance::begin(clock, Duration::from_millis(SILENT_MILLISECONDS))?;
        Ok(Stage::Reads { whole, silence })
    }

    // Reads what has come in, and says whether that was anything, or ended it.
    fn read<C: Clock>(&mut self, clock: &C, whole: Allowance, silence: Allowance) -> bool {
        let mut piece = [0; PIECE_BYTES];
        let has_come = match self.stream.read(&mut piece) {
            Err(error) if is_later(error.kind()) => false,
            Ok(0) | Err(_) => {
                self.stage = Stage::Over;
                return true;
            }
            Ok(_) => true,
        };
        self.stage = read_on(clock, whole, silence, has_come).unwrap_or(Stage::Over);
        has_come || self.is_over()
    }

    // Reports that the reply was not taken in its time.
    fn report<E: Eprint>(&self, handle: &E) {
        let api = self.api;
        let call = self.heard.call_without_query();
        let status = Visible(self.heard.status().unwrap_or(&[]));
        let _ = eprintln!(handle; "{api}: {call}: {status}: the reply was not read in time");
    }
}

// The stage of a connection of which more is read, where there is time for that.
fn read_on<C: Clock>(
    clock: &C,
    whole: Allowance,
    silence: Allowance,
    has_come: bool,
) -> io::Result<Stage> {
    let silence = if has_come {
        silence.again(clock)?
    } else {
        silence
    };
    if whole.is_over(clock) || silence.is_over(clock) {
        return Ok(Stage::Over);
    }
    Ok(Stage::Reads { whole, silence })
}
