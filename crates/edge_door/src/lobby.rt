//! The connections of a door that are not being served: those that wait for that, and those that leave.
use crate::callers::Callers;
use crate::leaving::{Exit, Leaving};
use crate::tcp_conn::{LIMIT_SECONDS, READ_SECONDS};
use crate::waiting::{Look, Room, Waiting};
use crate::wakes::Wakes;
use edge_clock::Halt;
use edge_sockets::Address;
use std::alloc::Global;
use std::io::{Eprint, ErrorKind};
use std::net::{Net, OpenListener, TcpListener};
use std::rt::Clock;
use std::time::{Duration, Instant};
use std::{io, thread};

/// For how many milliseconds the door of key managers waits after the system could not accept for now.
const NAP_MILLISECONDS: u64 = 100;

/// The system's number for a process that may open no more files.
const NO_MORE_FILES: i32 = 24;

/// The system's number for a machine that may open no more files.
const NO_MORE_FILES_AT_ALL: i32 = 23;

/// The system's number for a fault of the protocol of one connection.
const PROTOCOL_FAULT: i32 = 71;

/// The system's number for want of buffers.
const NO_BUFFERS: i32 = 105;

/// The system's number for a protocol that is not there.
const NO_PROTOCOL: i32 = 92;

/// The system's number for a machine that is on no network.
const NO_NETWORK: i32 = 64;

/// The system's number for a host that is down.
const HOST_DOWN: i32 = 112;

/// The system's number for what a socket cannot do.
const NOT_SUPPORTED: i32 = 95;

/// The system's number for a connection that its firewall forbids.
const FORBIDDEN: i32 = 1;

/// The connections of a door at an address that are not being served, each of which goes on next to the others. Where it is
/// dropped, what is left of the replies is sent first.
///
/// It looks at all of them, and waits where it finds nothing to do. What happens at one of them, or at the listener, ends the
/// wait, so each look goes on until nothing more can be done. Where something is left that may be done later, it only naps.
///
/// The times of all go on from one turn at the door to the next, so that a peer that sends a byte now and then is given up in its
/// time, however many others are served meanwhile. Only the time in which nobody looked counts for no connection.
pub(crate) struct Lobby<'a, N: Net + Eprint + Clock + Drop> {
    handle: N,
    host: String,
    port: u16,
    token: String,
    halt: &'a Halt,
    room: Room<N::Stream>,
    exit: Exit<N::Stream>,
    wakes: Wakes,
    /// Who calls at the door.
    pub callers: Callers,
    /// When the connections were looked at last.
    looked: Option<Instant>,
    /// The system could not accept at the last try, which was reported.
    is_barred: bool,
}

impl<'a, N: Net + Eprint + Clock + Drop> Lobby<'a, N> {
    // That of a door to which no connection came yet. Takes no memory.
    pub(crate) fn new(
        alloc: Global,
        handle: N,
        host: String,
        port: u16,
        token: String,
        halt: &'a Halt,
    ) -> Self {
        Lobby {
            handle,
            host,
            port,
            token,
            halt,
            room: Room::new(alloc),
            exit: Exit::new(alloc),
            wakes: Wakes::new(alloc),
            callers: Callers::KeyManagers,
            looked: None,
            is_barred: false,
        }
    }

    // What its connections are reached by.
    pub(crate) fn handle(&self) -> &N {
        &self.handle
    }

    // Where the door is.
    pub(crate) fn address(&self) -> Address<'_> {
        Address {
            host: &self.host,
            port: self.port,
        }
    }

    // A listener at the address, whose `accept` does not wait.
    pub(crate) fn bind(&mut self) -> io::Result<N::Listener> {
        let listener = TcpListener::bind(&self.handle, (self.host.as_str(), self.port))?;
        listener.set_nonblocking(true)?;
        self.wakes.begin(&self.handle, &listener);
        Ok(listener)
    }

    // Begins a turn: the time since the last look, in which nobody looked, counts for no connection.
    fn resume(&mut self) {
        if let Some(looked) = self.looked
            && let Ok(pause) = looked.elapsed(&self.handle)
        {
            self.room.overlook(pause);
            self.exit.overlook(pause);
        }
        self.looked = Instant::now(&self.handle).ok();
    }

    // The next connection whose request is there, of those that a listener accepts, once there is room for it to leave. None
    // once the halt is raised, and no connection leaves any more.
    pub(crate) fn next(
        &mut self,
        listener: &N::Listener,
    ) -> io::Result<Option<Waiting<N::Stream>>> {
        self.resume();
        let mut nap = self.callers.first_nap();
        'looks: for _ in 0..u64::MAX {
            if self.halt.is_raised() {
                self.send_out();
                return Ok(None);
            }
            let has_room = self.exit.make_room().is_ok();
            match self.look(listener)? {
                Look::Ready(place) if has_room => {
                    if let Some(waiting) = self.room.take(place) {
                        return Ok(Some(waiting));
                    }
                }
                Look::More => nap = self.next_nap(),
                found => nap = self.look_later(found, nap),
            }
        }
        Ok(None)
    }

    // Lets a connection leave that was handed back. What it and others have of time begins then, or goes on.
    pub(crate) fn admit_leaving(&mut self, leaving: Leaving<N::Stream>) {
        self.resume();
        self.exit.admit(&self.handle, leaving);
    }

    // Lets connections leave and come, until there is no need to, or one is ready to be served. In the end there is a place for
    // one more to leave. Once the halt is raised none comes any more, and no peer is asked for the body of its request.
    pub(crate) fn go_on(&mut self, listener: &N::Listener) {
        self.resume();
        let mut nap = self.callers.first_nap();
        'looks: for _ in 0..u64::MAX {
            if self.halt.is_raised() {
                return self.send_out();
            }
            if self.may_pass_on() {
                return;
            }
            let found = self.look(listener).unwrap_or(Look::Barred);
            if matches!(found, Look::Ready(_)) && self.exit.has_place(self.callers) {
                return;
            }
            nap = match found {
                Look::More => self.next_nap(),
                found => self.look_later(found, nap),
            };
        }
    }

    // Whether nothing is to be waited for before the next connection is taken: a loop lets all leave, and lanes take the next
    // at once, where a place is left for it to leave, since others go on meanwhile.
    fn may_pass_on(&self) -> bool {
        match self.callers {
            Callers::KeyManagers => self.exit.is_empty(),
            Callers::ValidatorClients => self.exit.has_place(self.callers),
        }
    }

    // Lets all connections leave after the last was served.
    pub(crate) fn empty(&mut self) {
        self.resume();
        self.send_out();
    }

    // Lets all connections leave.
    fn send_out(&mut self) {
        let mut nap = self.callers.first_nap();
        'looks: for _ in 0..u64::MAX {
            if self.exit.is_empty() {
                return;
            }
            nap = if self.exit.work(&self.handle) {
                self.callers.first_nap()
            } else {
                self.look_later(Look::Nothing, nap)
            };
        }
    }

    // For how many microseconds it naps after a look that found something.
    fn next_nap(&self) -> u64 {
        if self.room.is_empty() {
            self.callers.first_nap()
        } else {
            self.callers.first_look()
        }
    }

    // Goes on with all connections, each as far as it does not wait.
    fn look(&mut self, listener: &N::Listener) -> io::Result<Look> {
        self.looked = Instant::now(&self.handle).ok();
        let has_left = self.exit.work(&self.handle);
        let has_come = self.admit(listener)?;
        let token = self.token.as_str();
        match self.room.look(&self.handle, self.callers, token) {
            Look::Nothing if has_left || has_come => Ok(Look::More),
            Look::Nothing if self.is_barred => Ok(Look::Barred),
            found => Ok(found),
        }
    }

    // Lets the connections wait that the listener accepts now, as far as there are places for them, and says whether any came: so
    // many that come at once do not stand in the system's queue, which is short.
    fn admit(&mut self, listener: &N::Listener) -> io::Result<bool> {
        let mut has_come = false;
        'connections: for _ in 0..u64::MAX {
            if !self.admit_next(listener)? {
                return Ok(has_come);
            }
            has_come = true;
        }
        Ok(has_come)
    }

    // Lets the next connection wait that the listener accepts now, where there is a place for one, and says whether one
    // came. What passes is waited out, and reported once.
    fn admit_next(&mut self, listener: &N::Listener) -> io::Result<bool> {
        if !self.room.has_place(self.callers) {
            return Ok(false);
        }
        match listener.accept() {
            Ok((stream, _)) => {
                self.is_barred = false;
                self.let_wait(stream);
                Ok(true)
            }
            Err(error) if error.kind() == ErrorKind::WouldBlock => {
                self.is_barred = false;
                Ok(false)
            }
            Err(error) if is_of_one(error.kind()) => Ok(true),
            Err(error) if is_passing(&error) => {
                self.wait_out(&error);
                Ok(false)
            }
            Err(error) => Err(error),
        }
    }

    // Lets a connection wait that was accepted, and watches it from before the first look at it.
    fn let_wait(&mut self, stream: N::Stream) {
        self.wakes.watch(&stream);
        let limit = Duration::from_secs(LIMIT_SECONDS);
        let silent = Duration::from_secs(READ_SECONDS);
        self.room.admit(&self.handle, stream, limit, silent);
    }

    // Waits after a look that has found this, where nothing is left to do until something happens, and else naps for that many
    // microseconds; too short a nap is left out. Gives for how many to nap the next time.
    fn look_later(&mut self, found: Look, microseconds: u64) -> u64 {
        if microseconds < self.callers.shortest_nap() {
            thread::yield_now();
            return self.callers.later_look(microseconds);
        }
        let nap = Duration::from_micros(microseconds);
        if matches!(found, Look::Nothing) {
            let longest = Duration::from_micros(self.callers.longest_wait(microseconds));
            self.wakes.wait(&self.handle, nap, longest);
        } else {
            thread::sleep(&self.handle, nap);
        }
        self.callers.later_look(microseconds)
    }

    // Reports a failure that passes, where that was not reported yet, and waits a little. What validator clients have sent
    // already does not wait for that.
    fn wait_out(&mut self, error: &io::Error) {
        if !self.is_barred {
            self.report(error);
        }
        self.is_barred = true;
        if matches!(self.callers, Callers::KeyManagers) {
            thread::sleep(&self.handle, Duration::from_millis(NAP_MILLISECONDS));
        }
    }

    // Reports a failure at the address.
    fn report(&self, error: &io::Error) {
        let host = self.host.as_str();
        let port = self.port;
        let _ = eprintln!(&self.handle; "{host}:{port}: {error}");
    }
}

impl<N: Net + Eprint + Clock + Drop> Drop for Lobby<'_, N> {
    fn drop(mut self) {
        self.send_out();
        let Lobby {
            handle: _handle,
            host: _host,
            port: _port,
            token: _token,
            halt: _halt,
            room: _room,
            exit: _exit,
            wakes: _wakes,
            callers: _callers,
            looked: _looked,
            is_barred: _is_barred,
        } = self;
    }
}

// Whether a failure is that of one connection, or of none.
fn is_of_one(kind: ErrorKind) -> bool {
    matches!(
        kind,
        ErrorKind::Interrupted | ErrorKind::ConnectionAborted | ErrorKind::ConnectionReset
    )
}

// Whether a failure is one of the system that passes.
fn is_passing(error: &io::Error) -> bool {
    match error.raw_os_error() {
        Some(NO_MORE_FILES | NO_MORE_FILES_AT_ALL | PROTOCOL_FAULT | NO_BUFFERS) => true,
        Some(NO_PROTOCOL | NO_NETWORK | HOST_DOWN | NOT_SUPPORTED | FORBIDDEN) => true,
        _ => matches!(
            error.kind(),
            ErrorKind::NetworkDown
                | ErrorKind::NetworkUnreachable
                | ErrorKind::HostUnreachable
                | ErrorKind::OutOfMemory
        ),
    }
}
