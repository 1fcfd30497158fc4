//! A TCP listener of the system as a door. It tells nothing of its connections.
ghost use Rattle.std.specs.Prelude.{◌≡◌, None};
ghost use Rattle.std.specs.Result.{result_ok};
ghost use Rattle.edge_kit.specs.Causes.{HasCause};

use crate::callers::Callers;
use crate::lobby::Lobby;
use crate::tcp_conn::TcpConn;
use crate::waiting::Waiting;
use edge_clock::Halt;
use edge_kit::{Door, Failed};
use edge_system::{Reports, counted};
use std::alloc::Global;
use std::io;
use std::io::Eprint;
use std::net::Net;
use std::rt::Clock;

/// A door at an address, or a host's name, and a port, with a count of its failures. It listens from the first
/// `listen` or `accept` on. What the system says of a failure is reported on standard error. A connection that ends
/// while it is accepted is passed over. Where the system cannot accept for now, as when the process may open no more
/// files, that is reported once, and the door tries again until it can. Once its halt is raised `accept` waits for no
/// connection: no further one comes, and no peer is asked for a body.
///
/// Some connections wait next to each other until their requests have come in, so that a slow peer bars no other: the first
/// whose request is there is given first, and nothing more of it is waited for. One whose head does not have the token is given
/// once that head is there. A peer that has it and sends its body only once it is asked to (RFC 9110, `Expect`) is asked as
/// soon as its head is there, and waits like others.
///
/// A connection that was taken back leaves next to the others: what is left of its reply is sent as its peer takes it, and
/// then what the peer still sends is read and dropped, for 2 seconds at most and until it is silent for half a second, so
/// that the system does not take the reply back. A reply that was begun is sent within its time whatever ends the door. Where a
/// connection is known to be the last that is accepted, or the halt is raised, `finish` goes on until none leaves any more.
///
/// Key managers call as long as nothing else is set: one loop takes a connection, serves it, and hands it back before it takes
/// the next. Eight wait at most. `finish` goes on with what leaves until none does any more, or a request is there to be served.
/// Up to eight leave at a time; where there are as many, `finish` waits until one has left.
///
/// Where validator clients call, lanes take turns at the door, each of which hands a connection back and takes the next, and
/// several are served at a time. Then a request for a signature, for the keys, or whether anyone is there, needs no token, and
/// is given once it is whole. 256 wait at most, and 64 leave. `finish` waits for none that leaves, unless there is no place for
/// one more: `accept` goes on with them. What is left of a reply was sent by `hang_up`, and a connection whose peer has ended
/// it, or was silent for half a second since, leaves at the next look.
///
/// The time of a connection that waits or leaves goes on from turn to turn, so that a slow peer's time never begins anew. Only
/// what passes while nobody is at the door does not count, and what has come in until then is read before a request is given
/// up, so that no request that is there whole is lost.
///
/// The system ends the wait of a door (`epoll`) once something happens at its listener or at a connection. A wait lasts 20
/// milliseconds at most where validator clients call, and 50 where key managers do, and a halt is seen after it. Where the
/// system does not watch all of them, the door looks by itself, each 2 milliseconds at least, or each 50.
#[derive(Drop)]
pub struct TcpDoor<'a, N: Net + Eprint + Clock + Drop> {
    alloc: Global,
    reports: Reports,
    listener: Option<N::Listener>,
    lobby: Lobby<'a, N>,
    /// How many connections are still to come.
    left: u64,
    faults: u64,
}

impl<'a, N: Net + Eprint + Clock + Drop> TcpDoor<'a, N> {
    /// A door that doesn't listen yet, and that accepts nothing once this halt is raised. This is the token that requests need.
    pub fn new(
        alloc: Global,
        handle: N,
        host: String,
        port: u16,
        token: String,
        halt: &'a Halt,
    ) -> Self
        ensures { result.faults ≡ 0 }
    {
        TcpDoor {
            alloc,
            reports: Reports::All,
            listener: None,
            lobby: Lobby::new(alloc, handle, host, port, token, halt),
            left: u64::MAX,
            faults: 0,
        }
    }

    /// Sets which reports are made by connections that are accepted from now on. That a request changes something, and that a
    /// key is taken in or given up, is no fault.
    pub fn set_reports(&mut self, reports: Reports)
        ensures reports { self.new.reports ≡ reports }
        ensures faults { self.new.faults ≡ self.old.faults }
    {
        self.reports = reports;
    }

    /// Sets who calls at the door, which is to be done before the first `accept`.
    pub fn set_callers(&mut self, callers: Callers)
        ensures callers { self.new.lobby.callers ≡ callers }
        ensures faults { self.new.faults ≡ self.old.faults }
    {
        self.lobby.callers = callers;
    }

    /// Sets how many connections are still to be accepted, so that the last of them is known as such.
    pub fn set_count(&mut self, count: u64)
        ensures left { self.new.left ≡ count }
        ensures faults { self.new.faults ≡ self.old.faults }
    {
        self.left = count;
    }

    /// How many calls have failed.
    pub fn faults(&self) -> u64
        ensures { result ≡ self.now.faults }
    {
        self.faults
    }

    /// Listens from now on, where it doesn't yet, so that a port that is taken is known before the first `accept`.
    /// A failure is counted and reported as that of `accept` is.
    pub fn listen(&mut self) -> Result<(), Failed>
        ensures cause { HasCause self.old.faults self.new.faults result }
    {
        let opened = self.open();
        self.counted(opened)
    }

    // Listens from now on.
    fn open(&mut self) -> io::Result<()>
        ensures { self.new.faults ≡ self.old.faults }
    {
        let listener = self.take()?;
        self.listener = Some(listener);
        Ok(())
    }

    // The listener for one call, which listens where none did yet.
    fn take(&mut self) -> io::Result<N::Listener>
        ensures { self.new.faults ≡ self.old.faults }
    {
        match self.listener.take() {
            Some(listener) => Ok(listener),
            None => self.lobby.bind(),
        }
    }

    // The next connection whose request is there, of those that the listener accepts, which listens from now on; none once
    // the halt is raised.
    fn next(&mut self) -> io::Result<Option<Waiting<N::Stream>>>
        ensures { self.new.faults ≡ self.old.faults }
    {
        let listener = self.take()?;
        let next = self.lobby.next(&listener);
        self.listener = Some(listener);
        next
    }

    // What the system answered, whose failure is counted and reported.
    fn counted<T>(&mut self, done: io::Result<T>) -> Result<T, Failed>
        ensures same { result_ok result ≡ result_ok done }
        ensures cause { HasCause self.old.faults self.new.faults result }
    {
        let address = self.lobby.address();
        counted(done, self.lobby.handle(), address, &mut self.faults)
    }
}

impl<N: Net + Eprint + Clock + Copy + Drop> TcpDoor<'_, N> {
    // A connection whose request is there.
    fn served(&self, waiting: Waiting<N::Stream>) -> TcpConn<N::Stream, N>
        ensures { result.faults ≡ 0 }
    {
        let (stream, span, arrived) = waiting.into_parts();
        let handle = *self.lobby.handle();
        let callers = self.lobby.callers;
        TcpConn::new(
            self.alloc,
            stream,
            span,
            arrived,
            handle,
            callers,
            self.reports,
        )
    }
}

impl<N: Net + Eprint + Clock + Copy + Drop> Door for TcpDoor<'_, N> {
    type Conn = TcpConn<N::Stream, N>;

    ghost coming = { λ _. None };

    ghost finished = { λ _. None };

    ghost lent = { λ _. None };

    ghost faults = { λ d. d.faults };

    fn accept(&mut self) -> Result<Option<TcpConn<N::Stream, N>>, Failed> {
        let next = self.next();
        let Some(waiting) = self.counted(next)? else {
            return Ok(None);
        };
        self.left = self.left.saturating_sub(1);
        Ok(Some(self.served(waiting)))
    }

    fn finish(&mut self, conn: TcpConn<N::Stream, N>) {
        if let Some(leaving) = conn.into_leaving() {
            self.lobby.admit_leaving(leaving);
        }
        match &self.listener {
            Some(listener) if self.left > 0 => self.lobby.go_on(listener),
            _ => self.lobby.empty(),
        }
    }
}
