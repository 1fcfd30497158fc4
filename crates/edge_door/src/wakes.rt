//! What ends the waits of a door before their time.
use mio::unix::SourceFd;
use mio::{Events, Interest, Poll, Token};
use std::alloc::Global;
use std::net::Net;
use std::os::fd::AsRawFd;
use std::rt::Clock;
use std::time::Duration;
use std::{io, thread};

/// How many events one wait takes at most. Each that is left ends the next wait.
const MOST_EVENTS: usize = 64;

/// Descriptors that the system watches.
#[derive(Drop)]
struct Set {
    poll: Poll,
    events: Events<Global>,
}

impl Set {
    // That of no descriptor.
    fn new<N: Net>(alloc: Global, net: &N) -> io::Result<Self> {
        Ok(Set {
            poll: Poll::new(net)?,
            events: Events::with_capacity(alloc, MOST_EVENTS)?,
        })
    }

    // Watches one descriptor more, until it is closed.
    fn add<F: AsRawFd>(&self, source: &F) -> io::Result<()> {
        let descriptor = source.as_raw_fd();
        self.poll.registry().register(
            &mut SourceFd(&descriptor),
            Token(0),
            Interest::READABLE | Interest::WRITABLE,
        )
    }

    // Waits for an event, for that long at most.
    fn wait(&mut self, longest: Duration) -> io::Result<()> {
        self.poll.poll(&mut self.events, Some(longest))
    }
}

/// What ends the waits of a door. An event ends a wait and decides nothing: what there is to do is found by looking. It comes
/// at a change, so all that can be done is to be done before a wait for one.
#[derive(Drop)]
pub(crate) struct Wakes {
    alloc: Global,
    /// All descriptors of the door. None where the system does not watch them all: then no event ends a wait.
    set: Option<Set>,
}

impl Wakes {
    // Before the first descriptor. Takes no memory.
    pub(crate) fn new(alloc: Global) -> Self {
        Wakes { alloc, set: None }
    }

    // Watches this descriptor alone from now on, which is the first of a door.
    pub(crate) fn begin<N: Net, F: AsRawFd>(&mut self, net: &N, first: &F) {
        self.set = Set::new(self.alloc, net).ok();
        self.watch(first);
    }

    // Watches one descriptor more, until it is closed.
    pub(crate) fn watch<F: AsRawFd>(&mut self, source: &F) {
        if let Some(set) = &self.set
            && set.add(source).is_err()
        {
            self.set = None;
        }
    }

    // Waits for an event, for the longest time at most; for the length of the nap where none would end the wait.
    pub(crate) fn wait<C: Clock>(&mut self, clock: &C, nap: Duration, longest: Duration) {
        if let Some(set) = &mut self.set
            && set.wait(longest).is_ok()
        {
            return;
        }
        self.set = None;
        thread::sleep(clock, nap);
    }
}
