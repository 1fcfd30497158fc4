//! Who calls at a door.

/// Who calls at a door, by which it lets heads in, and by which it waits and looks.
#[derive(Clone, Copy, PartialEq, Eq, Debug)]
pub enum Callers {
    /// Key managers, whose requests are rare and have no hurry. One loop takes a connection, serves it and hands it back
    /// before it takes the next. Each request needs the token.
    KeyManagers,
    /// Validator clients, and key managers as well. Many lanes take turns at the door: one hands the connection back that it
    /// served before and takes the next, which it serves while others take their turns. A request for a signature, for the
    /// keys, or whether anyone is there needs no token.
    ValidatorClients,
}

impl Callers {
    /// How many connections wait at most. Validator clients may send the requests of a slot over as many connections, next to
    /// slow peers.
    pub(crate) fn waiting_places(self) -> usize {
        match self {
            Callers::KeyManagers => 8,
            Callers::ValidatorClients => 256,
        }
    }

    /// How many connections leave at most: where validator clients call, one a lane, of which there are 64 at most.
    pub(crate) fn leaving_places(self) -> usize {
        match self {
            Callers::KeyManagers => 8,
            Callers::ValidatorClients => 64,
        }
    }

    /// For how many microseconds the door naps after a look, where no connection waits for its request to come in, before it looks
    /// again whether one came, more can be sent, or its halt was raised.
    pub(crate) fn first_nap(self) -> u64 {
        match self {
            Callers::KeyManagers => 1_000,
            Callers::ValidatorClients => 100,
        }
    }

    /// For how many microseconds it naps after a look that found something, where a connection waits for its request to come in.
    /// Naps below `shortest_nap` are left out.
    pub(crate) fn first_look(self) -> u64 {
        match self {
            Callers::KeyManagers => 1_000,
            Callers::ValidatorClients => 10,
        }
    }

    /// Naps that are shorter than this many microseconds are left out: the door looks again at once, and only lets others run
    /// before. The request of a validator client follows its connection within some 50 microseconds, and to fall asleep and to
    /// be woken takes as long as that. Where no connection waits it naps all the same: the lane that serves the one before is to
    /// have the processor.
    pub(crate) fn shortest_nap(self) -> u64 {
        match self {
            Callers::KeyManagers => 0,
            Callers::ValidatorClients => 100,
        }
    }

    /// For how many microseconds it naps the next time, after it napped for this many and found nothing. A signature that is
    /// wanted waits for a look, and it is worth less the later it comes: so where validator clients call, the naps grow slowly,
    /// and requests that follow each other are seen soon. The request of a key manager has time.
    pub(crate) fn later_look(self, microseconds: u64) -> u64 {
        match self {
            Callers::KeyManagers => microseconds.saturating_mul(2).min(50_000),
            Callers::ValidatorClients => microseconds
                .saturating_add(microseconds / 8)
                .saturating_add(1)
                .min(2_000),
        }
    }

    /// For how many microseconds it waits at most in place of a nap of this many, where the system ends the wait once there is
    /// something to do: only a halt, and the time of a connection that is over, are seen as late as that.
    pub(crate) fn longest_wait(self, microseconds: u64) -> u64 {
        match self {
            Callers::KeyManagers => microseconds,
            Callers::ValidatorClients => microseconds.saturating_mul(10),
        }
    }

    /// Whether the calls of validator clients are served.
    pub(crate) fn has_validator_clients(self) -> bool {
        matches!(self, Callers::ValidatorClients)
    }
}
