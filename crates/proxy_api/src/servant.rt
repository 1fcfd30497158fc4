//! Who serves connections.
ghost use Rattle.std.specs.Prelude.{◌≡◌};
ghost use Rattle.client_calls.specs.Seats.{at_seat, signer_seen};
ghost use Rattle.keymanager_api.specs.Doors.{link_seen};
ghost use Rattle.proxy_api.specs.Attending.{AttendsAt, terms_of};

use crate::serve::sign_connection;
use desk_machine::DeskCalls;
use door_lanes::Serves;
use duty_turns::{epoch_of, slot_of};
use edge_clock::Clock;
use edge_kit::{Link, Root};
use keymanager_api::has_failed;
use signer_link::Signer;
use std::alloc::Global;

/// Serves the connections of a proxy, with a desk and a signer. Each request is answered at the epoch of the clock's moment, 0
/// before the chain began.
#[derive(Drop)]
pub struct ProxyServant<'a, K, S, C> {
    /// Where memory comes from.
    pub alloc: Global,
    /// The token that a request of the Keymanager API must carry.
    pub token: &'a str,
    /// The root of the chain's genesis validators.
    pub genesis: Root,
    /// When the chain began, in seconds since 1970.
    pub genesis_time: u64,
    /// Tells the moment.
    pub clock: &'a C,
    /// Decides what is signed, and keeps it.
    pub desk: K,
    /// Signs.
    pub signer: S,
}

impl<'a, K: DeskCalls, S: Signer, C: Clock, L: Link> Serves<L> for ProxyServant<'a, K, S, C> {
    ghost ready = { λ s. K.ready s.desk };

    ghost serves = { λ s c d failed t. AttendsAt K.leads (link_seen L.left L.held L.faults) (terms_of (C.start s.clock.now) s.token.now s.genesis s.genesis_time) (terms_of (C.start t.clock.now) t.token.now t.genesis t.genesis_time)
        c d (at_seat s.desk (signer_seen S.told S.faults S.denials s.signer)) (at_seat t.desk (signer_seen S.told S.faults S.denials t.signer)) failed };

    /// Serves a connection, and asks the desk whether its disk failed.
    fn serve(&mut self, connection: &mut L) -> bool {
        let moment = self.clock.now();
        let now = epoch_of(slot_of(self.genesis_time, moment));
        let _ = sign_connection(
            self.alloc,
            connection,
            self.token,
            &self.genesis,
            now,
            &mut self.desk,
            &mut self.signer,
        );
        has_failed(&mut self.desk)
    }
}
