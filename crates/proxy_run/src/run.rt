//! The signing proxy over its disks.
ghost use Rattle.std.specs.Prelude.{◌≡◌, ◌⊎◌, ◌≤◌, [], vec_len};
ghost use Rattle.edge_kit.specs.Causes.{Rose};
ghost use Rattle.client_calls.specs.Seats.{signer_seen};
ghost use Rattle.record_journal.specs.TwoDisks.{EitherRose};
ghost use Rattle.keymanager_api.specs.Doors.{link_seen};
ghost use Rattle.serve_run.specs.Ends.{Because};
ghost use Rattle.proxy_run.specs.Ends.{DeskShared, OverJournal, ProxyEnds};
ghost use Rattle.proxy_run.specs.Parts.{parts_seen};

use crate::close::close_lanes;
use crate::signers::make_signers;
use check_sign::{Desk, Events};
use command_line::ProxyOptions;
use desk_seat::{among_law, close_law, span_law};
use duty_safety::safe_law;
use duty_turns::{epoch_of, slot_of};
use edge_clock::Clock;
use edge_kit::{Disk, Disks, Door, Sink};
use journal_commands::close_unopened;
use program_end::Status;
use proxy_lanes::{Proxy, serve_proxy};
use signer_link::Signer;
use std::alloc::{AllocError, Global};
use std::sync::Wait;
use std::thread::Threads;

/// What a run of a proxy leaves, next to what it was lent.
#[derive(Drop)]
pub struct ProxyEnd<D, S, R> {
    /// Why it ended.
    pub status: Status,
    /// The disks that were handed in.
    pub disks: Disks<D>,
    /// The door that was handed in.
    pub door: R,
    /// What the desk did, in order, as contracts speak of it; nothing where none was opened.
    pub events: Events,
    /// The accesses to the signing service, one a lane; nothing where none were made.
    pub signers: Vec<S>,
}

/// Does what the options of a signing proxy say: makes another access to the signing service for each lane, and opens the desk
/// of the journal on the disks at the epoch of the clock's moment, 0 before genesis; its keys are not watched. Then the lanes
/// serve as many connections of the door as the options have, at the same time: requests for signatures (Web3Signer API,
/// `eth2/sign`), for the active keys (`eth2/publicKeys`) and whether the proxy serves (`upcheck`), and those of the
/// Keymanager API.
///
/// The status is `Done` where as many connections were served as the options have, or no connection comes any more. With a line that closes the
/// output it is `GenesisDiffers` where the journal has another root than the options, `Damaged` and
/// `InputTooLong(Limit::Keys)` where the journal is not opened, `DiskFault` only where a disk's count of faults rose, and
/// `DoorFault` only where the door's did. `WriteFault` comes only where the output's count rose, and `OutOfMemory` where
/// memory was wanted.
pub fn run_proxy<
    T: Threads + Wait + Sync,
    D: Disk + Send,
    S: Signer + Send + Drop,
    C: Clock,
    R: Door + Send,
    O: Sink,
>(
    rt: &T,
    alloc: Global,
    options: &ProxyOptions,
    disks: Disks<D>,
    signer: &S,
    clock: &C,
    door: R,
    out: &mut O,
) -> ProxyEnd<D, S, R>
where
    R::Conn: Send + Drop,
    ensures ends { ProxyEnds D.shows D.moment D.leaves D.faults (link_seen R.Conn.left R.Conn.held R.Conn.faults) (C.start clock.now) options.now (signer_seen S.told S.faults S.denials signer.now) disks result.disks
        (parts_seen S.told S.faults S.denials R.coming R.finished R.lent R.faults O.held O.faults [] door out.old)
        (parts_seen S.told S.faults S.denials R.coming R.finished R.lent R.faults O.held O.faults result.signers.items result.door out.new) result.events.items result.status }
    ensures causes { Because (Rose (O.faults out.old) (O.faults out.new)) (EitherRose D.faults disks result.disks) (Rose (R.faults door) (R.faults result.door)) result.status }
{
    match make_signers(alloc, options.lanes.get(), signer) {
        Ok(signers) => open_journal(rt, alloc, options, disks, signers, clock, door, out),
        Err(AllocError) => unopened(Status::OutOfMemory, disks, Vec::new(alloc), door),
    }
}

/// No desk was opened.
fn unopened<D, S, R>(status: Status, disks: Disks<D>, signers: Vec<S>, door: R) -> ProxyEnd<D, S, R>
    ensures { (result.status ≡ status) × (result.disks ≡ disks) × (result.events.items ≡ []) × (result.signers ≡ signers) × (result.door ≡ door) }
{
    ProxyEnd {
        status,
        disks,
        door,
        events: Events::new(),
        signers,
    }
}

/// Opens the desk of the journal, and serves over it.
fn open_journal<
    T: Threads + Wait + Sync,
    D: Disk + Send,
    S: Signer + Send + Drop,
    C: Clock,
    R: Door + Send,
    O: Sink,
>(
    rt: &T,
    alloc: Global,
    options: &ProxyOptions,
    disks: Disks<D>,
    signers: Vec<S>,
    clock: &C,
    door: R,
    out: &mut O,
) -> ProxyEnd<D, S, R>
where
    R::Conn: Send + Drop,
    requires count { (1 ≤ vec_len signers) × (vec_len signers ≤ 64) }
    ensures serves { OverJournal D.shows D.moment D.leaves D.faults (link_seen R.Conn.left R.Conn.held R.Conn.faults) (C.start clock.now) options.now disks result.disks
        (parts_seen S.told S.faults S.denials R.coming R.finished R.lent R.faults O.held O.faults signers.items door out.old)
        (parts_seen S.told S.faults S.denials R.coming R.finished R.lent R.faults O.held O.faults result.signers.items result.door out.new) result.events.items result.status }
    ensures causes { Because (Rose (O.faults out.old) (O.faults out.new)) (EitherRose D.faults disks result.disks) (Rose (R.faults door) (R.faults result.door)) result.status }
{
    span_law::<D>();
    close_law::<D>();
    among_law();
    safe_law();
    let now = epoch_of(slot_of(options.genesis_time, clock.now()));
    match Desk::open(alloc, disks, options.genesis, false, now) {
        Ok(desk) => serve_desk(rt, alloc, options, desk, signers, clock, door, out),
        Err((fault, disks)) => {
            let status = close_unopened(alloc, out, fault);
            unopened(status, disks, signers, door)
        }
    }
}

/// Serves over an open desk, and ends it.
fn serve_desk<
    T: Threads + Wait + Sync,
    D: Disk + Send,
    S: Signer + Send + Drop,
    C: Clock,
    R: Door + Send,
    O: Sink,
>(
    rt: &T,
    alloc: Global,
    options: &ProxyOptions,
    desk: Desk<D>,
    signers: Vec<S>,
    clock: &C,
    door: R,
    out: &mut O,
) -> ProxyEnd<D, S, R>
where
    R::Conn: Send + Drop,
    requires count { (1 ≤ vec_len signers) × (vec_len signers ≤ 64) }
    ensures { DeskShared D.moment D.leaves D.faults (link_seen R.Conn.left R.Conn.held R.Conn.faults) (C.start clock.now) options.now desk result.disks
        (parts_seen S.told S.faults S.denials R.coming R.finished R.lent R.faults O.held O.faults signers.items door out.old)
        (parts_seen S.told S.faults S.denials R.coming R.finished R.lent R.faults O.held O.faults result.signers.items result.door out.new) result.events.items result.status }
{
    let proxy = Proxy {
        token: options.token.as_str(),
        genesis: options.genesis,
        genesis_time: options.genesis_time,
        connections: options.connections,
    };
    let (ended, desk, signers, door) = serve_proxy(rt, alloc, proxy, desk, signers, clock, door);
    let status = close_lanes(alloc, out, ended);
    let (disks, events) = desk.end();
    ProxyEnd {
        status,
        disks,
        door,
        events,
        signers,
    }
}
