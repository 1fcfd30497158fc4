//! The signing proxy over the objects that are handed in.
ghost use Rattle.std.specs.Prelude.{◌≡◌, []};
ghost use Rattle.edge_kit.specs.Causes.{Rose};
ghost use Rattle.client_calls.specs.Seats.{signer_seen};
ghost use Rattle.record_journal.specs.TwoDisks.{EitherRose};
ghost use Rattle.keymanager_api.specs.Doors.{link_seen};
ghost use Rattle.serve_run.specs.Ends.{Because};
ghost use Rattle.proxy_run.specs.Ends.{ProxyEnds};
ghost use Rattle.proxy_run.specs.Parts.{parts_seen};

use crate::ending::Ending;
use command_line::ProxyOptions;
use edge_clock::Clock;
use edge_kit::{Disk, Disks, Door, Sink};
use proxy_run::{ProxyEnd, run_proxy};
use signer_link::Signer;
use std::alloc::Global;
use std::sync::Wait;
use std::thread::Threads;

/// Runs the signing proxy of these options.
pub(crate) fn run_signing_proxy<
    T: Threads + Wait + Sync,
    D: Disk + Send,
    S: Signer + Send + Drop,
    N,
    C: Clock,
    R: Door + Send,
    O: Sink,
>(
    rt: &T,
    alloc: Global,
    options: &ProxyOptions,
    disks: Disks<D>,
    signer: S,
    nodes: Vec<N>,
    clock: &C,
    door: R,
    out: &mut O,
) -> Ending<D, S, N, R>
where
    R::Conn: Send + Drop,
    ensures ends { ProxyEnds D.shows D.moment D.leaves D.faults (link_seen R.Conn.left R.Conn.held R.Conn.faults) (C.start clock.now) options.now (signer_seen S.told S.faults S.denials signer) disks result.disks
        (parts_seen S.told S.faults S.denials R.coming R.finished R.lent R.faults O.held O.faults [] door out.old)
        (parts_seen S.told S.faults S.denials R.coming R.finished R.lent R.faults O.held O.faults result.signers.items result.door out.new) result.events.items result.status }
    ensures causes { Because (Rose (O.faults out.old) (O.faults out.new)) (EitherRose D.faults disks result.disks) (Rose (R.faults door) (R.faults result.door)) result.status }
    ensures signer { result.signer ≡ signer }
    ensures nodes { result.nodes ≡ nodes }
    ensures lanes { result.lanes.items ≡ [] }
{
    let ProxyEnd {
        status,
        disks,
        door,
        events,
        signers,
    } = run_proxy(rt, alloc, options, disks, &signer, clock, door, out);
    Ending {
        status,
        disks,
        signer,
        nodes,
        door,
        lanes: Vec::new(alloc),
        signers,
        events,
    }
}
