//! The validator client over the objects that are handed in.
ghost use Rattle.std.specs.Prelude.{◌≡◌, []};
ghost use Rattle.edge_kit.specs.Causes.{Rose};
ghost use Rattle.record_journal.specs.TwoDisks.{EitherRose};
ghost use Rattle.keymanager_api.specs.Doors.{link_seen};
ghost use Rattle.command_line.specs.declared.serve_options.ServeOptions.{ServeOptions};
ghost use Rattle.serve_run.specs.Ends.{Because, IsServe};
ghost use Rattle.validator_cli.specs.Clients.{ClientEnds, parts_of};

use crate::ending::Ending;
use command_line::Plan;
use edge_clock::Clock;
use edge_kit::{Disk, Disks, Door, Sink};
use node_calls::Node;
use node_fallback::Nodes;
use serve_run::{ServeEnd, run_serve};
use signer_link::Signer;
use std::alloc::Global;
use std::sync::Wait;
use std::thread::Threads;

/// Runs the validator client of a plan.
pub(crate) fn run_client<
    T: Threads + Wait + Sync,
    D: Disk + Send,
    S: Signer + Send + Drop,
    N: Node + Drop + Send,
    C: Clock,
    R: Door + Send,
    O: Sink + Send,
>(
    rt: &T,
    alloc: Global,
    plan: &Plan,
    disks: Disks<D>,
    mut signer: S,
    nodes: Vec<N>,
    clock: &C,
    mut door: R,
    out: &mut O,
) -> Ending<D, S, N, R>
    requires { IsServe plan.now }
    ensures ends { (options : ServeOptions) → plan.now ≡ Plan.Serve options
        → ClientEnds D.shows D.moment D.leaves D.faults (link_seen R.Conn.left R.Conn.held R.Conn.faults) (C.start clock.now) options disks result.disks
        (parts_of S.told S.faults S.denials N.told N.faults R.coming R.finished R.faults O.held O.faults signer nodes.items [] [] door out.old)
        (λ flags. parts_of S.told S.faults S.denials N.told N.faults R.coming R.finished R.faults O.held O.faults result.signer result.nodes.items flags result.lanes.items result.door out.new) result.events.items result.status }
    ensures causes { Because (Rose (O.faults out.old) (O.faults out.new)) (EitherRose D.faults disks result.disks) (Rose (R.faults door) (R.faults result.door)) result.status }
    ensures signers { result.signers.items ≡ [] }
{
    let mut nodes = Nodes::new(alloc, nodes);
    let ServeEnd {
        status,
        disks,
        events,
        lanes,
    } = run_serve(
        rt,
        alloc,
        plan,
        disks,
        &mut signer,
        &mut nodes,
        clock,
        &mut door,
        out,
    );
    Ending {
        status,
        disks,
        signer,
        nodes: nodes.into_nodes(),
        door,
        lanes,
        signers: Vec::new(alloc),
        events,
    }
}
