//! The servers: the validator client and the signing proxy.
ghost use Rattle.std.specs.Prelude.{◌≡◌, [], IfOk, IfSome, IfNone, map, string_bytes};
ghost use Rattle.edge_kit.specs.Causes.{Rose};
ghost use Rattle.client_calls.specs.Seats.{signer_seen};
ghost use Rattle.record_journal.specs.TwoDisks.{EitherRose};
ghost use Rattle.keymanager_api.specs.Doors.{link_seen};
ghost use Rattle.command_line.specs.Plans.{asked_of, proxy, serve};
ghost use Rattle.command_line.specs.declared.proxy_options.ProxyOptions.{ProxyOptions};
ghost use Rattle.command_line.specs.declared.serve_options.ServeOptions.{ServeOptions};
ghost use Rattle.serve_run.specs.Ends.{Because};
ghost use Rattle.proxy_run.specs.Ends.{ProxyEnds};
ghost use Rattle.proxy_run.specs.Parts.{parts_seen as proxy_parts};
ghost use Rattle.validator_cli.specs.Clients.{ClientEnds, parts_of};
ghost use Rattle.validator_cli.specs.Endings.{IsOther, IsServer};

use crate::ending::Ending;
use crate::proxy::run_signing_proxy;
use crate::serve::run_client;
use command_line::{Plan, plan};
use edge_clock::Clock;
use edge_kit::{Disk, Disks, Door, Sink};
use node_calls::Node;
use signer_link::Signer;
use std::alloc::{AllocError, Global};
use std::sync::Wait;
use std::thread::Threads;

/// The plan of words that ask for a server; none where they ask for something else.
pub(crate) fn is_server(alloc: Global, words: &[String]) -> Result<Option<Plan>, AllocError>
    ensures server { IfOk result (λ found. IfSome found IsServer) }
    ensures serve { IfOk result (λ found. IfSome found (λ p. (options : ServeOptions) → asked_of (map string_bytes words.now) ≡ serve options → p ≡ Plan.Serve options)) }
    ensures proxy { IfOk result (λ found. IfSome found (λ p. (options : ProxyOptions) → asked_of (map string_bytes words.now) ≡ proxy options → p ≡ Plan.Proxy options)) }
    ensures one { IfOk result (λ found. IfSome found (λ p. ¬ (IsOther (asked_of (map string_bytes words.now))))) }
    ensures other { IfOk result (λ found. IfNone found (IsOther (asked_of (map string_bytes words.now)))) }
{
    let Ok(planned) = plan(alloc, words)? else {
        return Ok(None);
    };
    match planned {
        Plan::Serve(options) => Ok(Some(Plan::Serve(options))),
        Plan::Proxy(options) => Ok(Some(Plan::Proxy(options))),
        Plan::Session { .. } | Plan::Merge { .. } | Plan::Show { .. } => Ok(None),
        Plan::Rehearse { .. } | Plan::Shown(_) => Ok(None),
    }
}

/// Runs the server of a plan.
pub(crate) fn run_server<
    T: Threads + Wait + Sync,
    D: Disk + Send,
    S: Signer + Send + Drop,
    N: Node + Drop + Send,
    C: Clock,
    R: Door + Send,
    O: Sink + Send,
>(
    rt: &T,
    alloc: Global,
    plan: &Plan,
    disks: Disks<D>,
    signer: S,
    nodes: Vec<N>,
    clock: &C,
    door: R,
    out: &mut O,
) -> Ending<D, S, N, R>
where
    R::Conn: Send + Drop,
    requires { IsServer plan.now }
    ensures serves { (options : ServeOptions) → plan.now ≡ Plan.Serve options
        → ClientEnds D.shows D.moment D.leaves D.faults (link_seen R.Conn.left R.Conn.held R.Conn.faults) (C.start clock.now) options disks result.disks
        (parts_of S.told S.faults S.denials N.told N.faults R.coming R.finished R.faults O.held O.faults signer nodes.items [] [] door out.old)
        (λ flags. parts_of S.told S.faults S.denials N.told N.faults R.coming R.finished R.faults O.held O.faults result.signer result.nodes.items flags result.lanes.items result.door out.new) result.events.items result.status }
    ensures proxies { (options : ProxyOptions) → plan.now ≡ Plan.Proxy options
        → ProxyEnds D.shows D.moment D.leaves D.faults (link_seen R.Conn.left R.Conn.held R.Conn.faults) (C.start clock.now) options (signer_seen S.told S.faults S.denials signer) disks result.disks
        (proxy_parts S.told S.faults S.denials R.coming R.finished R.lent R.faults O.held O.faults [] door out.old)
        (proxy_parts S.told S.faults S.denials R.coming R.finished R.lent R.faults O.held O.faults result.signers.items result.door out.new) result.events.items result.status }
    ensures causes { Because (Rose (O.faults out.old) (O.faults out.new)) (EitherRose D.faults disks result.disks) (Rose (R.faults door) (R.faults result.door)) result.status }
    ensures signers { (options : ServeOptions) → plan.now ≡ Plan.Serve options → result.signers.items ≡ [] }
    ensures signer { (options : ProxyOptions) → plan.now ≡ Plan.Proxy options → result.signer ≡ signer }
    ensures nodes { (options : ProxyOptions) → plan.now ≡ Plan.Proxy options → result.nodes ≡ nodes }
    ensures lanes { (options : ProxyOptions) → plan.now ≡ Plan.Proxy options → result.lanes.items ≡ [] }
{
    match plan {
        Plan::Serve(_) => run_client(rt, alloc, plan, disks, signer, nodes, clock, door, out),
        Plan::Proxy(options) => run_signing_proxy(
            rt, alloc, options, disks, signer, nodes, clock, door, out,
        ),
        _ => unreachable!(),
    }
}
