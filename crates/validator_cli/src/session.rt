//! A session: a request a line in, an answer a line out.
ghost use Rattle.std.specs.Prelude.{◌≡◌, ◌≤◌, ℕ, Bool, List, Option};
ghost use Rattle.edge_kit.specs.Causes.{Rose};
ghost use Rattle.record_journal.specs.TwoDisks.{EitherRose};
ghost use Rattle.edge_kit.specs.declared.bytes.Root.{Root};
ghost use Rattle.phase0_types.specs.declared.fork.Fork.{Fork};
ghost use Rattle.service_url.specs.Services.{Service};
ghost use Rattle.session_run.specs.Inputs.{WithinLimits};
ghost use Rattle.validator_cli.specs.Endings.{IsSession, IsSessionComplete, SessionEnds, outside_of, session_chain};

use check_sign::{Desk, Events};
use command_line::Plan;
use edge_kit::{Disk, Disks, Sink, Source};
use journal_commands::close_unopened;
use program_end::Status;
use session_format::SessionChain;
use session_run::{Bench, serve_lines};
use sign_roots::Domains;
use signer_link::Signer;
use std::alloc::Global;

/// Does what a session's plan says: serves the lines of the input, a request each, over the desk of the journal
/// on the disks, which is begun where there is none, with or without a watch as the plan says: an active key is
/// watched from epoch 0 on, and one that becomes active later from then on.
///
/// The status is that of the lines (`serve_lines`); or, with a line that closes the output, `DiskFault`,
/// `Damaged`, `GenesisDiffers` and `InputTooLong(Limit::Keys)` where the journal is not opened, and nothing was
/// read or asked then. `WriteFault` comes where the output failed, and `OutOfMemory` where memory was wanted.
pub fn run_session<D: Disk, S: Signer, I: Source, O: Sink>(
    alloc: Global,
    plan: &Plan,
    disks: Disks<D>,
    signer: S,
    input: &mut I,
    out: &mut O,
) -> (Status, Disks<D>, S, Events)
    requires { IsSession plan.now }
    ensures ends { (genesis : Root) (journal : Option (List ℕ)) (fork : Fork) (altair : Option ℕ) (signer_at : Option Service) (watch : Bool) → plan.now ≡ Plan.Session genesis journal fork altair signer_at watch
        → SessionEnds D.shows D.moment D.leaves D.faults (session_chain genesis fork altair) watch disks result.1
        (outside_of I.left I.faults O.held O.faults S.told S.faults S.denials input.old out.old signer) (outside_of I.left I.faults O.held O.faults S.told S.faults S.denials input.new out.new result.2) result.3.items result.0 }
    ensures read_fault { result.0 ≡ Status.ReadFault → Rose (I.faults input.old) (I.faults input.new) }
    ensures write_fault { result.0 ≡ Status.WriteFault → Rose (O.faults out.old) (O.faults out.new) }
    ensures disk_fault { result.0 ≡ Status.DiskFault → EitherRose D.faults disks result.1 }
    ensures complete { WithinLimits (I.left input.old)
        → ¬ (Rose (I.faults input.old) (I.faults input.new)) → ¬ (Rose (O.faults out.old) (O.faults out.new)) → ¬ (EitherRose D.faults disks result.1)
        → IsSessionComplete result.0 }
{
    let Plan::Session {
        genesis,
        fork,
        altair,
        watch,
        ..
    } = plan
    else {
        unreachable!()
    };
    let desk = match Desk::open(alloc, disks, *genesis, *watch, 0) {
        Ok(desk) => desk,
        Err((fault, disks)) => {
            let status = close_unopened(alloc, out, fault);
            return (status, disks, signer, Events::new());
        }
    };
    let domains = Domains::new(*fork, *genesis);
    let chain = SessionChain {
        domains,
        altair: *altair,
    };
    let mut bench = Bench::new(desk, signer);
    let status = serve_lines(alloc, &chain, &mut bench, input, out);
    let (desk, signer) = bench.into_parts();
    let (disks, events) = desk.end();
    (status, disks, signer, events)
}
