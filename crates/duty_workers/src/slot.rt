//! What is done in a slot, one after another.
ghost use Rattle.std.specs.Prelude.{◌≡◌, ◌≤◌, true, option_map};
ghost use Rattle.std.specs.Result.{result_ok};
ghost use Rattle.desk_machine.specs.Machine.{moment_limit};
ghost use Rattle.call_plans.specs.Paths.{Carries};
ghost use Rattle.duty_plans.specs.Hands.{Free};
ghost use Rattle.duty_plans.specs.Plans.{again_plan, duty_plan, made_plan, slot_plan, slot_work, task_plan};
ghost use Rattle.duty_plans.specs.Seats.{Does, at_seat, nodes_seen};
ghost use Rattle.duty_plans.specs.Steps.{Fits};
ghost use Rattle.duty_workers.specs.Places.{are_placed_tasks, is_placed, is_placed_task};
ghost use Rattle.client_calls.specs.Seats.{signer_seen};

use crate::block::{propose, propose_block};
use crate::vote::{ask_data, cast_vote, vote_for};
use altair_blocks::AnyBlock;
use block_copies::block_copy;
use desk_machine::DeskCalls;
use duty_plans::{DutySetup, Ended, SlotWork, Task, Unsent};
use duty_schedule::Duty;
use duty_sends::{aggregate, choose};
use node_calls::{Node, ProposerRow};
use node_fallback::Nodes;
use sign_roots::Domains;
use signer_link::Signer;
use std::alloc::{AllocError, Global};

/// Does these tasks of a slot, one after another, and says of each how it ended: at this moment of the desk, an epoch,
/// under the domains of the chain. A vote is cast on what a node says that its committee
/// is to vote, a block is what a node gives for a reveal of the proposer's randomness; nothing is signed on data
/// that is not the duty's, and nothing is signed or posted but under a grant of the desk. What was granted before and not
/// sent is proposed to the desk once more as it was.
///
/// # Errors
///
/// `AllocError` where memory was wanted. The first few calls are done, each whole, and each grant is settled.
pub fn run_slot<K: DeskCalls, S: Signer, N: Node + Drop>(
    alloc: Global,
    setup: &DutySetup,
    domains: &Domains,
    slot: u64,
    now: u64,
    tasks: &[Task],
    desk: &mut K,
    signer: &mut S,
    nodes: &mut Nodes<N>,
) -> Result<Vec<Ended>, AllocError>
    requires ready { K.ready desk.old }
    requires moment { now ≤ moment_limit }
    requires places { are_placed_tasks tasks.now ≡ true }
    ensures ready { K.ready desk.new }
    ensures runs { Carries Fits (Does K.leads) (slot_plan (slot_work setup.now domains.now slot now) tasks.now)
        (at_seat desk.old Free (signer_seen S.told S.faults S.denials signer.old) (nodes_seen N.told N.faults nodes.old))
        (at_seat desk.new Free (signer_seen S.told S.faults S.denials signer.new) (nodes_seen N.told N.faults nodes.new))
        (option_map (λ ends. ends.items) (result_ok result)) }
{
    let work = SlotWork {
        genesis: setup.genesis,
        domains: *domains,
        altair: setup.altair,
        slot,
        moment: now,
    };
    let Ok(mut ends) = Vec::with_capacity(alloc, tasks.len()) else {
        return Err(AllocError);
    };
    'tasks: for task in tasks {
        let Ok(end) = carry_out(alloc, &work, task, desk, signer, nodes) else {
            return Err(AllocError);
        };
        let Ok(()) = ends.push(end) else {
            return Err(AllocError);
        };
    }
    Ok(ends)
}

/// Does a task.
fn carry_out<K: DeskCalls, S: Signer, N: Node + Drop>(
    alloc: Global,
    work: &SlotWork,
    task: &Task,
    desk: &mut K,
    signer: &mut S,
    nodes: &mut Nodes<N>,
) -> Result<Ended, AllocError>
    requires ready { K.ready desk.old }
    requires moment { work.now.moment ≤ moment_limit }
    requires place { is_placed_task task.now ≡ true }
    ensures ready { K.ready desk.new }
    ensures runs { Carries Fits (Does K.leads) (task_plan work.now task.now)
        (at_seat desk.old Free (signer_seen S.told S.faults S.denials signer.old) (nodes_seen N.told N.faults nodes.old))
        (at_seat desk.new Free (signer_seen S.told S.faults S.denials signer.new) (nodes_seen N.told N.faults nodes.new)) (result_ok result) }
{
    match task {
        Task::Fresh(duty) => do_duty(alloc, work, duty, desk, signer, nodes),
        Task::Again(duty, unsent) => try_again(alloc, work, duty, unsent, desk, signer, nodes),
        Task::Data(row) => ask_data::<K, N>(work, row, nodes),
        Task::Vote(row, details) => vote_for(alloc, work, row, *details, desk, signer, nodes),
        Task::Choose(row, details) => choose(work, row, *details, desk, signer),
        Task::Aggregate(row, details, proof) => {
            aggregate(work, row, details, *proof, desk, signer, nodes)
        }
    }
}

/// Does all of a duty.
fn do_duty<K: DeskCalls, S: Signer, N: Node + Drop>(
    alloc: Global,
    work: &SlotWork,
    duty: &Duty,
    desk: &mut K,
    signer: &mut S,
    nodes: &mut Nodes<N>,
) -> Result<Ended, AllocError>
    requires ready { K.ready desk.old }
    requires moment { work.now.moment ≤ moment_limit }
    requires place { is_placed duty.now ≡ true }
    ensures ready { K.ready desk.new }
    ensures runs { Carries Fits (Does K.leads) (duty_plan work.now duty.now)
        (at_seat desk.old Free (signer_seen S.told S.faults S.denials signer.old) (nodes_seen N.told N.faults nodes.old))
        (at_seat desk.new Free (signer_seen S.told S.faults S.denials signer.new) (nodes_seen N.told N.faults nodes.new)) (result_ok result) }
{
    match duty {
        Duty::Block(row) => propose_block(work, row, desk, signer, nodes),
        Duty::Vote(row) => cast_vote(alloc, work, row, desk, signer, nodes),
    }
}

/// Does what was granted for a duty and not sent once more. What was granted for a duty of the other kind never comes.
fn try_again<K: DeskCalls, S: Signer, N: Node + Drop>(
    alloc: Global,
    work: &SlotWork,
    duty: &Duty,
    unsent: &Unsent,
    desk: &mut K,
    signer: &mut S,
    nodes: &mut Nodes<N>,
) -> Result<Ended, AllocError>
    requires ready { K.ready desk.old }
    requires moment { work.now.moment ≤ moment_limit }
    requires place { is_placed duty.now ≡ true }
    ensures ready { K.ready desk.new }
    ensures runs { Carries Fits (Does K.leads) (again_plan work.now duty.now unsent.now)
        (at_seat desk.old Free (signer_seen S.told S.faults S.denials signer.old) (nodes_seen N.told N.faults nodes.old))
        (at_seat desk.new Free (signer_seen S.told S.faults S.denials signer.new) (nodes_seen N.told N.faults nodes.new)) (result_ok result) }
{
    match duty {
        Duty::Block(row) => match unsent {
            Unsent::Reveal => propose_block(work, row, desk, signer, nodes),
            Unsent::Block(block) => propose_again(alloc, work, row, block, desk, signer, nodes),
            Unsent::Vote(_) => Err(AllocError),
        },
        Duty::Vote(row) => match unsent {
            Unsent::Vote(details) => vote_for(alloc, work, row, *details, desk, signer, nodes),
            Unsent::Reveal | Unsent::Block(_) => Err(AllocError),
        },
    }
}

/// Proposes a copy of this block.
fn propose_again<K: DeskCalls, S: Signer, N: Node + Drop>(
    alloc: Global,
    work: &SlotWork,
    row: &ProposerRow,
    block: &AnyBlock,
    desk: &mut K,
    signer: &mut S,
    nodes: &mut Nodes<N>,
) -> Result<Ended, AllocError>
    requires ready { K.ready desk.old }
    requires moment { work.now.moment ≤ moment_limit }
    ensures ready { K.ready desk.new }
    ensures runs { Carries Fits (Does K.leads) (made_plan work.now row.now block.now)
        (at_seat desk.old Free (signer_seen S.told S.faults S.denials signer.old) (nodes_seen N.told N.faults nodes.old))
        (at_seat desk.new Free (signer_seen S.told S.faults S.denials signer.new) (nodes_seen N.told N.faults nodes.new)) (result_ok result) }
{
    let Ok(copy) = block_copy(alloc, block) else {
        return Err(AllocError);
    };
    propose(work, row, copy, desk, signer, nodes)
}
