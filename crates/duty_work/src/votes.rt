//! The votes of a slot are cast in the lanes, for what nodes say that their committees are to vote.
ghost use Rattle.std.specs.Prelude.{◌≡◌, ◌<◌, ℕ, All, List, Option, length, option_map, true};
ghost use Rattle.std.specs.Result.{result_ok};
ghost use Rattle.node_fallback.specs.Seen.{Seen};
ghost use Rattle.duty_plans.specs.declared.ended.Ended.{Ended};
ghost use Rattle.duty_workers.specs.Working.{IsReady, lanes_seen};
ghost use Rattle.duty_workers.specs.Places.{are_placed};
ghost use Rattle.duty_turns.specs.Standing.{Standing};
ghost use Rattle.duty_turns.specs.Turns.{NextPlan, casts, casts_for, work_of};
ghost use Rattle.duty_turns.specs.TurnSteps.{SinkSeen};
ghost use Rattle.duty_asks.specs.Placed.{HoldsPlaced};
ghost use Rattle.duty_work.specs.Houses.{CastOn, house};

use crate::recording::record_votes;
use crate::work::do_tasks;
use desk_machine::DeskCalls;
use duty_plans::{DutySetup, Ended, data_tasks, vote_answers, vote_ends, vote_tasks};
use duty_schedule::Duty;
use duty_turns::{Held, epoch_of};
use duty_workers::Lane;
use node_calls::Node;
use sign_roots::Domains;
use signer_link::Signer;
use std::alloc::{AllocError, Global};
use std::thread::Threads;

/// Has these votes cast in the lanes, of which the first has this place in the slot, and says of each how it ended: nodes are
/// asked what each committee is to vote, once for each committee; the desk is asked to keep the messages of the votes for
/// what they said together, by one batch on the disk; and then each of these votes is cast. A vote of which no node said what
/// it is to be for ends as the question of its committee did.
///
/// # Errors
///
/// `AllocError` where memory was wanted. The first few calls are done, each whole, and each grant is settled.
pub(crate) fn cast_votes<
    T: Threads + Sync,
    K: DeskCalls + Send,
    S: Signer + Send,
    N: Node + Drop + Send,
>(
    rt: &T,
    alloc: Global,
    setup: &DutySetup,
    place: usize,
    votes: &[Duty],
    held: &Held,
    desk: &mut K,
    lanes: &mut [Lane<K, S, N>],
) -> Result<Vec<Ended>, AllocError>
    requires some { 0 < length lanes.old }
    requires ready { K.ready desk.old }
    requires lanes { All (IsReady K.ready) lanes.old }
    requires places { are_placed votes.now ≡ true }
    ensures ready { K.ready desk.new }
    ensures lanes { All (IsReady K.ready) lanes.new }
    ensures cast { (start : Option ℕ) (nodes : List Seen) (out : SinkSeen) (s : Standing) (next_by : List Ended → NextPlan) → HoldsPlaced held.now s
        → CastOn K.leads start (casts (work_of setup.now s) place votes.now next_by) next_by
        (house desk.old (lanes_seen S.told S.faults S.denials N.told N.faults lanes.old) nodes out)
        (house desk.new (lanes_seen S.told S.faults S.denials N.told N.faults lanes.new) nodes out) (option_map (λ ends. ends.items) (result_ok result)) }
{
    let Ok(tasks) = data_tasks(alloc, votes) else {
        return Err(AllocError);
    };
    let tasks = tasks.as_slice();
    let Ok(told) = do_tasks(rt, alloc, setup, place, tasks, held, lanes) else {
        return Err(AllocError);
    };
    let Ok(asked) = vote_answers(alloc, votes, tasks, told.as_slice()) else {
        return Err(AllocError);
    };
    let asked = asked.as_slice();
    cast_on(rt, alloc, setup, place, votes, asked, held, desk, lanes)
}

/// Has those of these votes cast for which a node said what to vote, where the questions for that ended so for each.
fn cast_on<T: Threads + Sync, K: DeskCalls + Send, S: Signer + Send, N: Node + Drop + Send>(
    rt: &T,
    alloc: Global,
    setup: &DutySetup,
    place: usize,
    votes: &[Duty],
    asked: &[Ended],
    held: &Held,
    desk: &mut K,
    lanes: &mut [Lane<K, S, N>],
) -> Result<Vec<Ended>, AllocError>
    requires some { 0 < length lanes.old }
    requires ready { K.ready desk.old }
    requires lanes { All (IsReady K.ready) lanes.old }
    requires places { are_placed votes.now ≡ true }
    ensures ready { K.ready desk.new }
    ensures lanes { All (IsReady K.ready) lanes.new }
    ensures cast { (start : Option ℕ) (nodes : List Seen) (out : SinkSeen) (s : Standing) (next_by : List Ended → NextPlan) → HoldsPlaced held.now s
        → CastOn K.leads start (casts_for (work_of setup.now s) place votes.now next_by asked.now) next_by
        (house desk.old (lanes_seen S.told S.faults S.denials N.told N.faults lanes.old) nodes out)
        (house desk.new (lanes_seen S.told S.faults S.denials N.told N.faults lanes.new) nodes out) (option_map (λ ends. ends.items) (result_ok result)) }
{
    let Ok(tasks) = vote_tasks(alloc, votes, asked) else {
        return Err(AllocError);
    };
    let tasks = tasks.as_slice();
    let domains = Domains::new(held.fork, setup.genesis);
    let Ok(()) = record_votes(alloc, &domains, epoch_of(held.slot), tasks, desk) else {
        return Err(AllocError);
    };
    let Ok(cast) = do_tasks(rt, alloc, setup, place, tasks, held, lanes) else {
        return Err(AllocError);
    };
    vote_ends(alloc, asked, cast.as_slice())
}
