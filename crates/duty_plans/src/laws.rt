//! What holds of duties, whatever takes the desk's calls.
ghost use Rattle.std.specs.Prelude.{◌≡◌, List, Some};
ghost use Rattle.std.specs.declared.option.Option.{Option};
ghost use Rattle.duty_schedule.specs.declared.rows.Duty.{Duty};
ghost use Rattle.node_calls.specs.declared.answer.AttesterRow.{AttesterRow};
ghost use Rattle.phase0_types.specs.declared.attestation.AttestationData.{AttestationData};
ghost use Rattle.slash_defs.specs.declared.message.Message.{Message};
ghost use Rattle.call_plans.specs.Paths.{Carries};
ghost use Rattle.call_plans.specs.Plans.{Follows};
ghost use Rattle.duty_plans.specs.declared.ended.Ended.{Ended};
ghost use Rattle.duty_plans.specs.declared.ended.Unsent.{Unsent};
ghost use Rattle.duty_plans.specs.declared.task.Task.{Task};
ghost use Rattle.duty_plans.specs.declared.work.SlotWork.{SlotWork};
ghost use Rattle.duty_plans.specs.Guards.{PostedGranted};
ghost use Rattle.duty_plans.specs.Hands.{Free};
ghost use Rattle.duty_plans.specs.Messages.{vote_message};
ghost use Rattle.duty_plans.specs.Owning.{AllOwn};
ghost use Rattle.duty_plans.specs.Plans.{slot_plan, task_plan};
ghost use Rattle.duty_plans.specs.Repeats.{AllPropose, GoesOn, IsLeft};
ghost use Rattle.duty_plans.specs.Results.{result_by};
ghost use Rattle.duty_plans.specs.Seats.{Does, Ran, Seat};
ghost use Rattle.duty_plans.specs.Slots.{EachDone};
ghost use Rattle.duty_plans.specs.Steps.{DutyPlan, DutyStep, Fits};
ghost use Rattle.duty_plans.specs.Tasks.{IsOwnTask, duty_of, owner_of, unsent_message};

use desk_machine::DeskCalls;

/// A plan that was carried out step by step, with no grant in hand before and after, ran as a whole: all calls of
/// the desk lead from the first to the last, service and nodes told all that they were asked, and each signing
/// request and each post lies between its grant and the settling of it. `K` takes the desk's calls, `X` is what
/// the plan gives.
pub fn lane_law<K: DeskCalls, X>()
    ensures ran { (plan : DutyPlan X) (a b : Seat K) (v : Option X) → a.hand ≡ Free → b.hand ≡ Free → Carries Fits (Does K.leads) plan a b v → Ran K.leads plan a b v }
{}

/// What is signed and posted for a task is that task's, under a grant of its key for just that, where what is done once
/// more, the data of a vote that is cast, and that of a choice or an aggregate are the duty's; a task ends by the first of its
/// calls that failed, and is sent where none did. The steps of a slot's tasks are those of each, one after another, with
/// one end each.
pub fn duty_law()
    ensures own { (work : SlotWork) (task : Task) (steps : List DutyStep) (v : Option Ended) → IsOwnTask work.altair task → Follows Fits (task_plan work task) steps v → AllOwn work task steps }
    ensures result { (work : SlotWork) (task : Task) (steps : List DutyStep) (e : Ended) → Follows Fits (task_plan work task) steps (Some e) → e.result ≡ result_by work.altair task steps }
    ensures each { (work : SlotWork) (tasks : List Task) (steps : List DutyStep) (ends : List Ended) → Follows Fits (slot_plan work tasks) steps (Some ends) → EachDone work tasks steps ends }
{}

/// What is done once more of a duty asks the desk for leave for no message but that of what was left, for the duty's key,
/// where that has one: a block whose reveal was not signed is begun once more, and no message was granted for it. A vote
/// for data asks for leave for no message but that data's, for the validator's key.
/// What is left of a duty is the duty's own, the desk gave leave for its message in the duty's steps, and the duty ended
/// since the service failed or answered something else, or no node took what was posted.
pub fn repeat_law()
    ensures same { (work : SlotWork) (duty : Duty) (unsent : Unsent) (m : Message) (steps : List DutyStep) (v : Option Ended) → unsent_message work.domains unsent ≡ Some m
        → Follows Fits (task_plan work (Task.Again duty unsent)) steps v → AllPropose (owner_of duty) m steps }
    ensures cast { (work : SlotWork) (row : AttesterRow) (details : AttestationData) (steps : List DutyStep) (v : Option Ended)
        → Follows Fits (task_plan work (Task.Vote row details)) steps v → AllPropose row.pubkey (vote_message work.domains details) steps }
    ensures left { (work : SlotWork) (task : Task) (steps : List DutyStep) (e : Ended) → IsOwnTask work.altair task → Follows Fits (task_plan work task) steps (Some e) → IsLeft work task steps e }
{}

/// What a duty goes on with. Of a vote it is data that is the duty's. Of the question for what its committee is to vote it is
/// such data as a node said in the steps of the question. Of the choice of an aggregator it is the data of the vote, and
/// a signature that the service gave, in the steps of the choice and under a grant of the duty's key, for the slot, where that
/// chooses the validator. Of all else it is nothing.
pub fn aggregate_law()
    ensures goes_on { (work : SlotWork) (task : Task) (steps : List DutyStep) (e : Ended) → IsOwnTask work.altair task → Follows Fits (task_plan work task) steps (Some e) → GoesOn work task steps e }
{}
