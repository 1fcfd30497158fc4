//! What holds of the aggregates of runs of duties, whatever takes the desk's calls.
ghost use Rattle.std.specs.Prelude.{◌≡◌, ◌∷◌, ℕ, true, List, [], AllPairs, Contains, Option, None, Some, Result};
ghost use Rattle.edge_kit.specs.declared.bytes.Sig.{Sig};
ghost use Rattle.phase0_types.specs.declared.attestation.AttestationData.{AttestationData};
ghost use Rattle.desk_machine.specs.declared.open_grant.OpenGrant.{OpenGrant};
ghost use Rattle.signer_link.specs.declared.reply.SignReply.TheVariants as SignReply;
ghost use Rattle.node_calls.specs.declared.answer.Answer.{Answer};
ghost use Rattle.node_calls.specs.declared.answer.AttesterRow.{AttesterRow};
ghost use Rattle.node_calls.specs.declared.ask.Ask.TheVariants as Ask;
ghost use Rattle.duty_schedule.specs.Aggregators.{is_aggregator};
ghost use Rattle.duty_schedule.specs.Checking.{data_members, first_that_differs};
ghost use Rattle.duty_schedule.specs.declared.checks.DataDiffers.{DataDiffers};
ghost use Rattle.duty_schedule.specs.declared.rows.Duty.{Duty};
ghost use Rattle.call_plans.specs.Plans.{Follows};
ghost use Rattle.duty_plans.specs.declared.ended.Aggregation.TheVariants as Aggregation;
ghost use Rattle.duty_plans.specs.declared.ended.Ended.{Ended};
ghost use Rattle.duty_plans.specs.declared.got.Got.TheVariants as Got;
ghost use Rattle.duty_plans.specs.declared.result.DutyResult.TheVariants as DutyResult;
ghost use Rattle.duty_plans.specs.declared.setup.DutySetup.{DutySetup};
ghost use Rattle.duty_plans.specs.declared.task.Task.{Task as AnyTask};
ghost use Rattle.duty_plans.specs.declared.task.Task.TheVariants as Task;
ghost use Rattle.duty_plans.specs.declared.work.SlotWork.{SlotWork};
ghost use Rattle.duty_plans.specs.Ends.{over};
ghost use Rattle.duty_plans.specs.Messages.{slot_request};
ghost use Rattle.duty_plans.specs.Plans.{task_plan};
ghost use Rattle.duty_plans.specs.Reading.{vote_of};
ghost use Rattle.duty_plans.specs.Steps.{Answered, Asks, DutyStep, Fits as FitsDuty, Reveals, Signed, Tried, came_of};
ghost use Rattle.duty_plans.specs.Votes.{answer_of, data_tasks, vote_answers, vote_tasks};
ghost use Rattle.duty_turns.specs.declared.held.DutyEnd.{DutyEnd};
ghost use Rattle.duty_turns.specs.Standing.{Standing};
ghost use Rattle.duty_turns.specs.TurnSteps.{Fits, TurnStep};
ghost use Rattle.duty_turns.specs.Turns.{turns_plan};
ghost use Rattle.aggregation_law.specs.Earned.{AreEarned};
ghost use Rattle.aggregation_law.specs.Questions.{AreApart, AreOfTwo, AreTwo};
ghost use Rattle.aggregation_law.specs.Reasons.{AreReasoned, IsPair};

/// Each task that is done in turns has a reason in the steps before it, however the turns end: a block was found due; what a
/// committee is to vote is asked where a vote of it was found due, after a wait for the slot's third that was over in the
/// slot; a vote that was found due is cast after such a wait, for data with which its committee's question went on; what is
/// tried once more is left of the duty, after a wait for that; whether a validator aggregates is asked where aggregates are
/// wanted, of a vote that got its data; and an aggregate is published after a wait for two thirds of the slot that was over
/// in it, by a validator that its proof chose.
pub fn reason_law()
    ensures { (setup : DutySetup) (n : ℕ) (s : Standing) (steps : List TurnStep) (v : Option (Result (Unit {0}) DutyEnd)) → Follows Fits (turns_plan setup n s) steps v
        → AreReasoned setup [] steps }
{}

/// Each aggregate that is posted in turns is earned by the steps before it, however the turns end: aggregates are wanted,
/// and it is their time; a node said what the validator's committee is to vote; the service signed the slot by the
/// validator's key, and that signature chooses the validator; the aggregate has this signature as its proof and data of
/// that root.
pub fn aggregation_law()
    ensures { (setup : DutySetup) (n : ℕ) (s : Standing) (steps : List TurnStep) (v : Option (Result (Unit {0}) DutyEnd)) → Follows Fits (turns_plan setup n s) steps v
        → AreEarned setup [] steps }
{}

/// A question whose answer is data of the duty goes on with that data: so the votes of its committee from whose duties no
/// member of it differs are cast (`question_law`). A vote goes on with the data that it is for, whatever became of the vote: so its
/// validator's choice is asked for (`choose_tasks`). A choice whose signature of the slot was given, and chooses the validator,
/// goes on with it: so its aggregate is published (`aggregate_tasks`).
pub fn choice_law()
    ensures answered { (work : SlotWork) (row : AttesterRow) (tried : Tried Answer) (rest : List DutyStep) (details : AttestationData) (e : Ended)
        → Follows FitsDuty (task_plan work (Task.Data row)) ((Asks (Ask.Data work.slot row.committee_index), Answered tried) ∷ rest) (Some e)
        → vote_of row (came_of tried) ≡ Got.Given details → e.aggregation ≡ Some (Aggregation.Voted details) }
    ensures voted { (work : SlotWork) (row : AttesterRow) (details : AttestationData) (steps : List DutyStep) (e : Ended)
        → Follows FitsDuty (task_plan work (Task.Vote row details)) steps (Some e) → e.aggregation ≡ Some (Aggregation.Voted details) }
    ensures chosen { (work : SlotWork) (row : AttesterRow) (details : AttestationData) (first : DutyStep) (grant : OpenGrant) (proof : Sig) (rest : List DutyStep) (e : Ended)
        → Follows FitsDuty (task_plan work (Task.Choose row details)) (first ∷ (Reveals grant (slot_request work), Signed (SignReply.Signed proof)) ∷ rest) (Some e)
        → is_aggregator proof row.committee_length ≡ true → e.aggregation ≡ Some (Aggregation.Chosen details proof) }
{}

/// The votes of a slot ask one question for each committee (`data_tasks`). Each vote's committee has a question. Each question
/// is that of one of these votes, and no two are of one committee. How a question ended is the answer of each vote of its
/// committee (`vote_answers`): where it went on with data of which no member differs from what the vote's duty is to vote
/// (`told`), and where it did not go on with data (`failed`). Where a member differs, the vote's answer is `DataDiffers`
/// (`differs`). A vote whose answer has data is cast for it (`cast`); no other vote is cast, and none for other data
/// (`cast_only`). Where no two of the votes are of one validator, none is cast twice (`cast_once`).
pub fn question_law()
    ensures each { (ds : List Duty) (row : AttesterRow) → Contains ds (Duty.Vote row) → (asked : AttesterRow) × Contains (data_tasks ds) (Task.Data asked) × (asked.committee_index ≡ row.committee_index) }
    ensures only { (ds : List Duty) (t : AnyTask) → Contains (data_tasks ds) t → (row : AttesterRow) × Contains ds (Duty.Vote row) × (Task.Data row ≡ t) }
    ensures once { (ds : List Duty) → AllPairs AreApart (data_tasks ds) }
    ensures told { (ds : List Duty) (ends : List Ended) (row asked : AttesterRow) (e : Ended) (details : AttestationData)
        → IsPair (data_tasks ds) ends (Task.Data asked) e → asked.committee_index ≡ row.committee_index → e.aggregation ≡ Some (Aggregation.Voted details)
        → first_that_differs (data_members row details) ≡ None → answer_of (data_tasks ds) ends (Duty.Vote row) ≡ e }
    ensures differs { (ds : List Duty) (ends : List Ended) (row asked : AttesterRow) (e : Ended) (details : AttestationData) (member : DataDiffers)
        → IsPair (data_tasks ds) ends (Task.Data asked) e → asked.committee_index ≡ row.committee_index → e.aggregation ≡ Some (Aggregation.Voted details)
        → first_that_differs (data_members row details) ≡ Some member → answer_of (data_tasks ds) ends (Duty.Vote row) ≡ over DutyResult.DataDiffers }
    ensures failed { (ds : List Duty) (ends : List Ended) (row asked : AttesterRow) (e : Ended)
        → IsPair (data_tasks ds) ends (Task.Data asked) e → asked.committee_index ≡ row.committee_index → e.aggregation ≡ None → answer_of (data_tasks ds) ends (Duty.Vote row) ≡ e }
    ensures cast { (ds : List Duty) (ends : List Ended) (row : AttesterRow) (details : AttestationData) → Contains ds (Duty.Vote row)
        → (answer_of (data_tasks ds) ends (Duty.Vote row)).aggregation ≡ Some (Aggregation.Voted details)
        → Contains (vote_tasks ds (vote_answers ds ends)) (Task.Vote row details) }
    ensures cast_only { (ds : List Duty) (ends : List Ended) (t : AnyTask) → Contains (vote_tasks ds (vote_answers ds ends)) t
        → (row : AttesterRow) × (details : AttestationData) × Contains ds (Duty.Vote row) × ((answer_of (data_tasks ds) ends (Duty.Vote row)).aggregation ≡ Some (Aggregation.Voted details)) × (Task.Vote row details ≡ t) }
    ensures cast_once { (ds : List Duty) (ends : List Ended) → AllPairs AreTwo ds → AllPairs AreOfTwo (vote_tasks ds (vote_answers ds ends)) }
{}
