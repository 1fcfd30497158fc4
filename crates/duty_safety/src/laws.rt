//! What holds of duties, whatever takes the desk's calls.
ghost use Rattle.std.specs.Prelude.{ℕ, ◌<◌, ◌≤◌, ◌^◌, List, All, Contains, ◌++◌, Option, Some, None, Result, Ok};
ghost use Rattle.edge_kit.specs.declared.bytes.PubKey.{PubKey};
ghost use Rattle.slash_defs.specs.declared.message.Message.{Message};
ghost use Rattle.slash_defs.specs.Lists.{SafeList};
ghost use Rattle.desk_machine.specs.States.{State};
ghost use Rattle.desk_machine.specs.declared.call.DeskCall.{DeskCall};
ghost use Rattle.desk_machine.specs.declared.call.DeskReply.{DeskReply};
ghost use Rattle.call_plans.specs.Paths.{Path};
ghost use Rattle.call_plans.specs.Plans.{Follows};
ghost use Rattle.check_sign.specs.Contents.{Seen};
ghost use Rattle.check_sign.specs.Paths.{Path as CallsOf};
ghost use Rattle.check_sign.specs.Standing.{DeskStands};
ghost use Rattle.client_calls.specs.Machines.{CanMake, state_after};
ghost use Rattle.duty_plans.specs.Guards.{granted_in};
ghost use Rattle.duty_plans.specs.declared.setup.DutySetup.{DutySetup};
ghost use Rattle.duty_turns.specs.declared.held.DutyEnd.{DutyEnd};
ghost use Rattle.duty_turns.specs.Standing.{Standing};
ghost use Rattle.duty_turns.specs.Times.{epoch_of, slot_of};
ghost use Rattle.duty_turns.specs.TurnSteps.{Does, Fits, House, TurnStep};
ghost use Rattle.duty_turns.specs.Turns.{Next, turn_plan, turns_plan};
ghost use Rattle.session_run.specs.Safe.{CoveredOnceActive};
ghost use Rattle.duty_safety.specs.Merging.{MergesOnly};
ghost use Rattle.duty_safety.specs.OnTime.{AreOnTime, on_time_turn, on_time_turns};
ghost use Rattle.duty_safety.specs.Told.{AllTold};

use desk_machine::DeskCalls;
use edge_kit::Disk;

/// Nothing slashable is posted. Whatever was signed before, safe and covered by the past of its key once the key is
/// active, is safe beside all messages that the desk gives leave for in these calls; and so it is beside whatever is
/// posted, where each message of it is one of those. The calls may be those of many callers of one desk, as lanes are.
pub fn safe_law()
    ensures granted { (state : State) (calls : List (DeskCall × DeskReply)) (before : List (PubKey × Message)) → CanMake state calls → SafeList before
        → All (CoveredOnceActive state calls) before → SafeList (before ++ granted_in calls) }
    ensures posted { (state : State) (calls : List (DeskCall × DeskReply)) (posted before : List (PubKey × Message)) → CanMake state calls
        → ((x : PubKey × Message) → Contains posted x → Contains (granted_in calls) x) → SafeList before → All (CoveredOnceActive state calls) before
        → SafeList (before ++ posted) }
{}

/// The calls of a desk over a journal are such calls: from whatever state it stood for its machine can make them, and
/// it stands for the state after them.
pub fn desk_law<D: Disk>()
    ensures { (old new : Seen D) (calls : List (DeskCall × DeskReply)) (state : State) → CallsOf D.moment D.leaves D.faults old calls new → DeskStands old.contents state
        → CanMake state calls × DeskStands new.contents (state_after state calls) }
{}

/// Over a clock on time no duty is dropped. Turns each of whose waits is over in the slot for which it was, and not before
/// its moment, are turns that drop nothing, whatever moment is reached. Over a clock that is on time, from a slot that is
/// not before the clock's start, no turn drops anything. In such a turn, where it goes on to the next, each duty that was
/// found due was done, and a line was written of each. `K` takes the desk's calls.
pub fn on_time_law<K: DeskCalls>()
    ensures turn { (setup : DutySetup) (s : Standing) (steps : List TurnStep) (v : Option Next) → Follows Fits (turn_plan setup s) steps v
        → AreOnTime setup steps → Follows Fits (on_time_turn setup s) steps v }
    ensures turns { (setup : DutySetup) (n : ℕ) (s : Standing) (steps : List TurnStep) (v : Option (Result (Unit {0}) DutyEnd))
        → Follows Fits (turns_plan setup n s) steps v → AreOnTime setup steps → Follows Fits (on_time_turns setup n s) steps v }
    ensures clock { (start n : ℕ) (setup : DutySetup) (s : Standing) (a b : House K) (steps : List TurnStep) (v : Option (Result (Unit {0}) DutyEnd))
        → start < 2 ^ 64 → slot_of setup.genesis_time start ≤ s.slot → Path (Does K.leads (Some start)) a steps b → Follows Fits (turns_plan setup n s) steps v
        → Follows Fits (on_time_turns setup n s) steps v }
    ensures lines { (setup : DutySetup) (s : Standing) (steps : List TurnStep) (next : Standing) → Follows Fits (on_time_turn setup s) steps (Some (Ok next))
        → AllTold setup s.slot steps }
{}

/// What a turn of the loop merges by its own calls, whatever replies come: only where not all is kept, and only the file
/// that forgets what is old, at the epoch of the turn's slot, of a file that the desk exported by the step just before. So
/// by a merge the loop brings nothing in that the desk did not have. What the lanes call is said by their own plans, which
/// merge nothing.
pub fn merge_law()
    ensures { (setup : DutySetup) (s : Standing) (steps : List TurnStep) (v : Option Next) → Follows Fits (turn_plan setup s) steps v
        → MergesOnly setup.keep_epochs (epoch_of s.slot) None steps }
{}
