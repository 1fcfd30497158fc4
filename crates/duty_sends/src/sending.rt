//! What was signed is posted, and a grant is settled.
ghost use Rattle.std.specs.Prelude.{◌∷◌, [], option_map};
ghost use Rattle.std.specs.Result.{result_ok};
ghost use Rattle.desk_machine.specs.Grants.{IsGrantFor};
ghost use Rattle.desk_machine.specs.Kinds.{IsKind};
ghost use Rattle.desk_machine.specs.declared.call.DeskReply.{DeskReply};
ghost use Rattle.desk_machine.specs.declared.call.Outcome.{Outcome};
ghost use Rattle.client_calls.specs.Seats.{SignerSeen};
ghost use Rattle.call_plans.specs.Paths.{Carries};
ghost use Rattle.call_plans.specs.Plans.{Follows};
ghost use Rattle.duty_plans.specs.declared.ended.Ended.{Ended};
ghost use Rattle.duty_plans.specs.Hands.{Free, Holds};
ghost use Rattle.duty_plans.specs.Plans.{post_plan, sent, with_got};
ghost use Rattle.duty_plans.specs.Seats.{Does, at_seat, nodes_seen};
ghost use Rattle.duty_plans.specs.Steps.{Fits};

use desk_machine::{DeskCall, DeskCalls, DeskReply, Grant, Outcome};
use duty_plans::{DutyResult, Got, posted_in};
use node_calls::{Node, Post};
use node_fallback::Nodes;
use std::alloc::AllocError;

/// Posts what was signed under a grant, and settles the grant as sent, whatever became of the post: other nodes may have
/// it. The result says how the duty ends, whatever the grant was for.
///
/// # Errors
///
/// `AllocError` where memory was wanted for the post. The grant is settled then too.
pub fn send<K: DeskCalls, N: Node + Drop>(
    post: &Post,
    grant: Grant,
    desk: &mut K,
    nodes: &mut Nodes<N>,
) -> Result<DutyResult, AllocError>
    requires ready { K.ready desk.old }
    requires settles { (o : Outcome) → K.allows desk.old (DeskCall.Settle grant o) }
    ensures ready { K.ready desk.new }
    ensures runs { (s : SignerSeen) (ends : DutyResult → Ended) → Carries Fits (Does K.leads) (post_plan ends grant post.now)
        (at_seat desk.old (Holds grant) s (nodes_seen N.told N.faults nodes.old))
        (at_seat desk.new Free s (nodes_seen N.told N.faults nodes.new)) (option_map ends (result_ok result)) }
{
    let taken = nodes.post(&grant, post);
    settle(desk, grant, Outcome::Sent);
    end_of(posted_in(taken))
}

/// How a duty ends after its post.
fn end_of(posted: Got<()>) -> Result<DutyResult, AllocError>
    ensures { (ends : DutyResult → Ended) → Follows Fits (with_got ends posted (sent ends)) [] (option_map ends (result_ok result)) }
{
    match posted {
        Got::Given(()) => Ok(DutyResult::Sent),
        Got::Failed(result) => Ok(result),
        Got::Nothing => Err(AllocError),
    }
}

/// Settles a grant at the desk, which spends it.
pub fn settle<K: DeskCalls>(desk: &mut K, grant: Grant, outcome: Outcome)
    requires ready { K.ready desk.old }
    requires allows { K.allows desk.old (DeskCall.Settle grant outcome) }
    ensures ready { K.ready desk.new }
    ensures settled { (r : DeskReply) × IsKind (DeskCall.Settle grant outcome) r × IsGrantFor (DeskCall.Settle grant outcome) r
        × K.leads desk.old ((DeskCall.Settle grant outcome, r) ∷ []) desk.new }
{
    match desk.call(DeskCall::Settle { grant, outcome }) {
        DeskReply::Settled => (),
        _ => unreachable!(),
    }
}
