//! An aggregate of a committee's votes: whether the validator is chosen, the aggregate, the desk's leave, the signature, the
//! post.
ghost use Rattle.std.specs.Prelude.{◌≡◌, ◌≤◌, if◌then◌else◌, List, [], Some, option_map};
ghost use Rattle.duty_schedule.specs.Aggregators.{is_aggregator};
ghost use Rattle.std.specs.Result.{result_ok};
ghost use Rattle.desk_machine.specs.Machine.{moment_limit};
ghost use Rattle.desk_machine.specs.declared.call.Outcome.{Outcome};
ghost use Rattle.duty_types.specs.declared.aggregate.AggregateAndProof.{AggregateAndProof};
ghost use Rattle.client_calls.specs.Seats.{SignerSeen, signer_seen};
ghost use Rattle.node_fallback.specs.Seen.{Seen};
ghost use Rattle.call_plans.specs.Paths.{Carries};
ghost use Rattle.call_plans.specs.Plans.{Done, Follows};
ghost use Rattle.duty_plans.specs.Ends.{over};
ghost use Rattle.duty_plans.specs.Hands.{Free, Holds};
ghost use Rattle.duty_plans.specs.Messages.{aggregate_message, aggregate_post, aggregate_request, slot_request};
ghost use Rattle.duty_plans.specs.Plans.{aggregate_plan, aggregated_plan, choose_plan, chosen_by, gathered_plan, post_plan, proof_plan, settles, under, with_got};
ghost use Rattle.duty_plans.specs.Seats.{Does, at_seat, nodes_seen};
ghost use Rattle.duty_plans.specs.Steps.{Fits};
ghost use Rattle.duty_sends.specs.Hands.{MayEnd, given_hand};

use crate::sending::{send, settle};
use desk_machine::{DeskCall, DeskCalls, Grant, Outcome};
use duty_plans::{
    Aggregation, DutyResult, Ended, Got, SlotWork, aggregate_in, details_root, grant_in, over,
    signature_in,
};
use duty_schedule::is_aggregator;
use duty_types::AggregateAndProof;
use edge_kit::Sig;
use node_calls::{Ask, AttesterRow, Node, Post};
use node_fallback::Nodes;
use phase0_blocks::{Attestation, Signed};
use phase0_types::AttestationData;
use signer_link::{Aggregate, PlainObject, PlainRequest, Signer};
use std::alloc::AllocError;

/// Has the slot signed, which shows whether the validator of a vote aggregates its committee's votes for this data
/// (consensus-specs, `is_aggregator`). Nothing is sent under the grant.
///
/// # Errors
///
/// `AllocError` where memory was wanted. The grant, if there was one, is settled.
pub fn choose<K: DeskCalls, S: Signer>(
    work: &SlotWork,
    row: &AttesterRow,
    details: AttestationData,
    desk: &mut K,
    signer: &mut S,
) -> Result<Ended, AllocError>
    requires ready { K.ready desk.old }
    requires moment { work.now.moment ≤ moment_limit }
    ensures ready { K.ready desk.new }
    ensures runs { (ns : List Seen) → Carries Fits (Does K.leads) (choose_plan work.now row.now details)
        (at_seat desk.old Free (signer_seen S.told S.faults S.denials signer.old) ns)
        (at_seat desk.new Free (signer_seen S.told S.faults S.denials signer.new) ns) (result_ok result) }
{
    let reply = desk.call(DeskCall::Allow {
        key: row.pubkey,
        now: work.moment,
    });
    prove(work, row, details, grant_in(reply), desk, signer)
}

/// What goes to the signing service for the slot.
fn slot_request(work: &SlotWork) -> PlainRequest
    ensures { result ≡ slot_request work.now }
{
    PlainRequest {
        fork: work.domains.fork,
        genesis: work.genesis,
        object: PlainObject::AggregationSlot { slot: work.slot },
    }
}

/// Has the slot signed, where there is leave, and settles the grant, under which nothing is sent.
fn prove<K: DeskCalls, S: Signer>(
    work: &SlotWork,
    row: &AttesterRow,
    details: AttestationData,
    leave: Got<Grant>,
    desk: &mut K,
    signer: &mut S,
) -> Result<Ended, AllocError>
    requires ready { K.ready desk.old }
    requires settles { MayEnd (λ c. K.allows desk.old c) leave }
    ensures ready { K.ready desk.new }
    ensures runs { (ns : List Seen) → Carries Fits (Does K.leads) (with_got over leave (λ g. proof_plan work.now row.now details g))
        (at_seat desk.old (given_hand leave) (signer_seen S.told S.faults S.denials signer.old) ns)
        (at_seat desk.new Free (signer_seen S.told S.faults S.denials signer.new) ns) (result_ok result) }
{
    match leave {
        Got::Given(grant) => {
            let reply = signer.sign_plain(&slot_request(work), &grant);
            settle(desk, grant, Outcome::Dropped);
            chosen_by(row, details, signature_in(reply))
        }
        Got::Failed(result) => Ok(over(result)),
        Got::Nothing => Err(AllocError),
    }
}

/// How it ended, where this came of signing the slot: a validator that is chosen goes on with the signature.
fn chosen_by(
    row: &AttesterRow,
    details: AttestationData,
    proof: Got<Sig>,
) -> Result<Ended, AllocError>
    ensures { Follows Fits (with_got over proof (λ x. Done (chosen_by row.now details x))) [] (result_ok result) }
{
    match proof {
        Got::Given(proof) => Ok(Ended {
            result: DutyResult::Sent,
            unsent: None,
            aggregation: choice(row, details, proof),
        }),
        Got::Failed(result) => Ok(over(result)),
        Got::Nothing => Err(AllocError),
    }
}

/// What a validator with this proof goes on with, where it is chosen.
fn choice(row: &AttesterRow, details: AttestationData, proof: Sig) -> Option<Aggregation>
    ensures { result ≡ if is_aggregator proof row.now.committee_length then Some (Aggregation.Chosen details proof) else None }
{
    is_aggregator(&proof, row.committee_length).then_some(Aggregation::Chosen(details, proof))
}

/// Asks for the aggregate of the votes for this data, and publishes it with the proof that the validator is chosen. Leave is
/// asked for once there is an aggregate of just that data.
///
/// # Errors
///
/// `AllocError` where memory was wanted. The grant, if there was one, is settled.
pub fn aggregate<K: DeskCalls, S: Signer, N: Node + Drop>(
    work: &SlotWork,
    row: &AttesterRow,
    details: &AttestationData,
    proof: Sig,
    desk: &mut K,
    signer: &mut S,
    nodes: &mut Nodes<N>,
) -> Result<Ended, AllocError>
    requires ready { K.ready desk.old }
    requires moment { work.now.moment ≤ moment_limit }
    ensures ready { K.ready desk.new }
    ensures runs { Carries Fits (Does K.leads) (aggregate_plan work.now row.now details.now proof)
        (at_seat desk.old Free (signer_seen S.told S.faults S.denials signer.old) (nodes_seen N.told N.faults nodes.old))
        (at_seat desk.new Free (signer_seen S.told S.faults S.denials signer.new) (nodes_seen N.told N.faults nodes.new)) (result_ok result) }
{
    let answer = nodes.ask(&Ask::Aggregate {
        attestation_data_root: details_root(details),
        slot: work.slot,
    });
    publish(
        work,
        row,
        proof,
        aggregate_in(details, answer),
        desk,
        signer,
        nodes,
    )
}

/// Publishes what was answered, where that is of the votes.
fn publish<K: DeskCalls, S: Signer, N: Node + Drop>(
    work: &SlotWork,
    row: &AttesterRow,
    proof: Sig,
    aggregate: Got<Attestation>,
    desk: &mut K,
    signer: &mut S,
    nodes: &mut Nodes<N>,
) -> Result<Ended, AllocError>
    requires ready { K.ready desk.old }
    requires moment { work.now.moment ≤ moment_limit }
    ensures ready { K.ready desk.new }
    ensures runs { Carries Fits (Does K.leads) (with_got over aggregate (λ a. gathered_plan work.now row.now (aggregate_message row.now proof a)))
        (at_seat desk.old Free (signer_seen S.told S.faults S.denials signer.old) (nodes_seen N.told N.faults nodes.old))
        (at_seat desk.new Free (signer_seen S.told S.faults S.denials signer.new) (nodes_seen N.told N.faults nodes.new)) (result_ok result) }
{
    match aggregate {
        Got::Given(aggregate) => {
            let message = AggregateAndProof {
                aggregator_index: row.validator_index,
                aggregate,
                selection_proof: proof,
            };
            ask_leave(work, row, message, desk, signer, nodes)
        }
        Got::Failed(result) => Ok(over(result)),
        Got::Nothing => Err(AllocError),
    }
}

/// Asks for leave for this aggregate, and has it signed and posted.
fn ask_leave<K: DeskCalls, S: Signer, N: Node + Drop>(
    work: &SlotWork,
    row: &AttesterRow,
    message: AggregateAndProof,
    desk: &mut K,
    signer: &mut S,
    nodes: &mut Nodes<N>,
) -> Result<Ended, AllocError>
    requires ready { K.ready desk.old }
    requires moment { work.now.moment ≤ moment_limit }
    ensures ready { K.ready desk.new }
    ensures runs { Carries Fits (Does K.leads) (gathered_plan work.now row.now message)
        (at_seat desk.old Free (signer_seen S.told S.faults S.denials signer.old) (nodes_seen N.told N.faults nodes.old))
        (at_seat desk.new Free (signer_seen S.told S.faults S.denials signer.new) (nodes_seen N.told N.faults nodes.new)) (result_ok result) }
{
    let reply = desk.call(DeskCall::Allow {
        key: row.pubkey,
        now: work.moment,
    });
    sign(work, message, grant_in(reply), desk, signer, nodes)
}

/// What goes to the signing service for an aggregate.
fn request_of(work: &SlotWork, message: AggregateAndProof) -> PlainRequest
    ensures { result ≡ aggregate_request work.now message }
{
    PlainRequest {
        fork: work.domains.fork,
        genesis: work.genesis,
        object: PlainObject::Aggregate(Aggregate::Unnamed(message)),
    }
}

/// The aggregate that goes with a request, which has one.
fn message_back(request: PlainRequest) -> AggregateAndProof
    requires { (m : AggregateAndProof) × (request.object ≡ PlainObject.Aggregate (Aggregate.Unnamed m)) }
    ensures { request.object ≡ PlainObject.Aggregate (Aggregate.Unnamed result) }
{
    match request.object {
        PlainObject::Aggregate(Aggregate::Unnamed(message)) => message,
        _ => unreachable!(),
    }
}

/// Has the aggregate signed and posted, where there is leave.
fn sign<K: DeskCalls, S: Signer, N: Node + Drop>(
    work: &SlotWork,
    message: AggregateAndProof,
    leave: Got<Grant>,
    desk: &mut K,
    signer: &mut S,
    nodes: &mut Nodes<N>,
) -> Result<Ended, AllocError>
    requires ready { K.ready desk.old }
    requires settles { MayEnd (λ c. K.allows desk.old c) leave }
    ensures ready { K.ready desk.new }
    ensures runs { Carries Fits (Does K.leads) (with_got over leave (λ g. aggregated_plan work.now message g))
        (at_seat desk.old (given_hand leave) (signer_seen S.told S.faults S.denials signer.old) (nodes_seen N.told N.faults nodes.old))
        (at_seat desk.new Free (signer_seen S.told S.faults S.denials signer.new) (nodes_seen N.told N.faults nodes.new)) (result_ok result) }
{
    match leave {
        Got::Given(grant) => {
            let request = request_of(work, message);
            let reply = signer.sign_plain(&request, &grant);
            post(
                message_back(request),
                signature_in(reply),
                grant,
                desk,
                nodes,
            )
        }
        Got::Failed(result) => Ok(over(result)),
        Got::Nothing => Err(AllocError),
    }
}

/// Posts the aggregate, where there is a signature, and settles its grant.
fn post<K: DeskCalls, N: Node + Drop>(
    message: AggregateAndProof,
    signature: Got<Sig>,
    grant: Grant,
    desk: &mut K,
    nodes: &mut Nodes<N>,
) -> Result<Ended, AllocError>
    requires ready { K.ready desk.old }
    requires settles { (o : Outcome) → K.allows desk.old (DeskCall.Settle grant o) }
    ensures ready { K.ready desk.new }
    ensures runs { (s : SignerSeen) → Carries Fits (Does K.leads) (under over grant signature (λ x. post_plan over grant (aggregate_post message x)))
        (at_seat desk.old (Holds grant) s (nodes_seen N.told N.faults nodes.old))
        (at_seat desk.new Free s (nodes_seen N.told N.faults nodes.new)) (result_ok result) }
{
    match signature {
        Got::Given(signature) => {
            let post = Post::Aggregate(Signed { message, signature });
            ended_by(send(&post, grant, desk, nodes))
        }
        Got::Failed(result) => {
            settle(desk, grant, Outcome::Dropped);
            Ok(over(result))
        }
        Got::Nothing => {
            settle(desk, grant, Outcome::Dropped);
            Err(AllocError)
        }
    }
}

/// The end of an aggregate that was granted, of which nothing is left.
fn ended_by(posted: Result<DutyResult, AllocError>) -> Result<Ended, AllocError>
    ensures { result_ok result ≡ option_map over (result_ok posted) }
{
    match posted {
        Ok(by) => Ok(over(by)),
        Err(error) => Err(error),
    }
}
