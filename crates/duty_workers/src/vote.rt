//! A vote: what its committee is to vote, the desk's leave, the signature, the post.
ghost use Rattle.std.specs.Prelude.{◌≡◌, ◌≤◌, [], option_map, true};
ghost use Rattle.std.specs.Result.{result_ok};
ghost use Rattle.desk_machine.specs.Machine.{moment_limit};
ghost use Rattle.desk_machine.specs.declared.call.Outcome.{Outcome};
ghost use Rattle.node_calls.specs.Aggregation.{aggregation_bits};
ghost use Rattle.client_calls.specs.Seats.{SignerSeen, signer_seen};
ghost use Rattle.call_plans.specs.Paths.{Carries};
ghost use Rattle.call_plans.specs.Plans.{Done, Follows};
ghost use Rattle.duty_plans.specs.Ends.{barred, left_by, over};
ghost use Rattle.duty_plans.specs.Hands.{Free, Holds};
ghost use Rattle.duty_plans.specs.Messages.{vote_post, vote_request};
ghost use Rattle.duty_plans.specs.Plans.{data_plan, granted_plan, post_plan, said, under, vote_plan, voted_plan, with_got};
ghost use Rattle.duty_plans.specs.Seats.{Does, at_seat, nodes_seen};
ghost use Rattle.duty_plans.specs.Steps.{Fits};
ghost use Rattle.duty_sends.specs.Hands.{HasMessage, MayEnd, given_hand};
ghost use Rattle.duty_workers.specs.Places.{has_place};

use desk_machine::{DeskCall, DeskCalls, Grant, Outcome};
use duty_plans::{
    DutyResult, Ended, Got, SlotWork, Unsent, barred, grant_in, left_by, over, said, signature_in,
    vote_in, vote_message,
};
use duty_sends::{send, settle};
use edge_kit::Sig;
use node_calls::{Ask, AttesterRow, Node, Post, aggregation_bits};
use node_fallback::Nodes;
use phase0_blocks::Attestation;
use phase0_types::{AttestationData, BoundedList};
use signer_link::{SignObject, SignRequest, Signer};
use std::alloc::{AllocError, Global};

/// Asks the nodes what the committee of a vote is to vote.
pub(crate) fn ask_data<K: DeskCalls, N: Node + Drop>(
    work: &SlotWork,
    row: &AttesterRow,
    nodes: &mut Nodes<N>,
) -> Result<Ended, AllocError>
    ensures runs { (desk : K) (s : SignerSeen) → Carries Fits (Does K.leads) (data_plan work.now row.now)
        (at_seat desk Free s (nodes_seen N.told N.faults nodes.old)) (at_seat desk Free s (nodes_seen N.told N.faults nodes.new)) (result_ok result) }
{
    let answer = nodes.ask(&Ask::Data {
        slot: work.slot,
        committee_index: row.committee_index,
    });
    end_of(vote_in(row, answer))
}

/// How the question ended, where this was answered.
fn end_of(details: Got<AttestationData>) -> Result<Ended, AllocError>
    ensures { Follows Fits (with_got over details (λ d. Done (said d))) [] (result_ok result) }
{
    match details {
        Got::Given(details) => Ok(said(details)),
        Got::Failed(result) => Ok(over(result)),
        Got::Nothing => Err(AllocError),
    }
}

/// Casts the vote of a duty.
pub(crate) fn cast_vote<K: DeskCalls, S: Signer, N: Node + Drop>(
    alloc: Global,
    work: &SlotWork,
    row: &AttesterRow,
    desk: &mut K,
    signer: &mut S,
    nodes: &mut Nodes<N>,
) -> Result<Ended, AllocError>
    requires ready { K.ready desk.old }
    requires moment { work.now.moment ≤ moment_limit }
    requires place { has_place row.now ≡ true }
    ensures ready { K.ready desk.new }
    ensures runs { Carries Fits (Does K.leads) (vote_plan work.now row.now)
        (at_seat desk.old Free (signer_seen S.told S.faults S.denials signer.old) (nodes_seen N.told N.faults nodes.old))
        (at_seat desk.new Free (signer_seen S.told S.faults S.denials signer.new) (nodes_seen N.told N.faults nodes.new)) (result_ok result) }
{
    let answer = nodes.ask(&Ask::Data {
        slot: work.slot,
        committee_index: row.committee_index,
    });
    vote_on(alloc, work, row, vote_in(row, answer), desk, signer, nodes)
}

/// Votes on what was answered, where that is the duty's.
fn vote_on<K: DeskCalls, S: Signer, N: Node + Drop>(
    alloc: Global,
    work: &SlotWork,
    row: &AttesterRow,
    details: Got<AttestationData>,
    desk: &mut K,
    signer: &mut S,
    nodes: &mut Nodes<N>,
) -> Result<Ended, AllocError>
    requires ready { K.ready desk.old }
    requires moment { work.now.moment ≤ moment_limit }
    requires place { has_place row.now ≡ true }
    ensures ready { K.ready desk.new }
    ensures runs { Carries Fits (Does K.leads) (with_got over details (λ d. voted_plan work.now row.now d))
        (at_seat desk.old Free (signer_seen S.told S.faults S.denials signer.old) (nodes_seen N.told N.faults nodes.old))
        (at_seat desk.new Free (signer_seen S.told S.faults S.denials signer.new) (nodes_seen N.told N.faults nodes.new)) (result_ok result) }
{
    match details {
        Got::Given(details) => vote_for(alloc, work, row, details, desk, signer, nodes),
        Got::Failed(result) => Ok(over(result)),
        Got::Nothing => Err(AllocError),
    }
}

/// Votes for this: for the first time, or once more.
#[tactic(auto, using(crate::proofs::PlaceLemmas::place_below, crate::proofs::PlaceLemmas::length_within))]
pub(crate) fn vote_for<K: DeskCalls, S: Signer, N: Node + Drop>(
    alloc: Global,
    work: &SlotWork,
    row: &AttesterRow,
    details: AttestationData,
    desk: &mut K,
    signer: &mut S,
    nodes: &mut Nodes<N>,
) -> Result<Ended, AllocError>
    requires ready { K.ready desk.old }
    requires moment { work.now.moment ≤ moment_limit }
    requires place { has_place row.now ≡ true }
    ensures ready { K.ready desk.new }
    ensures runs { Carries Fits (Does K.leads) (voted_plan work.now row.now details)
        (at_seat desk.old Free (signer_seen S.told S.faults S.denials signer.old) (nodes_seen N.told N.faults nodes.old))
        (at_seat desk.new Free (signer_seen S.told S.faults S.denials signer.new) (nodes_seen N.told N.faults nodes.new)) (result_ok result) }
{
    let Ok(bits) = aggregation_bits(alloc, row.validator_committee_index, row.committee_length)
    else {
        return Err(AllocError);
    };
    let reply = desk.call(DeskCall::Propose {
        key: row.pubkey,
        message: vote_message(&work.domains, &details),
        now: work.moment,
    });
    sign(
        work,
        row,
        details,
        bits,
        grant_in(reply),
        desk,
        signer,
        nodes,
    )
}

/// What goes to the signing service for a vote.
fn request_of(work: &SlotWork, details: AttestationData) -> SignRequest
    ensures { result ≡ vote_request work.now details }
{
    SignRequest {
        fork: work.domains.fork,
        genesis: work.genesis,
        object: Some(SignObject::Attestation(details)),
    }
}

/// Has the vote signed and posted, where there is leave.
fn sign<K: DeskCalls, S: Signer, N: Node + Drop>(
    work: &SlotWork,
    row: &AttesterRow,
    details: AttestationData,
    bits: BoundedList<bool, 2048>,
    leave: Got<Grant>,
    desk: &mut K,
    signer: &mut S,
    nodes: &mut Nodes<N>,
) -> Result<Ended, AllocError>
    requires ready { K.ready desk.old }
    requires settles { MayEnd (λ c. K.allows desk.old c) leave }
    requires message { HasMessage leave }
    requires bits { bits ≡ aggregation_bits row.now.validator_committee_index row.now.committee_length }
    ensures ready { K.ready desk.new }
    ensures runs { Carries Fits (Does K.leads) (with_got (barred (Unsent.Vote details)) leave (λ g. granted_plan (Unsent.Vote details) (vote_request work.now details) (vote_post row.now details) g))
        (at_seat desk.old (given_hand leave) (signer_seen S.told S.faults S.denials signer.old) (nodes_seen N.told N.faults nodes.old))
        (at_seat desk.new Free (signer_seen S.told S.faults S.denials signer.new) (nodes_seen N.told N.faults nodes.new)) (result_ok result) }
{
    match leave {
        Got::Given(grant) => {
            let reply = signer.sign(&request_of(work, details), &grant);
            let posted = post(row, details, bits, signature_in(reply), grant, desk, nodes);
            left_of(details, posted)
        }
        Got::Failed(result) => Ok(barred(Unsent::Vote(details), result)),
        Got::Nothing => Err(AllocError),
    }
}

/// The end of a vote that was granted.
fn left_of(
    details: AttestationData,
    posted: Result<DutyResult, AllocError>,
) -> Result<Ended, AllocError>
    ensures { result_ok result ≡ option_map (λ by. left_by (Unsent.Vote details) by) (result_ok posted) }
{
    match posted {
        Ok(by) => Ok(left_by(Unsent::Vote(details), by)),
        Err(error) => Err(error),
    }
}

/// Posts the vote, where there is a signature, and settles its grant.
fn post<K: DeskCalls, N: Node + Drop>(
    row: &AttesterRow,
    details: AttestationData,
    bits: BoundedList<bool, 2048>,
    signature: Got<Sig>,
    grant: Grant,
    desk: &mut K,
    nodes: &mut Nodes<N>,
) -> Result<DutyResult, AllocError>
    requires ready { K.ready desk.old }
    requires settles { (o : Outcome) → K.allows desk.old (DeskCall.Settle grant o) }
    requires bits { bits ≡ aggregation_bits row.now.validator_committee_index row.now.committee_length }
    ensures ready { K.ready desk.new }
    ensures runs { (s : SignerSeen) (unsent : Unsent) → Carries Fits (Does K.leads) (under (left_by unsent) grant signature (λ x. post_plan (left_by unsent) grant (vote_post row.now details x)))
        (at_seat desk.old (Holds grant) s (nodes_seen N.told N.faults nodes.old))
        (at_seat desk.new Free s (nodes_seen N.told N.faults nodes.new)) (option_map (λ by. left_by unsent by) (result_ok result)) }
{
    match signature {
        Got::Given(signature) => {
            let vote = Attestation {
                aggregation_bits: bits,
                details,
                signature,
            };
            send(&Post::Vote(vote), grant, desk, nodes)
        }
        Got::Failed(result) => {
            settle(desk, grant, Outcome::Dropped);
            Ok(result)
        }
        Got::Nothing => {
            settle(desk, grant, Outcome::Dropped);
            Err(AllocError)
        }
    }
}
