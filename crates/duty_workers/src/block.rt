//! A block: the reveal of the proposer's randomness, the block, the desk's leave, the signature, the post.
ghost use Rattle.std.specs.Prelude.{◌≡◌, ◌≤◌, Some, option_map};
ghost use Rattle.std.specs.Result.{result_ok};
ghost use Rattle.desk_machine.specs.Machine.{moment_limit};
ghost use Rattle.desk_machine.specs.declared.call.Outcome.{Outcome};
ghost use Rattle.altair_blocks.specs.declared.any_block.AnyBlock.{AnyBlock};
ghost use Rattle.client_calls.specs.Seats.{SignerSeen, signer_seen};
ghost use Rattle.call_plans.specs.Paths.{Carries};
ghost use Rattle.duty_plans.specs.Ends.{barred, left_by, over};
ghost use Rattle.duty_plans.specs.Hands.{Free, Holds};
ghost use Rattle.duty_plans.specs.Messages.{block_message, block_post, block_request, reveal_request};
ghost use Rattle.duty_plans.specs.Plans.{allowed_plan, block_plan, granted_plan, made_plan, post_plan, revealed_plan, under, with_got};
ghost use Rattle.duty_plans.specs.Seats.{Does, at_seat, nodes_seen};
ghost use Rattle.duty_plans.specs.Steps.{Fits};
ghost use Rattle.duty_sends.specs.Hands.{HasMessage, MayEnd, given_hand};
ghost use Rattle.duty_workers.specs.Posts.{HasBlock};

use altair_blocks::AnyBlock;
use desk_machine::{DeskCall, DeskCalls, Grant, Outcome};
use duty_plans::{
    DutyResult, Ended, Got, SlotWork, Unsent, barred, block_in, grant_in, left_by, over,
    signature_in,
};
use duty_sends::{send, settle};
use edge_kit::Sig;
use node_calls::{Ask, Node, Post, ProposerRow};
use node_fallback::Nodes;
use phase0_blocks::Signed;
use sign_roots::{DomainKind, Domains, signing_root};
use signer_link::{PlainObject, PlainRequest, SignObject, SignRequest, Signer};
use slash_defs::Message;
use std::alloc::AllocError;

/// How many slots an epoch has (consensus-specs, `SLOTS_PER_EPOCH`).
const SLOTS_PER_EPOCH: u64 = 32;

/// Proposes the block of a duty.
pub(crate) fn propose_block<K: DeskCalls, S: Signer, N: Node + Drop>(
    work: &SlotWork,
    row: &ProposerRow,
    desk: &mut K,
    signer: &mut S,
    nodes: &mut Nodes<N>,
) -> Result<Ended, AllocError>
    requires ready { K.ready desk.old }
    requires moment { work.now.moment ≤ moment_limit }
    ensures ready { K.ready desk.new }
    ensures runs { Carries Fits (Does K.leads) (block_plan work.now row.now)
        (at_seat desk.old Free (signer_seen S.told S.faults S.denials signer.old) (nodes_seen N.told N.faults nodes.old))
        (at_seat desk.new Free (signer_seen S.told S.faults S.denials signer.new) (nodes_seen N.told N.faults nodes.new)) (result_ok result) }
{
    let reply = desk.call(DeskCall::Allow {
        key: row.pubkey,
        now: work.moment,
    });
    reveal(work, row, grant_in(reply), desk, signer, nodes)
}

/// What goes to the signing service for a reveal.
fn reveal_request(work: &SlotWork) -> PlainRequest
    ensures { result ≡ reveal_request work.now }
{
    PlainRequest {
        fork: work.domains.fork,
        genesis: work.genesis,
        object: PlainObject::RandaoReveal {
            epoch: work.slot / SLOTS_PER_EPOCH,
        },
    }
}

/// Has the randomness revealed, where there is leave.
fn reveal<K: DeskCalls, S: Signer, N: Node + Drop>(
    work: &SlotWork,
    row: &ProposerRow,
    leave: Got<Grant>,
    desk: &mut K,
    signer: &mut S,
    nodes: &mut Nodes<N>,
) -> Result<Ended, AllocError>
    requires ready { K.ready desk.old }
    requires moment { work.now.moment ≤ moment_limit }
    requires settles { MayEnd (λ c. K.allows desk.old c) leave }
    ensures ready { K.ready desk.new }
    ensures runs { Carries Fits (Does K.leads) (with_got over leave (λ g. allowed_plan work.now row.now g))
        (at_seat desk.old (given_hand leave) (signer_seen S.told S.faults S.denials signer.old) (nodes_seen N.told N.faults nodes.old))
        (at_seat desk.new Free (signer_seen S.told S.faults S.denials signer.new) (nodes_seen N.told N.faults nodes.new)) (result_ok result) }
{
    match leave {
        Got::Given(grant) => {
            let reply = signer.sign_plain(&reveal_request(work), &grant);
            ask(work, row, signature_in(reply), grant, desk, signer, nodes)
        }
        Got::Failed(result) => Ok(over(result)),
        Got::Nothing => Err(AllocError),
    }
}

/// Asks for the block with the reveal, where there is one, and settles the reveal's grant.
fn ask<K: DeskCalls, S: Signer, N: Node + Drop>(
    work: &SlotWork,
    row: &ProposerRow,
    reveal: Got<Sig>,
    grant: Grant,
    desk: &mut K,
    signer: &mut S,
    nodes: &mut Nodes<N>,
) -> Result<Ended, AllocError>
    requires ready { K.ready desk.old }
    requires moment { work.now.moment ≤ moment_limit }
    requires settles { (o : Outcome) → K.allows desk.old (DeskCall.Settle grant o) }
    ensures ready { K.ready desk.new }
    ensures runs { Carries Fits (Does K.leads) (under (left_by Unsent.Reveal) grant reveal (λ x. revealed_plan work.now row.now grant x))
        (at_seat desk.old (Holds grant) (signer_seen S.told S.faults S.denials signer.old) (nodes_seen N.told N.faults nodes.old))
        (at_seat desk.new Free (signer_seen S.told S.faults S.denials signer.new) (nodes_seen N.told N.faults nodes.new)) (result_ok result) }
{
    match reveal {
        Got::Given(reveal) => {
            let answer = nodes.ask(&Ask::Block {
                slot: work.slot,
                randao_reveal: reveal,
            });
            settle(desk, grant, Outcome::Sent);
            publish(
                work,
                row,
                block_in(work.altair, row, answer),
                desk,
                signer,
                nodes,
            )
        }
        Got::Failed(result) => {
            settle(desk, grant, Outcome::Dropped);
            Ok(left_by(Unsent::Reveal, result))
        }
        Got::Nothing => {
            settle(desk, grant, Outcome::Dropped);
            Err(AllocError)
        }
    }
}

/// Publishes what was answered, where that is the duty's.
fn publish<K: DeskCalls, S: Signer, N: Node + Drop>(
    work: &SlotWork,
    row: &ProposerRow,
    block: Got<AnyBlock>,
    desk: &mut K,
    signer: &mut S,
    nodes: &mut Nodes<N>,
) -> Result<Ended, AllocError>
    requires ready { K.ready desk.old }
    requires moment { work.now.moment ≤ moment_limit }
    ensures ready { K.ready desk.new }
    ensures runs { Carries Fits (Does K.leads) (with_got over block (λ b. made_plan work.now row.now b))
        (at_seat desk.old Free (signer_seen S.told S.faults S.denials signer.old) (nodes_seen N.told N.faults nodes.old))
        (at_seat desk.new Free (signer_seen S.told S.faults S.denials signer.new) (nodes_seen N.told N.faults nodes.new)) (result_ok result) }
{
    match block {
        Got::Given(block) => propose(work, row, block, desk, signer, nodes),
        Got::Failed(result) => Ok(over(result)),
        Got::Nothing => Err(AllocError),
    }
}

/// Proposes this block: for the first time, or once more.
pub(crate) fn propose<K: DeskCalls, S: Signer, N: Node + Drop>(
    work: &SlotWork,
    row: &ProposerRow,
    block: AnyBlock,
    desk: &mut K,
    signer: &mut S,
    nodes: &mut Nodes<N>,
) -> Result<Ended, AllocError>
    requires ready { K.ready desk.old }
    requires moment { work.now.moment ≤ moment_limit }
    ensures ready { K.ready desk.new }
    ensures runs { Carries Fits (Does K.leads) (made_plan work.now row.now block)
        (at_seat desk.old Free (signer_seen S.told S.faults S.denials signer.old) (nodes_seen N.told N.faults nodes.old))
        (at_seat desk.new Free (signer_seen S.told S.faults S.denials signer.new) (nodes_seen N.told N.faults nodes.new)) (result_ok result) }
{
    let reply = desk.call(DeskCall::Propose {
        key: row.pubkey,
        message: message_of(&work.domains, &block),
        now: work.moment,
    });
    sign(work, block, grant_in(reply), desk, signer, nodes)
}

/// What is signed of a block.
fn message_of(domains: &Domains, block: &AnyBlock) -> Message
    ensures { result ≡ block_message domains.now block.now }
{
    let domain = domains.domain(DomainKind::BeaconProposer, block.slot() / SLOTS_PER_EPOCH);
    Message::Block {
        slot: block.slot(),
        root: signing_root(block.root(), domain),
    }
}

/// What goes to the signing service for a block.
fn request_of(work: &SlotWork, block: AnyBlock) -> SignRequest
    ensures { result ≡ block_request work.now block }
{
    SignRequest {
        fork: work.domains.fork,
        genesis: work.genesis,
        object: Some(SignObject::Block(block)),
    }
}

/// The block that goes with a request, which has one.
fn block_back(request: SignRequest) -> AnyBlock
    requires { (b : AnyBlock) × (request.object ≡ Some (SignObject.Block b)) }
    ensures { request.object ≡ Some (SignObject.Block result) }
{
    match request.object {
        Some(SignObject::Block(block)) => block,
        _ => unreachable!(),
    }
}

/// Has the block signed and posted, where there is leave.
fn sign<K: DeskCalls, S: Signer, N: Node + Drop>(
    work: &SlotWork,
    block: AnyBlock,
    leave: Got<Grant>,
    desk: &mut K,
    signer: &mut S,
    nodes: &mut Nodes<N>,
) -> Result<Ended, AllocError>
    requires ready { K.ready desk.old }
    requires settles { MayEnd (λ c. K.allows desk.old c) leave }
    requires message { HasMessage leave }
    ensures ready { K.ready desk.new }
    ensures runs { Carries Fits (Does K.leads) (with_got (barred (Unsent.Block block)) leave (λ g. granted_plan (Unsent.Block block) (block_request work.now block) (block_post block) g))
        (at_seat desk.old (given_hand leave) (signer_seen S.told S.faults S.denials signer.old) (nodes_seen N.told N.faults nodes.old))
        (at_seat desk.new Free (signer_seen S.told S.faults S.denials signer.new) (nodes_seen N.told N.faults nodes.new)) (result_ok result) }
{
    match leave {
        Got::Given(grant) => {
            let request = request_of(work, block);
            let reply = signer.sign(&request, &grant);
            post(block_back(request), signature_in(reply), grant, desk, nodes)
        }
        Got::Failed(result) => Ok(barred(Unsent::Block(block), result)),
        Got::Nothing => Err(AllocError),
    }
}

/// The block of a post, which has one.
fn block_posted(post: Post) -> AnyBlock
    requires { (block : AnyBlock) × HasBlock post block }
    ensures { HasBlock post result }
{
    match post {
        Post::Block(signed) => signed.message,
        Post::Vote(_) | Post::Aggregate(_) => unreachable!(),
    }
}

/// The end of a block that was granted.
fn left_of(block: AnyBlock, posted: Result<DutyResult, AllocError>) -> Result<Ended, AllocError>
    ensures { result_ok result ≡ option_map (λ by. left_by (Unsent.Block block) by) (result_ok posted) }
{
    match posted {
        Ok(by) => Ok(left_by(Unsent::Block(block), by)),
        Err(error) => Err(error),
    }
}

/// Posts the block, where there is a signature, and settles its grant.
fn post<K: DeskCalls, N: Node + Drop>(
    block: AnyBlock,
    signature: Got<Sig>,
    grant: Grant,
    desk: &mut K,
    nodes: &mut Nodes<N>,
) -> Result<Ended, AllocError>
    requires ready { K.ready desk.old }
    requires settles { (o : Outcome) → K.allows desk.old (DeskCall.Settle grant o) }
    ensures ready { K.ready desk.new }
    ensures runs { (s : SignerSeen) → Carries Fits (Does K.leads) (under (left_by (Unsent.Block block)) grant signature (λ x. post_plan (left_by (Unsent.Block block)) grant (block_post block x)))
        (at_seat desk.old (Holds grant) s (nodes_seen N.told N.faults nodes.old))
        (at_seat desk.new Free s (nodes_seen N.told N.faults nodes.new)) (result_ok result) }
{
    match signature {
        Got::Given(signature) => {
            let signed = Signed {
                message: block,
                signature,
            };
            let post = Post::Block(signed);
            let posted = send(&post, grant, desk, nodes);
            left_of(block_posted(post), posted)
        }
        Got::Failed(result) => {
            settle(desk, grant, Outcome::Dropped);
            Ok(left_by(Unsent::Block(block), result))
        }
        Got::Nothing => {
            settle(desk, grant, Outcome::Dropped);
            Err(AllocError)
        }
    }
}
