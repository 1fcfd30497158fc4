//! What a node keeps of its calls.
ghost use Rattle.std.specs.Prelude.{◌≡◌, ◌⊎◌, ◌∷◌, [], Err, IfOk, OnOk};
ghost use Rattle.edge_kit.specs.Tellings.{Tells};
ghost use Rattle.node_calls.specs.Asking.{posted, told_ask, told_post};
ghost use Rattle.beacon_node.specs.Calls.{HasRoom, IsReady, IsSilent, kept, told_ready};

use edge_kit::PubKey;
use node_calls::{Answer, Ask, NodeCall, NodeFault, Post, PostCall, calls_copy};
use slash_defs::Message;
use std::alloc::{AllocError, Global};

/// Makes room for one call, where calls are kept. The error is want of memory.
pub(crate) fn make_room(told: &mut Option<Vec<NodeCall>>) -> Result<(), AllocError>
    ensures kept { kept told.new ≡ kept told.old }
    ensures room { OnOk result (HasRoom told.new) }
{
    match told {
        Some(calls) => calls.reserve(1),
        None => Ok(()),
    }
}

/// The calls so far with their replies again, where calls are kept. The error is want of memory.
pub(crate) fn kept_copy(
    alloc: Global,
    told: &Option<Vec<NodeCall>>,
) -> Result<Option<Vec<NodeCall>>, AllocError>
    ensures { IfOk result (λ copy. kept copy ≡ kept told.now) }
{
    match told {
        Some(calls) => Ok(Some(calls_copy(alloc, calls.as_slice())?)),
        None => Ok(None),
    }
}

/// Keeps a question with its reply, where calls are kept, and hands the reply on. Where memory lacks nothing is
/// kept, and the reply is `OutOfMemory`.
pub(crate) fn tell_ask(
    alloc: Global,
    told: &mut Option<Vec<NodeCall>>,
    ask: &Ask,
    reply: Result<Answer, NodeFault>,
) -> Result<Answer, NodeFault>
    requires { HasRoom told.old }
    ensures told { Tells (kept told.old) (kept told.new) (told_ask ask.now result) }
    ensures reply { (result ≡ reply) ⊎ (result ≡ Err NodeFault.OutOfMemory) }
    ensures silent { IsSilent (kept told.old) (kept told.new) }
{
    let Some(calls) = told else {
        return reply;
    };
    match asked(alloc, ask, &reply) {
        Ok(call) => {
            calls.push_reserved(call);
            reply
        }
        Err(AllocError) => Err(NodeFault::OutOfMemory),
    }
}

/// What is kept of a question. The error is want of memory, and stands for the reply `OutOfMemory` too.
fn asked(
    alloc: Global,
    ask: &Ask,
    reply: &Result<Answer, NodeFault>,
) -> Result<NodeCall, AllocError>
    ensures { IfOk result (λ call. told_ask ask.now reply.now ≡ call ∷ []) }
{
    let reply = match reply {
        Ok(answer) => Ok(answer.copy(alloc)?),
        Err(fault) => Err(fault.copy(alloc)?),
    };
    Ok(NodeCall::Asked(ask.copy(alloc)?, reply))
}

/// What is to be kept of a post, where calls are kept. The error is want of memory.
pub(crate) fn post_call(
    alloc: Global,
    told: &Option<Vec<NodeCall>>,
    key: &PubKey,
    message: Option<Message>,
    post: &Post,
) -> Result<Option<PostCall>, AllocError>
    ensures { IfOk result (λ call. IsReady told.now call (posted key.now message post.now)) }
{
    if told.is_none() {
        return Ok(None);
    }
    let post = post.copy(alloc)?;
    Ok(Some(PostCall {
        key: *key,
        message,
        post,
    }))
}

/// Keeps a post with its reply, where calls are kept, and hands the reply on. Where memory lacks nothing is kept,
/// and the reply is `OutOfMemory`; none is taken for the replies that a post has.
pub(crate) fn tell_post(
    alloc: Global,
    told: &mut Option<Vec<NodeCall>>,
    call: Option<PostCall>,
    reply: Result<(), NodeFault>,
) -> Result<(), NodeFault>
    requires { HasRoom told.old }
    ensures told { Tells (kept told.old) (kept told.new) (told_ready call result) }
    ensures reply { (result ≡ reply) ⊎ (result ≡ Err NodeFault.OutOfMemory) }
    ensures silent { IsSilent (kept told.old) (kept told.new) }
{
    let Some(calls) = told else {
        return reply;
    };
    let Some(call) = call else {
        return reply;
    };
    match reply_copy(alloc, &reply) {
        Ok(copy) => {
            calls.push_reserved(NodeCall::Posted(call, copy));
            reply
        }
        Err(AllocError) => Err(NodeFault::OutOfMemory),
    }
}

/// The same reply again. The error is want of memory, and stands for the reply `OutOfMemory` too.
fn reply_copy(
    alloc: Global,
    reply: &Result<(), NodeFault>,
) -> Result<Result<(), NodeFault>, AllocError>
    ensures { IfOk result (λ copy. (call : PostCall) → told_post call reply.now ≡ NodeCall.Posted call copy ∷ []) }
{
    match reply {
        Ok(()) => Ok(Ok(())),
        Err(fault) => Ok(Err(fault.copy(alloc)?)),
    }
}
