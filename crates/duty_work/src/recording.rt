//! The desk keeps the messages of a slot's votes together, before it is asked for leave for each.
ghost use Rattle.std.specs.Prelude.{◌≡◌, ◌≤◌, ◌∷◌, [], ◌++◌, ℕ, All, List, Option, None, filter, true, IfOk, IfSome, OnOk};
ghost use Rattle.std.specs.BTreeSet.{contains};
ghost use Rattle.desk_machine.specs.Machine.{moment_limit};
ghost use Rattle.node_calls.specs.Fitting.{key_order};
ghost use Rattle.node_fallback.specs.Seen.{Seen};
ghost use Rattle.record_join.specs.BooksPasts.{EachOnce};
ghost use Rattle.duty_plans.specs.declared.work.SlotWork.{SlotWork};
ghost use Rattle.duty_plans.specs.Seats.{Seat};
ghost use Rattle.duty_plans.specs.Messages.{vote_message};
ghost use Rattle.duty_plans.specs.Votes.{messages_of};
ghost use Rattle.duty_pruning.specs.Pruning.{is_after};
ghost use Rattle.duty_turns.specs.Recording.{first_of_each, allowed_of, is_allowed, may_sign, recorded};
ghost use Rattle.duty_turns.specs.Turns.{NextPlan, records, records_allowed, records_votes};
ghost use Rattle.duty_turns.specs.TurnSteps.{SinkSeen};
ghost use Rattle.desk_machine.specs.declared.call.DeskReply.TheVariants as reply;
ghost use Rattle.duty_work.specs.Houses.{CalledOn, IsRecorded, house, short_by};
ghost use Rattle.duty_work.specs.Known.{IsKnown};
ghost use Rattle.sign_roots.specs.declared.domains.Domains.{Domains};

use desk_machine::{DeskCall, DeskCalls, DeskReply, KeyStanding, Proposals};
use doppel_watch::WatchState;
use duty_plans::{Task, vote_message};
use duty_pruning::is_after;
use duty_schedule::key_set;
use edge_kit::{Items, PubKey};
use phase0_types::AttestationData;
use sign_roots::Domains;
use slash_defs::Message;
use std::alloc::{AllocError, Global};
use std::collections::BTreeSet;

/// Has the desk keep the messages of these votes together, if there is one: those of the keys that may sign, and the first of
/// each key. Whatever the desk replies, the turn goes on, but for want of memory: a message that is not kept by this is kept
/// where leave for it is asked for.
pub(crate) fn record_votes<K: DeskCalls>(
    alloc: Global,
    domains: &Domains,
    moment: u64,
    tasks: &[Task],
    desk: &mut K,
) -> Result<(), AllocError>
    requires ready { K.ready desk.old }
    requires moment { moment ≤ moment_limit }
    ensures ready { K.ready desk.new }
    ensures called { (work : SlotWork) → work.domains ≡ domains.now → work.moment ≡ moment
        → (start : Option ℕ) (lanes : List (Seat K)) (nodes : List Seen) (out : SinkSeen) (next : NextPlan) → CalledOn K.leads start (records_votes work tasks.now next) next
        (house desk.old lanes nodes out) (house desk.new lanes nodes out) result }
{
    if tasks.is_empty() {
        return Ok(());
    }
    match desk.call(DeskCall::Keys) {
        DeskReply::Keys(listed) => {
            record_allowed(alloc, domains, moment, tasks, listed.as_slice(), desk)
        }
        DeskReply::OutOfMemory => Err(AllocError),
        _ => unreachable!(),
    }
}

/// Has the desk keep those of the messages of these votes together whose keys may sign by how they stand.
fn record_allowed<K: DeskCalls>(
    alloc: Global,
    domains: &Domains,
    moment: u64,
    tasks: &[Task],
    listed: &[(PubKey, KeyStanding)],
    desk: &mut K,
) -> Result<(), AllocError>
    requires ready { K.ready desk.old }
    requires moment { moment ≤ moment_limit }
    ensures ready { K.ready desk.new }
    ensures called { (work : SlotWork) → work.domains ≡ domains.now → work.moment ≡ moment
        → (start : Option ℕ) (lanes : List (Seat K)) (nodes : List Seen) (out : SinkSeen) (next : NextPlan) → CalledOn K.leads start (records_allowed work tasks.now (reply.Keys listed.now) next) next
        (house desk.old lanes nodes out) (house desk.new lanes nodes out) result }
{
    let Ok(messages) = recorded(alloc, domains, tasks, listed) else {
        return Err(AllocError);
    };
    record(messages, moment, desk)
}

/// Has the desk keep these messages together, if there is one.
fn record<K: DeskCalls>(messages: Proposals, moment: u64, desk: &mut K) -> Result<(), AllocError>
    requires ready { K.ready desk.old }
    requires once { EachOnce messages }
    requires moment { moment ≤ moment_limit }
    ensures ready { K.ready desk.new }
    ensures called { (start : Option ℕ) (lanes : List (Seat K)) (nodes : List Seen) (out : SinkSeen) (next : NextPlan) → CalledOn K.leads start (records moment messages next) next
        (house desk.old lanes nodes out) (house desk.new lanes nodes out) result }
{
    if messages.is_empty() {
        return Ok(());
    }
    let reply = desk.call(DeskCall::Record {
        proposals: messages,
        now: moment,
    });
    short_by(reply)
}

/// Whether memory ran out. A disk that failed is asked for at the slot's end.
fn short_by(reply: DeskReply) -> Result<(), AllocError>
    requires { IsRecorded reply }
    ensures { result ≡ short_by reply }
{
    match reply {
        DeskReply::Recorded
        | DeskReply::Unfit
        | DeskReply::Full { size: _, wanted: _ }
        | DeskReply::Disk => Ok(()),
        DeskReply::OutOfMemory => Err(AllocError),
        _ => unreachable!(),
    }
}

/// Of the messages of these votes, those of the keys that may sign by how they stand, and the first of each key. The error is
/// want of memory.
fn recorded(
    alloc: Global,
    domains: &Domains,
    tasks: &[Task],
    listed: &[(PubKey, KeyStanding)],
) -> Result<Proposals, AllocError>
    ensures value { IfOk result (λ messages. messages ≡ recorded domains.now (allowed_of listed.now) tasks.now) }
    ensures once { IfOk result (λ messages. EachOnce messages) }
{
    let messages = messages_of(alloc, domains, tasks)?;
    let allowed = allowed_of(alloc, listed)?;
    let mine = messages_by(alloc, messages.as_slice(), allowed.as_slice())?;
    let first = first_of_each(alloc, mine.as_slice())?;
    Ok(Items::from_vec(first))
}

/// The messages of these votes, each with its key. What is signed for the same data is hashed once: in a slot there is data
/// of 64 committees at most (consensus-specs, `MAX_COMMITTEES_PER_SLOT`). The error is want of memory.
fn messages_of(
    alloc: Global,
    domains: &Domains,
    tasks: &[Task],
) -> Result<Vec<(PubKey, Message)>, AllocError>
    ensures { IfOk result (λ messages. messages.items ≡ messages_of domains.now tasks.now) }
{
    let mut messages = Vec::with_capacity(alloc, tasks.len())?;
    let mut known = Vec::new(alloc);
    'tasks: for task in tasks {
        keep_message(&mut messages, &mut known, domains, task)?;
    }
    Ok(messages)
}

/// Keeps the message of a task with its key, where it is a vote for data. The error is want of memory.
fn keep_message(
    messages: &mut Vec<(PubKey, Message)>,
    known: &mut Vec<(AttestationData, Message)>,
    domains: &Domains,
    task: &Task,
) -> Result<(), AllocError>
    requires known { All (IsKnown domains.now) known.old.items }
    ensures known { All (IsKnown domains.now) known.new.items }
    ensures kept { OnOk result (messages.new.items ≡ messages.old.items ++ messages_of domains.now (task.now ∷ [])) }
{
    let Task::Vote(row, details) = task else {
        return Ok(());
    };
    let message = message_for(known, domains, details)?;
    messages.push((row.pubkey, message))?;
    Ok(())
}

/// What is signed of a vote for this data: as it is known, or else it is hashed and known from then on. The error is want of
/// memory.
fn message_for(
    known: &mut Vec<(AttestationData, Message)>,
    domains: &Domains,
    details: &AttestationData,
) -> Result<Message, AllocError>
    requires known { All (IsKnown domains.now) known.old.items }
    ensures known { All (IsKnown domains.now) known.new.items }
    ensures message { IfOk result (λ message. message ≡ vote_message domains.now details.now) }
{
    if let Some(message) = known_for(known.as_slice(), details) {
        return Ok(message);
    }
    let message = vote_message(domains, details);
    known.push((*details, message))?;
    Ok(message)
}

/// The message that is known for this data, if one is.
fn known_for(known: &[(AttestationData, Message)], details: &AttestationData) -> Option<Message>
    ensures { (domains : Domains) → All (IsKnown domains) known.now → IfSome result (λ message. message ≡ vote_message domains details.now) }
{
    'known: for (data, message) in known {
        if is_same(data, details) {
            return Some(*message);
        }
    }
    None
}

fn is_same(a: &AttestationData, b: &AttestationData) -> bool
    ensures { result ≡ true → a.now ≡ b.now }
{
    a == b
}

/// The keys of a listing that may sign, in order. The error is want of memory.
fn allowed_of(alloc: Global, listed: &[(PubKey, KeyStanding)]) -> Result<Vec<PubKey>, AllocError>
    ensures { IfOk result (λ allowed. allowed.items ≡ allowed_of listed.now) }
{
    let mut allowed = Vec::with_capacity(alloc, listed.len())?;
    'listed: for (key, standing) in listed {
        if may_sign(standing) {
            allowed.push(*key)?;
        }
    }
    Ok(allowed)
}

fn may_sign(standing: &KeyStanding) -> bool
    ensures { result ≡ may_sign standing.now }
{
    match standing {
        KeyStanding::Active(WatchState::Allowed) => true,
        KeyStanding::Active(WatchState::Missing { .. } | WatchState::Live(_)) => false,
        KeyStanding::Known | KeyStanding::Closing | KeyStanding::Closed => false,
    }
}

/// Those of these messages whose key is among these. The error is want of memory.
fn messages_by(
    alloc: Global,
    messages: &[(PubKey, Message)],
    keys: &[PubKey],
) -> Result<Vec<(PubKey, Message)>, AllocError>
    ensures { IfOk result (λ mine. mine.items ≡ filter (λ m. is_allowed keys.now m.0) messages.now) }
{
    let keys = key_set(alloc, keys)?;
    messages_in(alloc, messages, &keys)
}

fn messages_in(
    alloc: Global,
    messages: &[(PubKey, Message)],
    keys: &BTreeSet<PubKey>,
) -> Result<Vec<(PubKey, Message)>, AllocError>
    ensures { IfOk result (λ mine. mine.items ≡ filter (λ m. contains key_order keys.now m.0) messages.now) }
{
    messages
        .iter()
        .copied()
        .filter(|one| keys.contains(&one.0))
        .collect(alloc)
}

/// Each of these messages whose key comes after that of the last one taken. The error is want of memory.
fn first_of_each(
    alloc: Global,
    messages: &[(PubKey, Message)],
) -> Result<Vec<(PubKey, Message)>, AllocError>
    ensures { IfOk result (λ first. first.items ≡ first_of_each None messages.now) }
{
    let mut first = Vec::new(alloc);
    let mut last = None;
    'messages: for one in messages {
        if is_after(last, one.0) {
            first.push(*one)?;
            last = Some(one.0);
        }
    }
    Ok(first)
}
