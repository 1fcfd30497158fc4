//! A desk over two disks in memory, and calls of whatever takes the calls of a desk.
ghost use Rattle.std.specs.Prelude.{◌≡◌, [], List, IfSome};
ghost use Rattle.desk_machine.specs.Given.{MayMake};
ghost use Rattle.desk_machine.specs.declared.call.DeskCall.{DeskCall};
ghost use Rattle.desk_machine.specs.declared.call.DeskReply.{DeskReply};
ghost use Rattle.journal_trials.specs.Replies.{IsHeld};

use crate::calls::{call_of, outcome_of};
use crate::replies::push_reply;
use crate::words::{moment_of, root_of, value_of};
use check_sign::{Desk, DeskCall, DeskCalls, DeskReply, Grant, Outcome};
use edge_kit::{Disks, MemDisk, Root};
use std::alloc::Global;
use test_texts::kept_words;

/// Spends a grant, and puts that to a text.
#[tactic(auto, using(crate::proofs::ReplyLemmas::of_settle))]
fn settle<K: DeskCalls>(
    desk: &mut K,
    grant: Grant,
    outcome: Outcome,
    text: &mut String,
) -> Option<()>
    requires ready { K.ready desk.old }
    requires settles { K.allows desk.old (DeskCall.Settle grant outcome) }
    ensures ready { K.ready desk.new }
    ensures led { (made : List (DeskCall × DeskReply)) × K.leads desk.old made desk.new }
{
    let number = grant.number();
    push_reply(text, desk.call(DeskCall::Settle { grant, outcome }))?;
    write!(text, " {outcome:?}, grant {number}").ok()
}

/// Makes a call, and puts what is answered to a text. A grant is spent, and a key is closed once no grant of it is open.
#[tactic(auto, using(crate::proofs::ReplyLemmas::of_close))]
fn make<K: DeskCalls>(
    desk: &mut K,
    call: DeskCall,
    outcome: Outcome,
    text: &mut String,
) -> Option<()>
    requires ready { K.ready desk.old }
    requires free { MayMake [] call }
    ensures ready { K.ready desk.new }
    ensures led { (made : List (DeskCall × DeskReply)) × K.leads desk.old made desk.new }
{
    match call {
        DeskCall::FinishClose { key } => push_reply(text, desk.close_idle(&key)),
        call => match desk.call(call) {
            DeskReply::Granted(grant) => settle(desk, grant, outcome, text),
            reply => push_reply(text, reply),
        },
    }
}

/// Makes the call that words name, and puts what is answered to a text.
pub fn push_call<K: DeskCalls>(desk: &mut K, words: &str, text: &mut String) -> Option<()>
    requires ready { K.ready desk.old }
    ensures ready { K.ready desk.new }
    ensures led { (made : List (DeskCall × DeskReply)) × K.leads desk.old made desk.new }
{
    let call = call_of(words)?;
    make(desk, call, outcome_of(words), text)?;
    text.push('\n').ok()
}

/// Makes a call while a grant is held, and puts what is answered to a text. A grant is spent at once.
fn make_beside(
    desk: &mut Desk<MemDisk>,
    _grant: &Grant,
    call: DeskCall,
    text: &mut String,
) -> Option<()>
    requires held { IsHeld desk.old.contents _grant.now }
    requires free { MayMake [] call }
    ensures held { IsHeld desk.new.contents _grant.now }
{
    match desk.call(call) {
        DeskReply::Granted(second) => {
            desk.settle(second, Outcome::Dropped);
            text.push_str("granted").ok()
        }
        reply => push_reply(text, reply),
    }
}

/// Makes the call that words name while a grant is held, and puts what is answered to a text.
fn call_beside(
    desk: &mut Desk<MemDisk>,
    grant: &Grant,
    words: &str,
    text: &mut String,
) -> Option<()>
    requires held { IsHeld desk.old.contents grant.now }
    ensures held { IsHeld desk.new.contents grant.now }
{
    text.push_str("meanwhile ").ok()?;
    let call = call_of(words)?;
    make_beside(desk, grant, call, text)?;
    text.push('\n').ok()
}

/// Makes calls while a grant is held, and puts what is answered to a text.
fn push_beside(
    desk: &mut Desk<MemDisk>,
    grant: &Grant,
    calls: &str,
    text: &mut String,
) -> Option<()>
    requires held { IsHeld desk.old.contents grant.now }
    ensures held { IsHeld desk.new.contents grant.now }
{
    for words in calls.split("; ") {
        call_beside(desk, grant, words, text)?;
    }
    Some(())
}

/// Makes calls while a grant is held, and then drops it.
fn hold(desk: &mut Desk<MemDisk>, grant: Grant, calls: &str, text: &mut String) -> Option<()>
    requires held { IsHeld desk.old.contents grant }
{
    let number = grant.number();
    let pushed = push_beside(desk, &grant, calls, text);
    desk.settle(grant, Outcome::Dropped);
    pushed?;
    writeln!(text, "settled Dropped, grant {number}").ok()
}

/// Makes the call that words name, and further ones while the grant that it gives is held.
fn push_held(desk: &mut Desk<MemDisk>, words: &str, calls: &str, text: &mut String) -> Option<()> {
    let call = call_of(words)?;
    match desk.call(call) {
        DeskReply::Granted(grant) => hold(desk, grant, calls, text),
        reply => push_reply(text, reply),
    }
}

/// Makes the call that words name, and those in brackets behind it while its grant is held.
fn push_any(desk: &mut Desk<MemDisk>, words: &str, text: &mut String) -> Option<()> {
    match words.split_once(" [") {
        Some((words, calls)) => push_held(desk, words, calls.trim_end_matches(']'), text),
        None => push_call(desk, words, text),
    }
}

/// Makes calls of a desk, and puts what is answered to a text, and what it says of itself then.
fn push_calls(desk: &mut Desk<MemDisk>, calls: &str, text: &mut String) -> Option<()> {
    for words in calls.split(',') {
        push_any(desk, words.trim(), text)?;
    }
    writeln!(text, "size {}, failed {}", desk.size(), desk.failed()).ok()
}

/// Puts what a desk over such disks says of each key to a text, a line a key.
pub fn push_kept(
    alloc: Global,
    disks: &Disks<MemDisk>,
    root: Root,
    text: &mut String,
) -> Option<()> {
    let kept = kept_words(alloc, disks, root).ok()?;
    for line in kept.as_str().lines() {
        writeln!(text, "kept {line}").ok()?;
    }
    Some(())
}

/// Makes calls of a desk, puts what its disks keep then to a text, and gives the disks.
fn play_opened(
    alloc: Global,
    mut desk: Desk<MemDisk>,
    root: Root,
    calls: &str,
    text: &mut String,
) -> Option<Disks<MemDisk>> {
    push_calls(&mut desk, calls, text)?;
    let (disks, _events) = desk.end();
    push_kept(alloc, &disks, root, text)?;
    Some(disks)
}

/// Opens a desk over disks and makes calls of it, puts what it says of itself and what the disks keep to a text, and gives the
/// disks as it leaves them.
pub fn play(
    alloc: Global,
    options: &str,
    calls: &str,
    disks: Disks<MemDisk>,
    text: &mut String,
) -> Option<Disks<MemDisk>> {
    let root = root_of(value_of(options, "genesis").unwrap_or("00"))?;
    let now = moment_of(value_of(options, "now").unwrap_or("0"))?;
    let is_watched = value_of(options, "watch").is_some();
    match Desk::open(alloc, disks, root, is_watched, now) {
        Ok(desk) => play_opened(alloc, desk, root, calls, text),
        Err((fault, disks)) => {
            writeln!(text, "not opened: {fault:?}").ok()?;
            Some(disks)
        }
    }
}
