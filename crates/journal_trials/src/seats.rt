//! Two seats at a shared desk, one after the other.
ghost use Rattle.std.specs.Prelude.{◌≡◌, IfSome, List};
ghost use Rattle.desk_lock.specs.Passes.{number};
ghost use Rattle.desk_lock.specs.Sharing.{given_of, passes_of};
ghost use Rattle.desk_machine.specs.declared.call.DeskCall.{DeskCall};
ghost use Rattle.desk_machine.specs.declared.call.DeskReply.{DeskReply};
ghost use Rattle.desk_seat.specs.Seats.{IsDeskPass};

use crate::desks::{push_call, push_kept};
use crate::phases::empty_disks;
use check_sign::{Desk, DeskCalls};
use desk_lock::{Owner, Pass, Shared};
use desk_seat::{LentDesk, Seated, lend, take_back};
use edge_kit::{Disk, MemDisk, Root};
use std::alloc::{AllocError, Global};
use std::sync::Wait;

/// A desk over empty disks, lent to two passes.
fn lent(alloc: Global) -> Option<Owner<LentDesk<MemDisk>>>
    ensures { IfSome result (λ owner. (passes_of owner ≡ 2) × (given_of owner ≡ 0)) }
{
    let disks = empty_disks(alloc).ok()?;
    let desk = Desk::open(alloc, disks, Root([0; 32]), false, 0).ok()?;
    lend(alloc, desk, 2).ok()
}

/// Takes the desk back from its two passes.
fn back<D: Disk + Drop>(
    alloc: Global,
    owner: Owner<LentDesk<D>>,
    one: Pass<LentDesk<D>>,
    other: Pass<LentDesk<D>>,
) -> Result<Desk<D>, AllocError>
    requires given { (passes_of owner ≡ 2) × (given_of owner ≡ 2) }
    requires one { IsDeskPass D.moment D.leaves D.faults owner.shared one × (number one ≡ 0) }
    requires other { IsDeskPass D.moment D.leaves D.faults owner.shared other × (number other ≡ 1) }
{
    let mut passes = Vec::with_capacity(alloc, 2)?;
    passes.push_reserved(one);
    passes.push_reserved(other);
    Ok(take_back(owner, passes))
}

/// Makes the call that words name, if there are any, and puts what is answered to a text.
fn push_any<K: DeskCalls>(desk: &mut K, words: &str, text: &mut String) -> Option<()>
    requires ready { K.ready desk.old }
    ensures ready { K.ready desk.new }
    ensures led { (made : List (DeskCall × DeskReply)) × K.leads desk.old made desk.new }
{
    if words.is_empty() {
        return Some(());
    }
    push_call(desk, words, text)
}

/// Makes calls of whatever takes the calls of a desk, and puts what is answered to a text.
fn push_calls<K: DeskCalls>(desk: &mut K, calls: &str, text: &mut String) -> Option<()>
    requires ready { K.ready desk.old }
    ensures ready { K.ready desk.new }
    ensures led { (made : List (DeskCall × DeskReply)) × K.leads desk.old made desk.new }
{
    for words in calls.split(',') {
        push_any(desk, words.trim(), text)?;
    }
    Some(())
}

/// Makes calls over a seat, and puts what is answered to a text.
fn push_turns<D: Disk, W: Wait>(
    rt: &W,
    shared: &Shared<LentDesk<D>>,
    pass: Pass<LentDesk<D>>,
    calls: &str,
    text: &mut String,
) -> Option<Pass<LentDesk<D>>>
    requires pass { IsDeskPass D.moment D.leaves D.faults shared.now pass }
    ensures pass { IfSome result (λ after. IsDeskPass D.moment D.leaves D.faults shared.now after) }
    ensures number { IfSome result (λ after. number after ≡ number pass) }
{
    let mut seat = Seated::new(rt, shared, pass);
    push_calls(&mut seat, calls, text)?;
    Some(seat.into_pass())
}

/// Makes calls over the one seat, and then over the other, which knows what the one has seen.
fn push_both<D: Disk + Drop, W: Wait>(
    rt: &W,
    shared: &Shared<LentDesk<D>>,
    passes: (Pass<LentDesk<D>>, Pass<LentDesk<D>>),
    calls: (&str, &str),
    text: &mut String,
) -> Option<(Pass<LentDesk<D>>, Pass<LentDesk<D>>)>
    requires one { IsDeskPass D.moment D.leaves D.faults shared.now passes.0 }
    requires other { IsDeskPass D.moment D.leaves D.faults shared.now passes.1 }
    ensures one { IfSome result (λ after. IsDeskPass D.moment D.leaves D.faults shared.now after.0) }
    ensures other { IfSome result (λ after. IsDeskPass D.moment D.leaves D.faults shared.now after.1) }
    ensures numbers { IfSome result (λ after. (number after.0 ≡ number passes.0) × (number after.1 ≡ number passes.1)) }
{
    let (one, mut other) = passes;
    let mut one = push_turns(rt, shared, one, calls.0, text)?;
    shared.meet(&mut other, &mut one);
    let other = push_turns(rt, shared, other, calls.1, text)?;
    Some((one, other))
}

/// Puts what calls answer to a text that are made over two seats, and what the disks keep then.
pub fn play<W: Wait>(rt: &W, alloc: Global, words: &str, text: &mut String) -> Option<()> {
    let calls = words.split_once('|')?;
    let mut owner = lent(alloc)?;
    let passes = (owner.pass().unwrap(), owner.pass().unwrap());
    let (one, other) = push_both(rt, &owner.shared, passes, calls, text)?;
    let desk = back(alloc, owner, one, other).ok()?;
    let (disks, _events) = desk.end();
    push_kept(alloc, &disks, Root([0; 32]), text)
}
