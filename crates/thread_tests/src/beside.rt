//! Two seats next to each other: one holds a grant of a key that the other one closes. Where the close did not wait for the
//! grant, it would answer that the grant is open.
ghost use Rattle.std.specs.Prelude.{◌≡◌, IfOk, List};
ghost use Rattle.desk_lock.specs.Passes.{number};
ghost use Rattle.desk_lock.specs.Sharing.{given_of, passes_of};
ghost use Rattle.desk_machine.specs.declared.call.DeskCall.{DeskCall};
ghost use Rattle.desk_machine.specs.declared.call.DeskReply.{DeskReply};
ghost use Rattle.desk_seat.specs.Seats.{IsDeskPass};

use check_sign::{Desk, DeskCall, DeskCalls, DeskReply, Outcome};
use desk_lock::{Owner, Pass, Shared};
use desk_seat::{LentDesk, Seated, lend, take_back};
use edge_kit::{Disk, Disks, MemDisk, PubKey, Root};
use slash_defs::{Book, Message, VoteEntry};
use std::alloc::{AllocError, Global};
use std::process::Abort;
use std::rt::Clock;
use std::sync::Wait;
use std::sync::atomic::{AtomicBool, AtomicU64, Ordering};
use std::test::Fail;
use std::thread;
use std::thread::{Threads, join_mut};
use std::time::Duration;

const KEY: PubKey = PubKey([0x11; 48]);

const ROOT: Root = Root([0xaa; 32]);

/// The vote of the key.
const VOTE: Message = Message::Vote {
    source: 0,
    target: 1,
    root: ROOT,
};

/// How many naps of a millisecond a wait has at most.
const MOST_NAPS: u64 = 20_000;

/// How long the grant is held once the close has begun, in milliseconds.
const HELD: u64 = 50;

/// What the seats have come to, and how many waits came to their limit.
#[derive(Drop)]
struct Flags {
    is_granted: AtomicBool,
    has_begun: AtomicBool,
    /// Set just before the grant is spent.
    is_spent: AtomicBool,
    late_waits: AtomicU64,
}

impl Flags {
    /// Waits for what is to come, or counts that it did not come in time.
    fn wait<T: Clock>(&self, rt: &T, flag: &AtomicBool) {
        for _nap in 0..MOST_NAPS {
            if flag.load(Ordering::SeqCst) {
                return;
            }
            thread::sleep(rt, Duration::from_millis(1));
        }
        self.late_waits.fetch_add(1, Ordering::SeqCst);
    }
}

/// Whether a book has just the vote.
fn has_the_vote(book: &Book) -> bool {
    let vote = VoteEntry {
        source: 0,
        target: 1,
        root: Some(ROOT),
    };
    book.blocks.is_empty() && book.votes.as_slice() == [vote].as_slice()
}

/// Holds a grant until the other side has begun the close, and a while longer.
fn hold<K: DeskCalls, T: Clock + Abort>(rt: &T, desk: &mut K, flags: &Flags)
    requires ready { K.ready desk.old }
    ensures ready { K.ready desk.new }
    ensures led { (made : List (DeskCall × DeskReply)) × K.leads desk.old made desk.new }
{
    let (key, message, now) = (KEY, VOTE, 3);
    let grant = match desk.call(DeskCall::Propose { key, message, now }) {
        DeskReply::Granted(grant) => grant,
        _ => panic!(rt; "not granted"),
    };
    flags.is_granted.store(true, Ordering::SeqCst);
    flags.wait(rt, &flags.has_begun);
    thread::sleep(rt, Duration::from_millis(HELD));
    flags.is_spent.store(true, Ordering::SeqCst);
    let outcome = Outcome::Sent;
    match desk.call(DeskCall::Settle { grant, outcome }) {
        DeskReply::Settled => {}
        _ => panic!(rt; "not settled"),
    }
}

/// Closes the key once the other side has its grant. The vote is handed over, once the grant is spent.
fn close_after<K: DeskCalls, T: Clock + Abort>(rt: &T, desk: &mut K, flags: &Flags)
    requires ready { K.ready desk.old }
    ensures ready { K.ready desk.new }
    ensures led { (made : List (DeskCall × DeskReply)) × K.leads desk.old made desk.new }
{
    flags.wait(rt, &flags.is_granted);
    match desk.call(DeskCall::BeginClose { key: KEY }) {
        DeskReply::CloseBegun => {}
        _ => panic!(rt; "the close is not begun"),
    }
    flags.has_begun.store(true, Ordering::SeqCst);
    match desk.close_idle(&KEY) {
        DeskReply::Closed(book) => assert!(rt; has_the_vote(&book)),
        _ => panic!(rt; "not closed"),
    }
    assert!(rt; flags.is_spent.load(Ordering::SeqCst));
}

/// One side holds a grant while the other one closes the key.
fn hold_and_close<T: Threads + Clock + Abort + Sync, K: DeskCalls + Send>(
    rt: &T,
    one: &mut K,
    other: &mut K,
    flags: &Flags,
)
    requires ready { K.ready one.old × K.ready other.old }
    ensures ready { K.ready one.new × K.ready other.new }
    ensures one { (made : List (DeskCall × DeskReply)) × K.leads one.old made one.new }
    ensures other { (made : List (DeskCall × DeskReply)) × K.leads other.old made other.new }
{
    let ((), ()) = join_mut(
        rt,
        &mut || -> ()
            requires { K.ready one.now }
            ensures { K.ready one.exit.now × ((made : List (DeskCall × DeskReply)) × K.leads one.entry.now made one.exit.now) }
        { hold(rt, one, flags) },
        &mut || -> ()
            requires { K.ready other.now }
            ensures { K.ready other.exit.now × ((made : List (DeskCall × DeskReply)) × K.leads other.entry.now made other.exit.now) }
        { close_after(rt, other, flags) },
    );
}

/// Makes the key active by a turn.
fn activate<D: Disk, T: Wait + Abort>(
    rt: &T,
    shared: &Shared<LentDesk<D>>,
    pass: &mut Pass<LentDesk<D>>,
)
    requires pass { IsDeskPass D.moment D.leaves D.faults shared.now pass.old }
    ensures pass { IsDeskPass D.moment D.leaves D.faults shared.now pass.new }
    ensures number { number pass.new ≡ number pass.old }
{
    match shared.turn(rt, pass, DeskCall::Activate { key: KEY, now: 2 }) {
        DeskReply::Active => {}
        _ => panic!(rt; "not activated"),
    }
}

/// Makes the key active by one pass, whose seat holds a grant while the seat of the other one closes the key.
fn close_over_seats<T: Threads + Wait + Clock + Abort + Sync, D: Disk + Send>(
    rt: &T,
    shared: &Shared<LentDesk<D>>,
    mut one: Pass<LentDesk<D>>,
    other: Pass<LentDesk<D>>,
    flags: &Flags,
) -> (Pass<LentDesk<D>>, Pass<LentDesk<D>>)
    requires one { IsDeskPass D.moment D.leaves D.faults shared.now one }
    requires other { IsDeskPass D.moment D.leaves D.faults shared.now other }
    ensures one { IsDeskPass D.moment D.leaves D.faults shared.now result.0 }
    ensures other { IsDeskPass D.moment D.leaves D.faults shared.now result.1 }
    ensures numbers { (number result.0 ≡ number one) × (number result.1 ≡ number other) }
{
    activate(rt, shared, &mut one);
    let mut one = Seated::new(rt, shared, one);
    let mut other = Seated::new(rt, shared, other);
    hold_and_close(rt, &mut one, &mut other, flags);
    (one.into_pass(), other.into_pass())
}

/// A desk over empty disks, lent to two passes.
fn lent(alloc: Global) -> Result<Owner<LentDesk<MemDisk>>, Fail>
    ensures { IfOk result (λ owner. (passes_of owner ≡ 2) × (given_of owner ≡ 0)) }
{
    let disks = Disks {
        first: MemDisk::new(alloc, Vec::new(alloc), Vec::new(alloc), None)?,
        second: MemDisk::new(alloc, Vec::new(alloc), Vec::new(alloc), None)?,
    };
    let Ok(desk) = Desk::open(alloc, disks, Root([0; 32]), false, 0) else {
        return Err(Fail::new("not opened"));
    };
    match lend(alloc, desk, 2) {
        Ok(owner) => Ok(owner),
        Err(_) => Err(Fail::new("not lent")),
    }
}

/// Takes the desk back from its two passes.
fn back<D: Disk + Drop>(
    alloc: Global,
    owner: Owner<LentDesk<D>>,
    one: Pass<LentDesk<D>>,
    other: Pass<LentDesk<D>>,
) -> Result<Desk<D>, AllocError>
    requires given { (passes_of owner ≡ 2) × (given_of owner ≡ 2) }
    requires one { IsDeskPass D.moment D.leaves D.faults owner.shared one × (number one ≡ 0) }
    requires other { IsDeskPass D.moment D.leaves D.faults owner.shared other × (number other ≡ 1) }
{
    let mut passes = Vec::with_capacity(alloc, 2)?;
    passes.push_reserved(one);
    passes.push_reserved(other);
    Ok(take_back(owner, passes))
}

#[test]
fn a_close_waits_for_a_grant_of_another_seat(rt: HostRuntime) -> Result<(), Fail> {
    let flags = Flags {
        is_granted: AtomicBool::new(false),
        has_begun: AtomicBool::new(false),
        is_spent: AtomicBool::new(false),
        late_waits: AtomicU64::new(0),
    };
    let mut owner = lent(rt.alloc())?;
    let (one, other) = (owner.pass().unwrap(), owner.pass().unwrap());
    let (one, other) = close_over_seats(&rt, &owner.shared, one, other, &flags);
    back(rt.alloc(), owner, one, other)?;
    assert!(rt; flags.late_waits.load(Ordering::SeqCst) == 0);
    Ok(())
}
