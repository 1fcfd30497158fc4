//! Single calls of a desk, and the word of each reply.
use crate::lanes::NotedDesk;
use crate::words::root;
use check_sign::{DeskCall, DeskCalls, DeskReply, KeyStandings, MOMENT_LIMIT, Outcome};
use edge_kit::PubKey;
use slash_defs::Message;

/// Makes a key active at an epoch.
pub fn activate(desk: &mut NotedDesk, key: PubKey, epoch: u64) {
    let now = epoch.min(MOMENT_LIMIT);
    match desk.call(DeskCall::Activate { key, now }) {
        DeskReply::Active | DeskReply::Already | DeskReply::Closing => {}
        DeskReply::Disk | DeskReply::OutOfMemory => {}
        DeskReply::TooManyKeys { have: _, new: _ } => {}
        DeskReply::Full { size: _, wanted: _ } => {}
        _ => unreachable!(),
    }
}

/// Begins to close a key.
pub fn begin_close(desk: &mut NotedDesk, key: PubKey) -> &'static str {
    match desk.call(DeskCall::BeginClose { key }) {
        DeskReply::CloseBegun => "close begun",
        DeskReply::AlreadyClosing | DeskReply::Unknown | DeskReply::NotActive => "refused",
        _ => unreachable!(),
    }
}

/// Closes a key that is being closed.
pub fn finish_close(desk: &mut NotedDesk, key: PubKey) -> &'static str {
    match desk.call(DeskCall::FinishClose { key }) {
        DeskReply::Closed(_book) => "closed",
        DeskReply::Unknown | DeskReply::NotClosing(_) => "refused",
        DeskReply::Busy { grants: _ } => "refused",
        DeskReply::Disk | DeskReply::OutOfMemory => "refused",
        DeskReply::Full { size: _, wanted: _ } => "refused",
        _ => unreachable!(),
    }
}

/// Has a vote from epoch 1 to epoch 2 granted, and settles the grant as sent.
pub fn sign(desk: &mut NotedDesk, key: PubKey) -> &'static str {
    vote(desk, key, 1, 2)
}

/// Has each of these keys sign that many votes: the first from epoch 0 to epoch 1, each further one an epoch later.
pub fn vote_all(desk: &mut NotedDesk, keys: &[PubKey], count: u64) {
    for key in keys {
        vote_in_turn(desk, *key, count);
    }
}

fn vote_in_turn(desk: &mut NotedDesk, key: PubKey, count: u64) {
    for source in 0..count {
        let _ = vote(desk, key, source, source.saturating_add(1));
    }
}

/// Has a vote granted, and settles the grant as sent.
fn vote(desk: &mut NotedDesk, key: PubKey, source: u64, target: u64) -> &'static str {
    let root = root(10);
    let message = Message::Vote {
        source,
        target,
        root,
    };
    let now = 0;
    match desk.call(DeskCall::Propose { key, message, now }) {
        DeskReply::Granted(grant) => {
            let outcome = Outcome::Sent;
            match desk.call(DeskCall::Settle { grant, outcome }) {
                DeskReply::Settled => "sent",
                _ => unreachable!(),
            }
        }
        DeskReply::Unknown | DeskReply::NotActive | DeskReply::Closing => "refused",
        DeskReply::Live { epoch: _ } | DeskReply::Refused(_) => "refused",
        DeskReply::Watching {
            first: _,
            second: _,
        } => "refused",
        DeskReply::Disk | DeskReply::OutOfMemory => "refused",
        DeskReply::Full { size: _, wanted: _ } => "refused",
        _ => unreachable!(),
    }
}

/// Compacts the journal.
pub fn compact(desk: &mut NotedDesk) -> &'static str {
    match desk.call(DeskCall::Compact) {
        DeskReply::Compacted {
            before: _,
            after: _,
        } => "compacted",
        DeskReply::Disk | DeskReply::LastGeneration | DeskReply::OutOfMemory => "refused",
        DeskReply::Full { size: _, wanted: _ } => "refused",
        _ => unreachable!(),
    }
}

/// How the kept keys stand; none where memory ran out.
pub fn standings(desk: &mut NotedDesk) -> Option<KeyStandings> {
    match desk.call(DeskCall::Keys) {
        DeskReply::Keys(listed) => Some(listed),
        DeskReply::OutOfMemory => None,
        _ => unreachable!(),
    }
}
