//! A desk that notes what it did.
ghost use Rattle.std.specs.Prelude.{◌≡◌};

use check_sign::{DeskCall, DeskCalls, DeskEvent, DeskReply, Event, Outcome, Proposals};
use edge_kit::{Items, PubKey};
use slash_defs::{Book, File, Message};
use std::alloc::{AllocError, Global};

/// What a desk did: each call whose reply changed more than its latest moment, with the greatest epoch that the desk
/// had been told by then.
#[derive(Drop)]
pub struct Notes {
    alloc: Global,
    latest: u64,
    events: Vec<DeskEvent>,
}

impl Notes {
    /// Nothing was noted yet of a desk that was opened at this epoch.
    pub fn new(alloc: Global, epoch: u64) -> Notes {
        Notes {
            alloc,
            latest: epoch,
            events: Vec::new(alloc),
        }
    }

    /// What was noted, in order.
    pub fn events(&self) -> &[DeskEvent] {
        self.events.as_slice()
    }

    /// Takes in what is asked.
    pub fn hear(&mut self, call: &DeskCall) -> Result<Asked, AllocError> {
        self.latest = self.latest.max(moment_of(call));
        asked_of(self.alloc, call)
    }

    /// Notes what was asked, where the reply says that the desk did it.
    pub fn note(
        &mut self,
        asked: Result<Asked, AllocError>,
        reply: &DeskReply,
    ) -> Result<(), AllocError> {
        let Some(event) = event_of(self.alloc, asked?, reply)? else {
            return Ok(());
        };
        let moment = self.latest;
        self.events.push(DeskEvent { event, moment })?;
        Ok(())
    }
}

/// Whatever takes the calls of a desk, and what it did.
#[derive(Drop)]
pub struct Noting<K> {
    pub desk: K,
    pub notes: Notes,
}

impl<K: DeskCalls> DeskCalls for Noting<K> {
    ghost ready = { λ n. K.ready n.desk };

    ghost allows = { λ n c. K.allows n.desk c };

    ghost leads = { λ n xs e. K.leads n.desk xs e.desk };

    fn call(&mut self, call: DeskCall) -> DeskReply {
        let asked = self.notes.hear(&call);
        let reply = self.desk.call(call);
        let _ = self.notes.note(asked, &reply);
        reply
    }

    fn close_idle(&mut self, key: &PubKey) -> DeskReply {
        let reply = self.desk.close_idle(key);
        let _ = self.notes.note(Ok(Asked::FinishClose(*key)), &reply);
        reply
    }

    ghost leads_none = { λ n. K.leads_none n.desk };

    ghost leads_more = { λ d e f xs ys p q. K.leads_more d.desk e.desk f.desk xs ys p q };

    ghost free = { λ n c h. K.free n.desk c h };

    ghost admits = { λ d e made c p h. K.admits d.desk e.desk made c p h };
}

/// What is kept of a call until it is answered.
#[derive(Drop)]
pub enum Asked {
    /// A file that lists a key at least.
    Merge(File),
    /// One message at least.
    Record(Proposals),
    Activate(PubKey),
    Propose(PubKey, Message),
    Allow(PubKey),
    Answer { key: PubKey, epoch: u64, live: bool },
    Settle { grant: u64, outcome: Outcome },
    BeginClose(PubKey),
    FinishClose(PubKey),
    Prune(PubKey),
    Compact,
    /// What changes nothing.
    Nothing,
}

/// The moment that a call tells; 0 where it tells none.
fn moment_of(call: &DeskCall) -> u64 {
    match call {
        DeskCall::Activate { now, .. } | DeskCall::Propose { now, .. } => *now,
        DeskCall::Allow { now, .. } | DeskCall::Answer { now, .. } => *now,
        DeskCall::Record { now, .. } => *now,
        _ => 0,
    }
}

/// What is kept of a call.
fn asked_of(alloc: Global, call: &DeskCall) -> Result<Asked, AllocError> {
    Ok(match call {
        DeskCall::Merge { file } => return asked_merge(alloc, file),
        DeskCall::Record { proposals, .. } => return asked_record(alloc, proposals),
        DeskCall::Activate { key, .. } => Asked::Activate(*key),
        DeskCall::Propose { key, message, .. } => Asked::Propose(*key, *message),
        DeskCall::Allow { key, .. } => Asked::Allow(*key),
        DeskCall::Answer {
            key,
            epoch,
            live,
            ..
        } => Asked::Answer {
            key: *key,
            epoch: *epoch,
            live: *live,
        },
        DeskCall::Settle { grant, outcome } => Asked::Settle {
            grant: grant.number(),
            outcome: *outcome,
        },
        DeskCall::BeginClose { key } => Asked::BeginClose(*key),
        DeskCall::FinishClose { key } => Asked::FinishClose(*key),
        DeskCall::Prune { key } => Asked::Prune(*key),
        DeskCall::Compact => Asked::Compact,
        DeskCall::Export { .. } | DeskCall::Keys => Asked::Nothing,
        DeskCall::HasFailed | DeskCall::Size => Asked::Nothing,
    })
}

/// What is kept of a merge.
fn asked_merge(alloc: Global, file: &File) -> Result<Asked, AllocError> {
    if file.books.is_empty() {
        return Ok(Asked::Nothing);
    }
    let mut books: Vec<(PubKey, Book)> = Vec::new(alloc);
    for (key, book) in file.books.as_slice() {
        books.push((*key, book.copy(alloc)?))?;
    }
    Ok(Asked::Merge(File {
        genesis: file.genesis,
        books: Items::from_vec(books),
    }))
}

/// What is kept of messages that are to be kept.
fn asked_record(alloc: Global, proposals: &Proposals) -> Result<Asked, AllocError> {
    if proposals.is_empty() {
        return Ok(Asked::Nothing);
    }
    let mut kept: Vec<(PubKey, Message)> = Vec::new(alloc);
    for one in proposals.as_slice() {
        kept.push(*one)?;
    }
    Ok(Asked::Record(Items::from_vec(kept)))
}

/// What the desk did, by what was asked and what it replied.
fn event_of(alloc: Global, asked: Asked, reply: &DeskReply) -> Result<Option<Event>, AllocError> {
    let event = match (asked, reply) {
        (Asked::Merge(file), DeskReply::Merged { .. }) => Event::Merged { file },
        (Asked::Record(proposals), DeskReply::Recorded) => Event::Recorded { proposals },
        (Asked::Activate(key), DeskReply::Active) => Event::Activated { key },
        (Asked::Propose(key, message), DeskReply::Granted(grant)) => Event::Granted {
            key,
            message,
            grant: grant.number(),
        },
        (Asked::Allow(key), DeskReply::Granted(grant)) => Event::Allowed {
            key,
            grant: grant.number(),
        },
        (Asked::Answer { key, epoch, live }, DeskReply::Noted) => Event::Told { key, epoch, live },
        (Asked::Settle { grant, outcome }, DeskReply::Settled) => Event::Settled { grant, outcome },
        (Asked::BeginClose(key), DeskReply::CloseBegun) => Event::CloseBegun { key },
        (Asked::FinishClose(key), DeskReply::Closed(book)) => Event::Closed {
            key,
            book: book.copy(alloc)?,
        },
        (Asked::Prune(key), DeskReply::Pruned(book)) => Event::Pruned {
            key,
            book: book.copy(alloc)?,
        },
        (Asked::Compact, DeskReply::Compacted { before, after }) => Event::Compacted {
            before: *before,
            after: *after,
        },
        _ => return Ok(None),
    };
    Ok(Some(event))
}
