//! What the desk did, as plain data.
use crate::call::{Outcome, Proposals};
use edge_kit::PubKey;
use past_items::Past;
use slash_defs::{Book, File, Message};

/// A call whose reply changed the desk, a grant by its number.
#[derive(Drop)]
pub enum Event {
    /// A file was merged. It lists a key at least.
    Merged {
        file: File,
    },
    /// A key became active.
    Activated {
        key: PubKey,
    },
    /// A proposal was granted.
    Granted {
        key: PubKey,
        message: Message,
        grant: u64,
    },
    /// Messages were kept without a grant; one at least.
    Recorded {
        proposals: Proposals,
    },
    /// Leave was given to sign what is no block and no vote.
    Allowed {
        key: PubKey,
        grant: u64,
    },
    /// It was told whether a key was live in an epoch.
    Told {
        key: PubKey,
        epoch: u64,
        live: bool,
    },
    /// A grant was spent.
    Settled {
        grant: u64,
        outcome: Outcome,
    },
    /// A key began to be closed.
    CloseBegun {
        key: PubKey,
    },
    /// A key was closed, and this is what is handed over of it.
    Closed {
        key: PubKey,
        book: Book,
    },
    /// A key's record was pruned by this book.
    Pruned {
        key: PubKey,
        book: Book,
    },
    /// The journal was compacted: the sizes in bytes of the file that was current and of the one that is now.
    Compacted {
        before: u64,
        after: u64,
    },
}

/// An event with its moment, the greatest epoch that the desk had been told by then.
#[derive(Drop)]
pub struct DeskEvent {
    pub event: Event,
    pub moment: u64,
}

/// The events since the desk was opened, in order, as contracts speak of them. They take no memory.
pub type Events = Past<DeskEvent>;
