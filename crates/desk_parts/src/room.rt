//! Room that is made before the desk changes, and what it notes.
ghost use Rattle.std.specs.Prelude.{◌≡◌, ◌+◌, ◌-◌, ◌^◌, ◌<◌, ◌⊎◌, ◌↔◌, ◌++◌, ◌∷◌, [], false, None, Some, IsSome, IsTrue, length};
ghost use Rattle.record_join.specs.Keys.{kept_of};
ghost use Rattle.record_join.specs.BooksPasts.{key_limit};
ghost use Rattle.desk_machine.specs.Noted.{noted_merge, noted_record};

use desk_machine::{DeskEvent, Event, Events, Grant, OpenGrants, Proposals};
use edge_kit::PubKey;
use record_join::{Books, KEY_LIMIT};
use slash_defs::{Book, File, Message};

/// Makes room for one more grant. Whether there is room; it fails only where there was none, or where each number
/// was given.
pub fn make_room(grants: &mut OpenGrants) -> bool
    ensures kept { grants.new.grants ≡ grants.old.grants }
    ensures next { grants.new.next ≡ grants.old.next }
    ensures refused { result ≡ false → (grants.old.next ≡ 2 ^ 64 - 1) ⊎ (grants.old.room ≡ 0) }
    ensures room { IsTrue result → (grants.new.next < 2 ^ 64 - 1) × (0 < grants.new.room) }
{
    if grants.next() == u64::MAX {
        return false;
    }
    grants.reserve().is_ok()
}

/// Notes an event.
pub fn note(events: &mut Events, event: Event, moment: u64)
    ensures { events.new.items ≡ events.old.items ++ record { event = event; moment = moment } ∷ [] }
{
    *events = events.and(&DeskEvent { event, moment });
}

/// Gives a grant and notes it, where there is room.
pub fn give(
    events: &mut Events,
    grants: &mut OpenGrants,
    key: PubKey,
    message: Message,
    moment: u64,
) -> Grant
    requires room { 0 < grants.old.room }
    requires next { grants.old.next < 2 ^ 64 - 1 }
    ensures grant { result ≡ record { number = grants.old.next; key = key; message = Some message } }
    ensures events { events.new.items ≡ events.old.items ++ record { event = Event.Granted key message result.number; moment = moment } ∷ [] }
    ensures kept { grants.new.grants ≡ grants.old.grants ++ result ∷ [] }
    ensures next { grants.new.next ≡ grants.old.next + 1 }
{
    let grant = grants.give(key, Some(message));
    let granted = Event::Granted {
        key,
        message,
        grant: grant.number(),
    };
    note(events, granted, moment);
    grant
}

/// Gives a grant without a message and notes it, where there is room.
pub fn give_leave(events: &mut Events, grants: &mut OpenGrants, key: PubKey, moment: u64) -> Grant
    requires room { 0 < grants.old.room }
    requires next { grants.old.next < 2 ^ 64 - 1 }
    ensures grant { result ≡ record { number = grants.old.next; key = key; message = None } }
    ensures events { events.new.items ≡ events.old.items ++ record { event = Event.Allowed key result.number; moment = moment } ∷ [] }
    ensures kept { grants.new.grants ≡ grants.old.grants ++ result ∷ [] }
    ensures next { grants.new.next ≡ grants.old.next + 1 }
{
    let grant = grants.give(key, None);
    let allowed = Event::Allowed {
        key,
        grant: grant.number(),
    };
    note(events, allowed, moment);
    grant
}

/// Notes that a file was merged. One without keys is not noted.
pub fn note_merge(events: &mut Events, file: File, moment: u64)
    ensures { events.new.items ≡ events.old.items ++ noted_merge moment file file.books }
{
    if !file.books.is_empty() {
        note(events, Event::Merged { file }, moment);
    }
}

/// Notes that messages were kept, if there is one.
pub fn note_record(events: &mut Events, proposals: Proposals, moment: u64)
    ensures { events.new.items ≡ events.old.items ++ noted_record moment proposals }
{
    if !proposals.is_empty() {
        note(events, Event::Recorded { proposals }, moment);
    }
}

/// Notes that a key was closed, and hands its book on.
pub fn note_closed(events: &mut Events, key: PubKey, book: Book, moment: u64) -> Book
    ensures book { result ≡ book }
    ensures events { events.new.items ≡ events.old.items ++ record { event = Event.Closed key result; moment = moment } ∷ [] }
{
    let closed = DeskEvent {
        event: Event::Closed { key, book },
        moment,
    };
    *events = events.and(&closed);
    let DeskEvent { event, moment: _ } = closed;
    match event {
        Event::Closed { key: _, book } => book,
        _other => unreachable!(),
    }
}

/// Notes that a key was pruned, and hands the book on that it gained.
pub fn note_pruned(events: &mut Events, key: PubKey, book: Book, moment: u64) -> Book
    ensures book { result ≡ book }
    ensures events { events.new.items ≡ events.old.items ++ record { event = Event.Pruned key result; moment = moment } ∷ [] }
{
    let pruned = DeskEvent {
        event: Event::Pruned { key, book },
        moment,
    };
    *events = events.and(&pruned);
    let DeskEvent { event, moment: _ } = pruned;
    match event {
        Event::Pruned { key: _, book } => book,
        _other => unreachable!(),
    }
}

/// Whether the key is kept, or one more may be.
pub fn fits_one(books: &Books, key: &PubKey) -> bool
    ensures { IsTrue result ↔ (IsSome (kept_of books.now key.now) ⊎ (length books.now < key_limit)) }
{
    match books.get(key) {
        Some(_) => true,
        None => books.len() < KEY_LIMIT,
    }
}
