//! Replies of a desk, in words.
ghost use Rattle.journal_trials.specs.Replies.{IsNoGrant};

use crate::entries::{push_book, push_vote};
use crate::words::push_named;
use check_sign::{DeskReply, KeyStanding};
use edge_kit::PubKey;
use protect_record::Verdict;
use slash_defs::Book;

/// Puts keys to a text, each with how it stands.
fn push_keys(text: &mut String, keys: &[(PubKey, KeyStanding)]) -> Option<()> {
    text.push_str("keys").ok()?;
    for (key, standing) in keys {
        push_named(text, ", ", &key.0)?;
        write!(text, " {standing:?}").ok()?;
    }
    Some(())
}

/// Puts a verdict to a text.
fn push_verdict(text: &mut String, verdict: &Verdict) -> Option<()> {
    let Verdict::DoubleVote(kept) = verdict else {
        return write!(text, "refused, {verdict:?}").ok();
    };
    text.push_str("refused, double to ").ok()?;
    push_vote(text, kept)
}

/// Puts the book that a close hands over to a text.
fn push_closed(text: &mut String, book: &Book) -> Option<()> {
    text.push_str("closed").ok()?;
    push_book(text, book)
}

/// The words of a reply that says no more.
fn plain_words(reply: &DeskReply) -> &'static str {
    match reply {
        DeskReply::Active => "active",
        DeskReply::Already => "active already",
        DeskReply::Noted => "noted",
        DeskReply::Settled => "settled",
        DeskReply::CloseBegun => "close begun",
        DeskReply::AlreadyClosing => "closing already",
        DeskReply::Unknown => "unknown",
        DeskReply::NotActive => "not active",
        DeskReply::Closing => "closing",
        DeskReply::Disk => "disk failed",
        DeskReply::LastGeneration => "last generation",
        DeskReply::OutOfMemory => "out of memory",
        DeskReply::Recorded => "recorded",
        DeskReply::Unfit => "unfit",
        _ => "another reply",
    }
}

/// Puts a reply that is no grant to a text.
pub fn push_reply(text: &mut String, reply: DeskReply) -> Option<()>
    requires { IsNoGrant reply }
{
    let words = plain_words(&reply);
    match reply {
        DeskReply::Granted(_grant) => unreachable!(),
        DeskReply::Closed(book) => push_closed(text, &book),
        DeskReply::Keys(keys) => push_keys(text, keys.as_slice()),
        DeskReply::Refused(verdict) => push_verdict(text, &verdict),
        DeskReply::Compacted { before, after } => {
            write!(text, "compacted from {before} to {after}").ok()
        }
        DeskReply::Busy { grants } => write!(text, "busy with {grants}").ok(),
        DeskReply::Watching { first, second } => write!(text, "watching {first}, {second:?}").ok(),
        DeskReply::Active
        | DeskReply::Already
        | DeskReply::Noted
        | DeskReply::Settled
        | DeskReply::CloseBegun
        | DeskReply::AlreadyClosing
        | DeskReply::Unknown
        | DeskReply::NotActive
        | DeskReply::Closing
        | DeskReply::Disk
        | DeskReply::LastGeneration
        | DeskReply::OutOfMemory
        | DeskReply::Recorded
        | DeskReply::Unfit
        | DeskReply::Merged { keys: _ }
        | DeskReply::Exported(_)
        | DeskReply::Pruned(_)
        | DeskReply::HasFailed(_)
        | DeskReply::Size { size: _, weight: _ }
        | DeskReply::NotClosing(_)
        | DeskReply::Live { epoch: _ }
        | DeskReply::GenesisDiffers { kept: _, given: _ }
        | DeskReply::TooManyKeys { have: _, new: _ }
        | DeskReply::Full { size: _, wanted: _ } => text.push_str(words).ok(),
    }
}
