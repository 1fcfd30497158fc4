//! Answers of a session, and their lines.
use crate::key_statuses::key_statuses;
use crate::reading::{bytes, file, numbers, push_ended, root};
use crate::refusals::{desk_refusal, refused, verdict};
use edge_kit::{Items, PubKey, Sig, read_hex, read_quoted};
use session_format::{Answer, Cause};
use std::alloc::Global;
use trial_lines::case_of;

/// Appends the line of an answer.
pub(crate) fn push_line_of(alloc: Global, text: &str, out: &mut String) -> Option<()> {
    let answer = answer_of(alloc, text)?;
    let line = answer.line(alloc).ok()?;
    push_ended(out, line.as_str()).ok()
}

/// The answer of a name and its values.
fn answer_of(alloc: Global, text: &str) -> Option<Answer> {
    let (name, rest) = case_of(text)?;
    match name {
        "unsigned" => Some(Answer::Unsigned(cause(alloc, rest)?)),
        "desk" => Some(Answer::from(desk_refusal(rest)?)),
        "verdict" => Some(Answer::Refused(verdict(rest)?)),
        "refused" => refused(alloc, rest),
        "keys" => listed(alloc, rest),
        "deleted" => deleted(alloc, rest),
        "imported" => Some(Answer::Imported {
            statuses: key_statuses(alloc, rest)?,
        }),
        "exported" => Some(Answer::Exported(file(alloc, rest)?)),
        _ => done(name, rest),
    }
}

/// What is done.
fn done(name: &str, rest: &str) -> Option<Answer> {
    match name {
        "merged" => Some(Answer::Merged {
            keys: read_quoted(rest)?,
        }),
        "active" => Some(Answer::Active),
        "pruned" => Some(Answer::Pruned),
        "noted" => Some(Answer::Noted),
        "compacted" => {
            let (before, after) = numbers(rest)?;
            Some(Answer::Compacted { before, after })
        }
        "signed" => signed(rest),
        _ => None,
    }
}

/// A signature and the root that it signs.
fn signed(text: &str) -> Option<Answer> {
    let (signature, signed) = text.split_once(' ')?;
    let signature = read_hex::<96>(signature)?;
    Some(Answer::Signed {
        signature: Sig(signature),
        root: root(signed)?,
    })
}

/// A key that is listed.
fn listed(alloc: Global, text: &str) -> Option<Answer> {
    let key = read_hex::<48>(text)?;
    let keys = vec![in alloc; PubKey(key); 1].ok()?;
    Some(Answer::Listed {
        keys: Items::from_vec(keys),
    })
}

/// Keys that are given up: their file, and after a `|` what becomes of each.
fn deleted(alloc: Global, text: &str) -> Option<Answer> {
    let (text, statuses) = text.split_once('|')?;
    let statuses = key_statuses(alloc, statuses)?;
    let file = file(alloc, text)?;
    Some(Answer::Deleted { statuses, file })
}

/// Why a granted proposal has no signature.
fn cause(alloc: Global, text: &str) -> Option<Cause> {
    let (name, rest) = case_of(text)?;
    match name {
        "no_key" => Some(Cause::NoKey),
        "fault" => Some(Cause::Fault),
        "denied" => Some(Cause::Denied {
            status: rest.parse::<u16>().ok()?,
        }),
        "bad_answer" => Some(Cause::BadAnswer {
            body: Items::from_vec(bytes(alloc, rest)?),
        }),
        _ => None,
    }
}
