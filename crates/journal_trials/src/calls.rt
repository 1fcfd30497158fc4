//! Calls of a desk, as words.
ghost use Rattle.std.specs.Prelude.{[], IfSome};
ghost use Rattle.desk_machine.specs.Given.{MayMake};

use crate::words::{key_of, moment_of, number_of, root_of};
use check_sign::{DeskCall, Outcome};
use edge_kit::PubKey;
use slash_defs::Message;

/// The vote of these words: its source, its target and its root.
fn vote_of(source: &str, target: &str, root: &str) -> Option<Message> {
    Some(Message::Vote {
        source: number_of(source)?,
        target: number_of(target)?,
        root: root_of(root)?,
    })
}

/// The call for leave to sign a vote.
fn proposal(key: PubKey, words: &str) -> Option<DeskCall>
    ensures { IfSome result (λ call. MayMake [] call) }
{
    let mut words = words.strip_prefix("vote ")?.split(' ');
    let message = vote_of(words.next()?, words.next()?, words.next()?)?;
    let now = moment_of(words.next()?)?;
    Some(DeskCall::Propose { key, message, now })
}

/// The call that tells whether a key was live in an epoch.
fn answer(key: PubKey, words: &str) -> Option<DeskCall>
    ensures { IfSome result (λ call. MayMake [] call) }
{
    let mut words = words.split(' ');
    let epoch = number_of(words.next()?)?;
    let live = words.next()? == "live";
    let now = moment_of(words.next()?)?;
    Some(DeskCall::Answer {
        key,
        epoch,
        live,
        now,
    })
}

/// The call that a name and further words say of a key.
fn call_of_key(name: &str, key: PubKey, words: &str) -> Option<DeskCall>
    ensures { IfSome result (λ call. MayMake [] call) }
{
    match name {
        "begin-close" => Some(DeskCall::BeginClose { key }),
        "close" => Some(DeskCall::FinishClose { key }),
        "activate" => Some(DeskCall::Activate {
            key,
            now: moment_of(words)?,
        }),
        "allow" => Some(DeskCall::Allow {
            key,
            now: moment_of(words)?,
        }),
        "answer" => answer(key, words),
        "sign" | "drop" => proposal(key, words),
        _ => None,
    }
}

/// The call that words name.
pub fn call_of(words: &str) -> Option<DeskCall>
    ensures { IfSome result (λ call. MayMake [] call) }
{
    let (name, rest) = words.split_once(' ').unwrap_or((words, ""));
    let (key, rest) = rest.split_once(' ').unwrap_or((rest, ""));
    match name {
        "keys" => Some(DeskCall::Keys),
        "compact" => Some(DeskCall::Compact),
        _ => call_of_key(name, key_of(key)?, rest),
    }
}

/// What becomes of the grant that a call gives: it is dropped where the first word says so.
pub fn outcome_of(words: &str) -> Outcome {
    if words.starts_with("drop ") {
        Outcome::Dropped
    } else {
        Outcome::Sent
    }
}
