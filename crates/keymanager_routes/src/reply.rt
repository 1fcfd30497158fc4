//! Replies.
ghost use Rattle.std.specs.Prelude.{◌≡◌, ◌++◌, IfOk};
ghost use Rattle.serde_json.specs.View.{view};
ghost use Rattle.keymanager_routes.specs.Replies.{message_data, message_reply};

use edge_kit::Items;
use json_members::Object;
use serde_json::Value;
use std::alloc::{AllocError, Global};

/// A reply: its status (RFC 9110), and its body, which is JSON.
#[derive(Drop)]
pub struct Reply {
    /// The status.
    pub status: u16,
    /// The bytes of the body.
    pub body: Items<u8>,
}

impl Reply {
    /// The reply of this status whose body is the object with this message. The error is want of memory.
    pub fn of_message(alloc: Global, status: u16, text: &str) -> Result<Reply, AllocError>
        ensures { IfOk result (λ r. r ≡ message_reply status text.now) }
    {
        let text = message_value(alloc, text)?.to_string(alloc)?;
        Ok(Reply {
            status,
            body: Items::from_vec(text.into_bytes()),
        })
    }

    /// The same of a word after a text. The error is want of memory.
    pub fn of_word(alloc: Global, status: u16, front: &str, word: &str) -> Result<Reply, AllocError>
        ensures { IfOk result (λ r. r ≡ message_reply status (front.now ++ word.now)) }
    {
        let mut text = String::from_str(alloc, front)?;
        text.push_str(word)?;
        Reply::of_message(alloc, status, text.as_str())
    }
}

fn message_value(alloc: Global, text: &str) -> Result<Value, AllocError>
    ensures { IfOk result (λ v. view v ≡ message_data text.now) }
{
    let object = Object::new(alloc).with_text(alloc, "message", text)?;
    Ok(object.value())
}
