//! Why a request is refused, and the reply that says so.
ghost use Rattle.std.specs.Prelude.{◌≡◌, ◌++◌, IfOk, string_bytes, codes, decimal};
ghost use Rattle.std.specs.Str.Lossy.{utf8_lossy};
ghost use Rattle.keymanager_routes.specs.Replies.{message_reply};
ghost use Rattle.keymanager_routes.specs.Refusals.{fault_word, lists_text, refusal_reply};

use crate::member::Member;
use crate::reply::Reply;
use edge_kit::Items;
use interchange_io::ReadFault;
use std::alloc::{AllocError, AllocFailed, Global};

/// Why a request is refused: the first check that it fails, in this order. Nothing is done then.
#[derive(Drop)]
pub enum Refusal {
    /// What came is no head of a request.
    BadHead,
    /// The target before its query names nothing.
    NoRoute,
    /// The method does nothing with what the target names.
    NoMethod,
    /// The request bears no token.
    NoToken,
    /// The request bears another token.
    WrongToken,
    /// The body is in this coding, other than identity.
    Encoded(Items<u8>),
    /// What came is no body as its fields frame it.
    BadBody,
    /// The body has more bytes than are read.
    BodyTooLong,
    /// The body is no JSON object, or this member is absent or of another kind.
    BadMember(Member),
    /// There are so many keystores, and so many passwords.
    ListsDiffer { keystores: usize, passwords: usize },
    /// The text is no interchange file.
    BadProtection(ReadFault),
}

impl Refusal {
    /// The reply: the status of the refusal, and a message. The error is want of memory.
    pub fn reply(&self, alloc: Global) -> Result<Reply, AllocError>
        ensures { IfOk result (λ r. r ≡ refusal_reply self.now) }
    {
        match self {
            Refusal::BadHead => Reply::of_message(alloc, 400, "bad head"),
            Refusal::NoRoute => Reply::of_message(alloc, 404, "no route"),
            Refusal::NoMethod => Reply::of_message(alloc, 405, "no method"),
            Refusal::NoToken => Reply::of_message(alloc, 401, "no token"),
            Refusal::WrongToken => Reply::of_message(alloc, 403, "wrong token"),
            Refusal::Encoded(value) => encoded_reply(alloc, value.as_slice()),
            Refusal::BadBody => Reply::of_message(alloc, 400, "bad body"),
            Refusal::BodyTooLong => Reply::of_message(alloc, 413, "body too long"),
            Refusal::BadMember(member) => {
                Reply::of_word(alloc, 400, "bad member: ", member.name())
            }
            Refusal::ListsDiffer {
                keystores,
                passwords,
            } => lists_reply(alloc, *keystores, *passwords),
            Refusal::BadProtection(fault) => {
                Reply::of_word(alloc, 400, "protection refused: ", fault_word(fault))
            }
        }
    }
}

/// Refused for a body in this coding.
fn encoded_reply(alloc: Global, value: &[u8]) -> Result<Reply, AllocError>
    ensures { IfOk result (λ r. r ≡ message_reply 400 (codes "encoded body: " ++ utf8_lossy value.now)) }
{
    let value = String::from_utf8_lossy(alloc, value)?;
    Reply::of_word(alloc, 400, "encoded body: ", value.as_str())
}

/// Refused for lists of different lengths.
fn lists_reply(alloc: Global, keystores: usize, passwords: usize) -> Result<Reply, AllocError>
    ensures { IfOk result (λ r. r ≡ message_reply 400 (lists_text keystores passwords)) }
{
    let text = lists_text(alloc, keystores, passwords)?;
    Reply::of_message(alloc, 400, text.as_str())
}

fn lists_text(alloc: Global, keystores: usize, passwords: usize) -> Result<String, AllocError>
    ensures { IfOk result (λ text. string_bytes text ≡ lists_text keystores passwords) }
{
    let text = String::from_str(alloc, "lists differ: ")?;
    let text = with_count(alloc, text, keystores, " keystores, ")?;
    with_count(alloc, text, passwords, " passwords")
}

/// The text with a number after it, and a word after that.
fn with_count(alloc: Global, text: String, number: usize, word: &str) -> Result<String, AllocError>
    ensures { IfOk result (λ next. string_bytes next ≡ string_bytes text ++ decimal number ++ word.now) }
{
    let mut next = text;
    let digits = number.to_string(alloc)?;
    next.push_str(digits.as_str())?;
    next.push_str(word)?;
    Ok(next)
}

/// Why a text is no interchange file, in a word.
fn fault_word(fault: &ReadFault) -> &'static str
    ensures { result.now ≡ fault_word fault.now }
{
    match fault {
        ReadFault::TooLong(_) => "too_long",
        ReadFault::NotUtf8 => "not_utf8",
        ReadFault::Json => "json",
        ReadFault::Missing(_) => "missing",
        ReadFault::Version(_) => "version",
        ReadFault::BadNumber(_) => "bad_number",
        ReadFault::BadHex(_) => "bad_hex",
    }
}

/// Why the checks of a request stopped.
#[derive(Drop)]
pub enum Stop {
    /// Memory ran out.
    Memory,
    /// The request is refused.
    Refused(Refusal),
}

impl From<AllocError> for Stop {
    ghost use Rattle.std.specs.Prelude.{◌≡◌};
    ghost use Rattle.keymanager_routes.specs.declared.refusal.Stop.TheVariants.{Memory};

    ghost from_gives = { λ _ s. s ≡ Memory };

    fn from(_error: AllocError) -> Stop {
        Stop::Memory
    }
}

impl<T: Drop> From<AllocFailed<T>> for Stop {
    ghost use Rattle.std.specs.Prelude.{◌≡◌};
    ghost use Rattle.keymanager_routes.specs.declared.refusal.Stop.TheVariants.{Memory};

    ghost from_gives = { λ _ s. s ≡ Memory };

    fn from(_error: AllocFailed<T>) -> Stop {
        Stop::Memory
    }
}

impl From<Refusal> for Stop {
    ghost use Rattle.std.specs.Prelude.{◌≡◌};
    ghost use Rattle.keymanager_routes.specs.declared.refusal.Stop.TheVariants.{Refused};

    ghost from_gives = { λ refusal s. s ≡ Refused refusal };

    fn from(refusal: Refusal) -> Stop {
        Stop::Refused(refusal)
    }
}
