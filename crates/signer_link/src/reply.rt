//! What the signing service answers.
use crate::request::{ImportCall, PlainCall, SignCall};
use edge_kit::{Items, PubKey, Sig};

/// The answer to a call for a signature.
#[derive(Drop)]
pub enum SignReply {
    /// The signature.
    Signed(Sig),
    /// The service does not hold the key; with the HTTP status that says so, where there is one.
    NoKey(Option<u16>),
    /// The service refuses to sign, with this HTTP status. Its count of denials rose.
    Denied(u16),
    /// The service failed; its count of faults rose.
    Fault,
    /// The service answered something else; the bytes of the answer's body.
    BadAnswer(Items<u8>),
    /// Memory ran out. The service may have been asked, and nothing is known of its answer.
    OutOfMemory,
}

/// The answer to a call to take a key in.
#[derive(Drop)]
pub enum ImportReply {
    /// The service holds the key from now on.
    Imported,
    /// The service held the key before.
    Duplicate,
    /// The service refuses the key, with this text in UTF-8. Its count of denials rose.
    Refused(Items<u8>),
    /// The service failed; its count of faults rose.
    Fault,
    /// The service answered something else; the bytes of the answer's body.
    BadAnswer(Items<u8>),
    /// Memory ran out. The service may have been asked, and nothing is known of its answer.
    OutOfMemory,
}

/// The answer to a call to give a key up.
#[derive(Drop)]
pub enum DeleteReply {
    /// The service does not hold the key any more.
    Deleted,
    /// The service knows the key, and did not sign with it.
    NotActive,
    /// The service does not know the key.
    NotFound,
    /// The service refuses, with this text in UTF-8. Its count of denials rose.
    Refused(Items<u8>),
    /// The service failed; its count of faults rose.
    Fault,
    /// The service answered something else; the bytes of the answer's body.
    BadAnswer(Items<u8>),
    /// Memory ran out. The service may have been asked, and nothing is known of its answer.
    OutOfMemory,
}

/// A call of the service with its answer.
#[derive(Drop)]
pub enum Told {
    /// For the signature of a message.
    Sign(SignCall, SignReply),
    /// For another signature.
    Plain(PlainCall, SignReply),
    /// To take a key in.
    Import(ImportCall, ImportReply),
    /// To give a key up.
    Delete(PubKey, DeleteReply),
}
