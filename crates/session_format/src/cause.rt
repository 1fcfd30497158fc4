//! Why a granted proposal has no signature.
ghost use Rattle.std.specs.Prelude.{◌≡◌, IfOk};
ghost use Rattle.serde_json.specs.Data.{no_members};
ghost use Rattle.serde_json.specs.View.{view};
ghost use Rattle.session_format.specs.Causes.{cause_data, shown_bytes, unsigned_for};

use edge_kit::Items;
use json_members::Object;
use serde_json::Value;
use std::alloc::{AllocError, Global};

/// How many bytes of a body that is no answer are shown.
const SHOWN_BYTES: usize = 256;

/// Why a granted proposal has no signature.
#[derive(Drop)]
pub enum Cause {
    /// The signer does not hold the key.
    NoKey,
    /// The signer refused, with this HTTP status.
    Denied { status: u16 },
    /// The signer failed.
    Fault,
    /// The signer answered with something else; the bytes of the answer's body.
    BadAnswer { body: Items<u8> },
}

impl Cause {
    /// The answer of a proposal without a signature.
    pub(crate) fn value(&self, alloc: Global) -> Result<Value, AllocError>
        ensures { IfOk result (λ v. view v ≡ cause_data self.now) }
    {
        match self {
            Cause::NoKey => unsigned(alloc, "no_key"),
            Cause::Denied { status } => denied(alloc, *status),
            Cause::Fault => unsigned(alloc, "fault"),
            Cause::BadAnswer { body } => bad_answer(alloc, body.as_slice()),
        }
    }
}

/// Unsigned for this cause, with nothing more to say.
fn unsigned(alloc: Global, cause: &str) -> Result<Value, AllocError>
    ensures { IfOk result (λ v. view v ≡ unsigned_for cause.now no_members) }
{
    let object = Object::new(alloc)
        .with_text(alloc, "answer", "unsigned")?
        .with_text(alloc, "cause", cause)?;
    Ok(object.value())
}

/// The signer refused.
fn denied(alloc: Global, status: u16) -> Result<Value, AllocError>
    ensures { IfOk result (λ v. view v ≡ cause_data (Cause.Denied status)) }
{
    let status = Value::String(status.to_string(alloc)?);
    let object = Object::new(alloc)
        .with_value(alloc, "status", status)?
        .with_text(alloc, "answer", "unsigned")?
        .with_text(alloc, "cause", "denied")?;
    Ok(object.value())
}

/// The signer answered with something else.
fn bad_answer(alloc: Global, body: &[u8]) -> Result<Value, AllocError>
    ensures { IfOk result (λ v. view v ≡ cause_data (Cause.BadAnswer body.now)) }
{
    let digits = Value::String(hex::encode(alloc, front(body))?);
    let object = Object::new(alloc)
        .with_value(alloc, "body", digits)?
        .with_text(alloc, "answer", "unsigned")?
        .with_text(alloc, "cause", "bad_answer")?;
    Ok(object.value())
}

/// The bytes of a body that are shown.
fn front(body: &[u8]) -> &[u8]
    ensures { result.now ≡ shown_bytes body.now }
{
    &body[..SHOWN_BYTES.min(body.len())]
}
