//! Aggregates that are to be signed.
ghost use Rattle.std.specs.Prelude.{◌≡◌, None};
ghost use Rattle.serde_json.specs.View.{view};
ghost use Rattle.duty_types.specs.Containers.{aggregate_and_proof, electra_aggregate_and_proof};
ghost use Rattle.phase0_types.specs.Reading.{read_at};
ghost use Rattle.phase0_types.specs.declared.member.Member.TheVariants.{Details};
ghost use Rattle.signing_requests.specs.Members.{inside};
ghost use Rattle.signing_requests.specs.Objects.{aggregate_is, electra_aggregate_is, said, versioned_aggregate_is};
ghost use Rattle.signing_requests.specs.Requests.{aggregate_at, aggregate_of, shaped, versioned_aggregate_at, versioned_aggregate_in};
ghost use Rattle.signing_requests.specs.Steps.{GivesAs};

use crate::member::{SigningMember, member_of};
use crate::refusal::{SigningRefusal, SigningStop};
use crate::request::SigningObject;
use crate::texts::object_of;
use duty_types::{AggregateAndProof, ElectraAggregateAndProof};
use json_members::text_in;
use phase0_types::{ReadFault, Shaped};
use serde_json::Value;
use signer_link::{Aggregate, BlockVersion, PlainObject};
use std::alloc::Global;

/// An aggregate of the forks up to Deneb.
pub(crate) fn aggregate_in(alloc: Global, value: &Value) -> Result<SigningObject, SigningStop>
    ensures { GivesAs said result (aggregate_at (view value.now)) }
{
    match value.get("aggregate_and_proof") {
        Some(json) => read_aggregate(alloc, json),
        None => Err(SigningStop::Refused(SigningRefusal::BadMember(
            SigningMember::AggregateAndProof,
        ))),
    }
}

fn read_aggregate(alloc: Global, json: &Value) -> Result<SigningObject, SigningStop>
    ensures { GivesAs said result (shaped SigningMember.AggregateAndProof aggregate_is (read_at aggregate_and_proof None (view json.now))) }
{
    match AggregateAndProof::read_value(alloc, json)? {
        Ok(given) => Ok(SigningObject::Plain(PlainObject::Aggregate(Aggregate::Unnamed(given)))),
        Err(fault) => Err(unread(SigningMember::AggregateAndProof, fault)),
    }
}

/// What cannot be read of a container.
fn unread(whole: SigningMember, fault: ReadFault) -> SigningStop
    ensures { result ≡ SigningStop.Refused (SigningRefusal.BadMember (inside whole fault)) }
{
    SigningStop::Refused(SigningRefusal::BadMember(member_of(whole, fault)))
}

/// An aggregate of the fork that it names.
pub(crate) fn versioned_aggregate_in(
    alloc: Global,
    value: &Value,
) -> Result<SigningObject, SigningStop>
    ensures { GivesAs said result (versioned_aggregate_at (view value.now)) }
{
    let given = object_of(
        SigningMember::AggregateAndProof,
        value.get("aggregate_and_proof"),
    )?;
    read_versioned(alloc, given)
}

fn read_versioned(alloc: Global, given: &Value) -> Result<SigningObject, SigningStop>
    ensures { GivesAs said result (versioned_aggregate_in (view given.now)) }
{
    let Some(version) = text_in(given, "version").and_then(|name| BlockVersion::named(name)) else {
        return Err(SigningStop::Refused(SigningRefusal::BadMember(SigningMember::Version)));
    };
    match given.get("data") {
        Some(json) if version.is_from_electra() => read_electra(alloc, version, json),
        Some(json) => read_named(alloc, version, json),
        None => Err(SigningStop::Refused(SigningRefusal::BadMember(SigningMember::Inside(
            phase0_types::Member::Details,
        )))),
    }
}

fn read_named(
    alloc: Global,
    version: BlockVersion,
    json: &Value,
) -> Result<SigningObject, SigningStop>
    ensures { GivesAs said result (shaped (SigningMember.Inside Details) (versioned_aggregate_is version) (read_at aggregate_and_proof None (view json.now))) }
{
    match AggregateAndProof::read_value(alloc, json)? {
        Ok(aggregate) => {
            let given = Aggregate::UpToDeneb { version, aggregate };
            Ok(SigningObject::Plain(PlainObject::Aggregate(given)))
        }
        Err(fault) => Err(unread(SigningMember::Inside(phase0_types::Member::Details), fault)),
    }
}

fn read_electra(
    alloc: Global,
    version: BlockVersion,
    json: &Value,
) -> Result<SigningObject, SigningStop>
    ensures { GivesAs said result (shaped (SigningMember.Inside Details) (electra_aggregate_is version) (read_at electra_aggregate_and_proof None (view json.now))) }
{
    match ElectraAggregateAndProof::read_value(alloc, json)? {
        Ok(aggregate) => {
            let given = Aggregate::FromElectra { version, aggregate };
            Ok(SigningObject::Plain(PlainObject::Aggregate(given)))
        }
        Err(fault) => Err(unread(SigningMember::Inside(phase0_types::Member::Details), fault)),
    }
}
