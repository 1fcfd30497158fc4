//! What every value of a shape does.
ghost use Rattle.std.specs.Prelude.{◌≡◌, Ok, None, true, length, IfOk, OnOk};
ghost use Rattle.json_members.specs.Building.{built};
ghost use Rattle.serde_json.specs.Data.{put};
ghost use Rattle.serde_json.specs.View.{view};
ghost use Rattle.ssz_roots.specs.Trees.{merkle_root, root_chunks};
ghost use Rattle.phase0_types.specs.Shapes.{Shape};
ghost use Rattle.phase0_types.specs.Values.{ValueOf};
ghost use Rattle.phase0_types.specs.Roots.{root_of};
ghost use Rattle.phase0_types.specs.Faults.{read_as};
ghost use Rattle.phase0_types.specs.Reading.{read_at, member_at};
ghost use Rattle.phase0_types.specs.Fitting.{Fits};
ghost use Rattle.phase0_types.specs.Members.{member_name};
ghost use Rattle.phase0_types.specs.Names.{has_names};
ghost use Rattle.phase0_types.specs.Writing.{write};

use crate::fault::ReadFault;
use crate::member::Member;
use edge_kit::Root;
use json_members::Object;
use serde_json::Value;
use ssz_roots::chunks_root;
use std::alloc::{AllocError, Global};

/// What reading answers: want of memory outside, and the refusal of the JSON inside.
pub type ReadResult<T> = Result<Result<T, ReadFault>, AllocError>;

/// A value of a shape of SimpleSerialize.
pub trait Shaped: Sized + Drop {
    ghost shape: { Shape };

    ghost value: { Self → ValueOf shape };

    /// Its hash tree root. Takes no memory.
    fn root(&self) -> Root
        ensures { result.0 ≡ root_of shape (value self.now) };

    /// The value that JSON writes, at a member or as a document of its own.
    fn read_at(alloc: Global, place: Option<Member>, json: &Value) -> ReadResult<Self>
        ensures { IfOk result (λ read. read_as value read ≡ read_at shape place (view json.now)) };

    /// The JSON that writes it.
    fn to_json(&self, alloc: Global) -> Result<Value, AllocError>
        ensures written { IfOk result (λ json. view json ≡ write shape (value self.now)) }
        ensures fits { OnOk result (Fits shape (value self.now)) };

    ghost names: { has_names shape ≡ true };

    /// The value that a JSON document writes, or its first fault in the order of the fields
    /// (Beacon API: numbers as decimal texts, bytes as `0x` hex, lists as arrays).
    final fn read_value(alloc: Global, json: &Value) -> ReadResult<Self>
        ensures { IfOk result (λ read. read_as value read ≡ read_at shape None (view json.now)) }
    {
        Self::read_at(alloc, None, json)
    }

    /// The JSON that writes it. It is read as the same value.
    final fn to_value(&self, alloc: Global) -> Result<Value, AllocError>
        ensures written { IfOk result (λ json. view json ≡ write shape (value self.now)) }
        ensures reads_back { IfOk result
            (λ json. read_at shape None (view json) ≡ Ok (value self.now)) }
    {
        self.to_json(alloc)
    }
}

/// A container: what a list of composite values is of.
pub trait Container: Shaped {}

/// The value of a member.
pub fn read_member<T: Shaped>(alloc: Global, member: Member, json: &Value) -> ReadResult<T>
    ensures { IfOk result
        (λ read. read_as T.value read ≡ member_at (read_at T.shape) member (view json.now)) }
{
    match json.get(member.name()) {
        Some(inner) => T::read_at(alloc, Some(member), inner),
        None => Ok(Err(ReadFault::Missing(member))),
    }
}

/// The object with this member, the JSON of a field. A container's fields are put in from its last to its first, the order
/// in which its spec has them.
pub fn with_member<T: Shaped>(
    object: Object,
    alloc: Global,
    member: Member,
    field: &T,
) -> Result<Object, AllocError>
    ensures written { IfOk result (λ next. built next
        ≡ put (member_name member) (write T.shape (T.value field.now)) (built object)) }
    ensures fits { OnOk result (Fits T.shape (T.value field.now)) }
{
    let json = field.to_json(alloc)?;
    object.with_value(alloc, member.name(), json)
}

/// The root of a container, from those of its fields.
pub fn container_root(fields: &[Root]) -> Root
    ensures { result.0 ≡ merkle_root (length fields.now) (root_chunks fields.now) }
{
    chunks_root(&fields, fields.len() as u64)
}

/// The value of a member, or an early return of its fault.
#[macro_export]
macro_rules! read_field {
    ($alloc:expr, $member:expr, $json:expr) => {
        match $crate::read_member($alloc, $member, $json)? {
            Ok(field) => field,
            Err(fault) => return Ok(Err(fault)),
        }
    };
}

/// An early return where the value is no object.
#[macro_export]
macro_rules! object_at {
    ($place:expr, $json:expr) => {
        if !$json.is_object() {
            return Ok(Err($crate::missing($place)));
        }
    };
}
