//! Numbers and byte arrays as values of their shapes.
ghost use Rattle.std.specs.Prelude.{◌≡◌, IfOk, option_map, string_bytes};
ghost use Rattle.serde_json.specs.View.{view};
ghost use Rattle.phase0_types.specs.Shapes.{byte_vector, uint64};
ghost use Rattle.phase0_types.specs.Names.{bytes_names, uint64_names};
ghost use Rattle.phase0_types.specs.Faults.{read_as};
ghost use Rattle.phase0_types.specs.Roots.{root_of};
ghost use Rattle.phase0_types.specs.Reading.{text_at, number_at, bytes_at};

use crate::fault::{ReadFault, bad_hex, bad_number, missing};
use crate::member::Member;
use crate::shaped::{ReadResult, Shaped};
use edge_kit::{PubKey, Root, Sig, hex_text, read_hex, read_quoted};
use serde_json::Value;
use ssz_roots::{bytes_root, number_root};
use std::alloc::{AllocError, Global};

#[tactic(auto, unfolding(crate::specs::Roots::root_of, crate::specs::Reading::read_at, crate::specs::Writing::write, crate::specs::Fitting::Fits))]
impl Shaped for u64 {
    ghost shape = { uint64 };

    ghost value = { λ n. n };

    fn root(&self) -> Root {
        number_root(*self)
    }

    fn read_at(alloc: Global, place: Option<Member>, json: &Value) -> ReadResult<Self> {
        Ok(read_number(place, json))
    }

    fn to_json(&self, alloc: Global) -> Result<Value, AllocError> {
        let number = *self;
        Ok(Value::String(number.to_string(alloc)?))
    }

    ghost names = { uint64_names };
}

#[tactic(auto, unfolding(crate::specs::Roots::root_of, crate::specs::Reading::read_at, crate::specs::Writing::write, crate::specs::Fitting::Fits))]
impl<const N: usize> Shaped for [u8; N] {
    ghost shape = { byte_vector N };

    ghost value = { λ bytes. bytes };

    fn root(&self) -> Root {
        bytes_root(self.as_slice())
    }

    fn read_at(alloc: Global, place: Option<Member>, json: &Value) -> ReadResult<Self> {
        Ok(read_bytes::<N>(place, json))
    }

    fn to_json(&self, alloc: Global) -> Result<Value, AllocError> {
        Ok(Value::String(hex_text(alloc, self.as_slice())?))
    }

    ghost names = { bytes_names N };
}

#[tactic(auto, unfolding(crate::specs::Roots::root_of, crate::specs::Reading::read_at, crate::specs::Writing::write, crate::specs::Fitting::Fits))]
impl Shaped for Root {
    ghost shape = { byte_vector 32 };

    ghost value = { λ it. it.0 };

    fn root(&self) -> Root {
        chunk_root(&self.0)
    }

    fn read_at(alloc: Global, place: Option<Member>, json: &Value) -> ReadResult<Self> {
        Ok(read_bytes::<32>(place, json).map(Root))
    }

    fn to_json(&self, alloc: Global) -> Result<Value, AllocError> {
        self.0.to_json(alloc)
    }

    ghost names = { bytes_names 32 };
}

#[tactic(auto, unfolding(crate::specs::Roots::root_of, crate::specs::Reading::read_at, crate::specs::Writing::write, crate::specs::Fitting::Fits))]
impl Shaped for PubKey {
    ghost shape = { byte_vector 48 };

    ghost value = { λ it. it.0 };

    fn root(&self) -> Root {
        self.0.root()
    }

    fn read_at(alloc: Global, place: Option<Member>, json: &Value) -> ReadResult<Self> {
        Ok(read_bytes::<48>(place, json).map(PubKey))
    }

    fn to_json(&self, alloc: Global) -> Result<Value, AllocError> {
        self.0.to_json(alloc)
    }

    ghost names = { bytes_names 48 };
}

#[tactic(auto, unfolding(crate::specs::Roots::root_of, crate::specs::Reading::read_at, crate::specs::Writing::write, crate::specs::Fitting::Fits))]
impl Shaped for Sig {
    ghost shape = { byte_vector 96 };

    ghost value = { λ it. it.0 };

    fn root(&self) -> Root {
        self.0.root()
    }

    fn read_at(alloc: Global, place: Option<Member>, json: &Value) -> ReadResult<Self> {
        Ok(read_bytes::<96>(place, json).map(Sig))
    }

    fn to_json(&self, alloc: Global) -> Result<Value, AllocError> {
        self.0.to_json(alloc)
    }

    ghost names = { bytes_names 96 };
}

/// The root of 32 bytes: they are a chunk, which is its own root.
fn chunk_root(chunk: &[u8; 32]) -> Root
    ensures { result.0 ≡ root_of (byte_vector 32) chunk.now }
{
    Root(*chunk)
}

/// The text that stands at a place.
pub fn read_text(place: Option<Member>, json: &Value) -> Result<&str, ReadFault>
    ensures { read_as (λ text. text.now) result ≡ text_at place (view json.now) }
{
    match json.as_str() {
        Some(text) => Ok(text),
        None => Err(missing(place)),
    }
}

/// The number of the text that stands at a place.
pub fn read_number(place: Option<Member>, json: &Value) -> Result<u64, ReadFault>
    ensures { result ≡ number_at place (view json.now) }
{
    let text = read_text(place, json)?;
    match read_quoted(text) {
        Some(number) => Ok(number),
        None => Err(bad_number(place)),
    }
}

/// The bytes of the text that stands at a place.
fn read_bytes<const N: usize>(place: Option<Member>, json: &Value) -> Result<[u8; N], ReadFault>
    ensures { result ≡ bytes_at N place (view json.now) }
{
    let text = read_text(place, json)?;
    match read_hex::<N>(text) {
        Some(bytes) => Ok(bytes),
        None => Err(bad_hex(place)),
    }
}
