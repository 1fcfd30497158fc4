//! Building a JSON object, a member at a time.
ghost use Rattle.std.specs.Prelude.{◌≡◌, IfOk, decimal};
ghost use Rattle.edge_kit.specs.Texts.{hex_text};
ghost use Rattle.serde_json.specs.Data.{no_members, object, put, string};
ghost use Rattle.serde_json.specs.View.{view};
ghost use Rattle.json_members.specs.Building.{built};

use serde_json::{Map, Value};
use std::alloc::{AllocError, Global};

/// A JSON object as far as it is built (RFC 8259). Each step takes it by value, so that nothing of it is left where memory
/// runs out, the one error of each step. Of two members of one name the later stands.
#[derive(Drop)]
pub struct Object {
    members: Map<String, Value>,
}

impl Object {
    /// An object without members.
    pub fn new(alloc: Global) -> Object
        ensures { built result ≡ no_members }
    {
        Object {
            members: Map::new(alloc),
        }
    }

    /// The object with this member, at its place in the order of names.
    pub fn with_value(self, alloc: Global, name: &str, value: Value) -> Result<Object, AllocError>
        ensures { IfOk result (λ next. built next ≡ put name.now (view value) (built self)) }
    {
        let Object { mut members } = self;
        serde_json::put(&mut members, alloc, name, value)?;
        Ok(Object { members })
    }

    /// The object with this member, a text.
    pub fn with_text(self, alloc: Global, name: &str, text: &str) -> Result<Object, AllocError>
        ensures { IfOk result (λ next. built next ≡ put name.now (string text.now) (built self)) }
    {
        let text = Value::try_from_str(alloc, text)?;
        self.with_value(alloc, name, text)
    }

    /// The object with this member, a number in quotes.
    pub fn with_number(self, alloc: Global, name: &str, number: u64) -> Result<Object, AllocError>
        ensures { IfOk result (λ next. built next ≡ put name.now (string (decimal number)) (built self)) }
    {
        let digits = number.to_string(alloc)?;
        self.with_value(alloc, name, Value::String(digits))
    }

    /// The object with this member, bytes in hex.
    pub fn with_hex(self, alloc: Global, name: &str, bytes: &[u8]) -> Result<Object, AllocError>
        ensures { IfOk result (λ next. built next ≡ put name.now (string (hex_text bytes.now)) (built self)) }
    {
        let digits = edge_kit::hex_text(alloc, bytes)?;
        self.with_value(alloc, name, Value::String(digits))
    }

    /// The object as a value.
    pub fn value(self) -> Value
        ensures { view result ≡ object (built self) }
    {
        Value::Object(self.members)
    }
}
