//! Lists that keep to a limit.
ghost use Rattle.std.specs.Prelude.{◌≡◌, ◌↔◌, ◌≤◌, length, IfOk, IfErr, IsOk};

use std::marker::Model;

/// At most `LIMIT` values, in order (SimpleSerialize, `List[T, N]` and `Bitlist[N]`).
#[derive(Drop, Debug)]
pub struct BoundedList<T, const LIMIT: usize> {
    items: Vec<T>,
}

impl<T, const LIMIT: usize> Model for BoundedList<T, LIMIT> {
    ghost use Rattle.std.specs.Prelude.{List, ◌≤◌, length};

    ghost Value = { List T };

    ghost view = { λ a. a.items.items };

    ghost invariant = { λ a. length a.items.items ≤ LIMIT };
}

impl<T, const LIMIT: usize> BoundedList<T, LIMIT> {
    /// The list of these values. They come back where they are more than the limit.
    pub fn try_new(items: Vec<T>) -> Result<Self, Vec<T>>
        ensures ok { IfOk result (λ list. list ≡ items.items) }
        ensures err { IfErr result (λ back. back ≡ items) }
        ensures fits { IsOk result ↔ (length items.items ≤ LIMIT) }
    {
        if items.len() <= LIMIT {
            Ok(BoundedList { items })
        } else {
            Err(items)
        }
    }

    /// Its values.
    pub fn as_slice(&self) -> &[T]
        ensures value { result.now ≡ self.now }
        ensures fits { length self.now ≤ LIMIT }
    {
        self.items.as_slice()
    }

    /// Its values as a vector.
    pub fn into_vec(self) -> Vec<T>
        ensures { result.items ≡ self }
    {
        self.items
    }
}
