//! The states of keys, changed and restored.
ghost use Rattle.std.specs.Prelude.{◌≡◌, ◌<◌, Some, None, IsSome, OnOk, OnErr, IfOk, length, List};
ghost use Rattle.edge_kit.specs.declared.bytes.PubKey.{PubKey};
ghost use Rattle.std.specs.BTreeMap.{IsOrdered};
ghost use Rattle.protect_record.specs.Pasts.{Past};
ghost use Rattle.record_join.specs.BooksPasts.{BooksStand};
ghost use Rattle.record_join.specs.Keys.{key_cmp, kept_of, with_key, with_kept};
ghost use Rattle.record_join.specs.Preparing.{AreTaken};
ghost use Rattle.record_replay.specs.Replaying.{with_known};
ghost use Rattle.record_replay.specs.declared.state.KeyState.{KeyState};
ghost use Rattle.desk_machine.specs.States.{key_state};
ghost use Rattle.check_sign.specs.Marking.{IsMarked};

use edge_kit::PubKey;
use record_join::{Books, Fresh};
use record_replay::KeyState;
use std::alloc::AllocError;
use std::collections::BTreeMap;

/// The state of a key that is kept.
pub fn state_of(states: &BTreeMap<PubKey, KeyState>, key: &PubKey) -> KeyState
    ensures value { result ≡ key_state states.now.entries key.now }
{
    match states.get(key) {
        Some(state) => *state,
        None => KeyState::Known,
    }
}

/// Makes a key active, and gives what it was, if it was noted.
pub fn mark_active(
    states: &mut BTreeMap<PubKey, KeyState>,
    key: PubKey,
) -> Result<Option<KeyState>, AllocError>
    ensures marked { IfOk result (λ before. IsMarked states.old.entries key before states.new.entries) }
    ensures err { OnErr result (states.new.entries ≡ states.old.entries) }
{
    match states.insert(key, KeyState::Active) {
        Ok(before) => Ok(before),
        Err(_) => Err(AllocError),
    }
}

/// Keeps a key, with an empty record where it is a new one, and makes it active. Gives what undoes both. Where memory was
/// wanted, both are as before.
pub fn mark_kept(
    books: &mut Books,
    states: &mut BTreeMap<PubKey, KeyState>,
    key: PubKey,
) -> Result<(Fresh, Option<KeyState>), AllocError>
    ensures fresh { IfOk result (λ undo. AreTaken books.old undo.0 books.new) }
    ensures known { OnOk result ((pasts : List (PubKey × Past)) → BooksStand books.old pasts → BooksStand books.new (with_known pasts key)) }
    ensures marked { IfOk result (λ undo. IsMarked states.old.entries key undo.1 states.new.entries) }
    ensures kept { OnErr result ((pasts : List (PubKey × Past)) → BooksStand books.old pasts → BooksStand books.new pasts) }
    ensures unmarked { OnErr result (states.new.entries ≡ states.old.entries) }
{
    let Ok(fresh) = books.prepare_key(key) else {
        return Err(AllocError);
    };
    match mark_active(states, key) {
        Ok(before) => Ok((fresh, before)),
        Err(AllocError) => {
            books.take_back(fresh);
            Err(AllocError)
        }
    }
}

/// Makes a key again what it was before it was made active.
pub fn unmark(states: &mut BTreeMap<PubKey, KeyState>, key: &PubKey, before: Option<KeyState>)
    ensures same { (old : List (PubKey × KeyState)) → IsMarked old key.now before states.old.entries → states.new.entries ≡ old }
{
    match before {
        Some(state) => set_state(states, key, state),
        None => {
            states.remove(key);
        }
    }
}

/// Sets the state of a key that is noted. Takes no memory.
pub fn set_state(states: &mut BTreeMap<PubKey, KeyState>, key: &PubKey, state: KeyState)
    ensures set { IsSome (kept_of states.old.entries key.now) → states.new.entries ≡ with_kept states.old.entries key.now state }
    ensures none { kept_of states.old.entries key.now ≡ None → states.new.entries ≡ states.old.entries }
{
    if let Some(kept) = states.get_mut(key) {
        *kept = state;
    }
}
