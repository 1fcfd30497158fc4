//! The words for what became of keys.
ghost use Rattle.std.specs.Prelude.{◌≡◌};
ghost use Rattle.custody_format.specs.Words as word;

use key_custody::{DeskRefusal, KeyStatus};
use record_replay::KeyState;

/// The word of a status (Keymanager API, the `status` of a keystore).
pub fn status_word(status: &KeyStatus) -> &'static str
    ensures { result.now ≡ word.status_word status.now }
{
    match status {
        KeyStatus::Imported => "imported",
        KeyStatus::Duplicate => "duplicate",
        KeyStatus::Deleted => "deleted",
        KeyStatus::NotActive => "not_active",
        KeyStatus::NotFound => "not_found",
        KeyStatus::Error(_) => "error",
    }
}

/// The word of the desk's reason to refuse.
pub fn reason_word(refusal: &DeskRefusal) -> &'static str
    ensures { result.now ≡ word.reason_word refusal.now }
{
    match refusal {
        DeskRefusal::GenesisDiffers { kept: _, given: _ } => "genesis_differs",
        DeskRefusal::TooManyKeys { have: _, new: _ } => "too_many_keys",
        DeskRefusal::Full { size: _, wanted: _ } => "full",
        DeskRefusal::Disk => "disk",
        DeskRefusal::Closing => "closing",
        DeskRefusal::Unknown => "unknown",
        DeskRefusal::NotClosing(_) => "not_closing",
        DeskRefusal::Busy { grants: _ } => "busy",
    }
}

/// The word of a key's state, as the listing of a journal has it.
pub fn state_word(state: KeyState) -> &'static str
    ensures { result.now ≡ word.state_word state }
{
    match state {
        KeyState::Known => "known",
        KeyState::Active => "active",
        KeyState::Closing => "closing",
        KeyState::Closed => "closed",
    }
}
