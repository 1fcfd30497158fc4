//! The answer where the desk refused what custody of keys asked of it.
use crate::answer::Answer;
use key_custody::DeskRefusal;

impl From<DeskRefusal> for Answer {
    ghost use Rattle.std.specs.Prelude.{◌≡◌};
    ghost use Rattle.session_format.specs.Answers.{refusal_answer};

    ghost from_gives = { λ refusal a. a ≡ refusal_answer refusal };

    /// The answer where the desk refused what custody of keys asked of it.
    fn from(refusal: DeskRefusal) -> Answer {
        match refusal {
            DeskRefusal::GenesisDiffers { kept, given } => Answer::GenesisDiffers { kept, given },
            DeskRefusal::TooManyKeys { have, new } => Answer::TooManyKeys { have, new },
            DeskRefusal::Full { size, wanted } => Answer::Full { size, wanted },
            DeskRefusal::Disk => Answer::Disk,
            DeskRefusal::Closing => Answer::Closing,
            DeskRefusal::Unknown => Answer::Unknown,
            DeskRefusal::NotClosing(state) => Answer::NotClosing { state },
            DeskRefusal::Busy { grants } => Answer::Busy { grants },
        }
    }
}
