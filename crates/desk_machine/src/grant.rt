//! Leave to sign one thing.
ghost use Rattle.std.specs.Prelude.{◌≡◌};

use crate::open_grant::OpenGrant;
use edge_kit::PubKey;
use slash_defs::{Granted, Message};
use std::marker::Model;

/// The desk's leave to have one thing signed and sent. It can't be copied or dropped: it has to be spent by the
/// desk's call `Settle`. Only a list of open grants gives one, and it notes it as open.
pub struct Grant {
    number: u64,
    key: PubKey,
    message: Option<Message>,
}

impl Model for Grant {
    ghost use Rattle.desk_machine.specs.declared.open_grant.OpenGrant.{OpenGrant};

    ghost Value = { OpenGrant };

    ghost view = { λ g. record { number = g.number; key = g.key; message = g.message } };
}

impl Granted for Grant {
    ghost granted_key = { λ g. g.key };

    ghost granted_message = { λ g. g.message };

    fn key(&self) -> &PubKey {
        &self.key
    }

    fn what(&self) -> Option<&Message> {
        self.message.as_ref()
    }
}

impl Grant {
    /// The grant's number, counted from the desk's opening. No two grants of a desk have the same.
    pub fn number(&self) -> u64
        ensures { result ≡ self.now.number }
    {
        self.number
    }

    /// The grant of what is noted as open.
    pub(crate) fn of(given: &OpenGrant) -> Grant
        ensures { result ≡ given.now }
    {
        Grant {
            number: given.number,
            key: given.key,
            message: given.message,
        }
    }

    /// Spends the grant, and gives its number.
    pub(crate) fn spend(self) -> u64
        ensures { result ≡ self.number }
    {
        let Grant {
            number,
            key: _,
            message: _,
        } = self;
        number
    }
}
