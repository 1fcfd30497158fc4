//! Leave to sign.
ghost use Rattle.std.specs.Prelude.{◌≡◌, option_copied};
ghost use Rattle.std.specs.declared.option.Option.{Option};
ghost use Rattle.edge_kit.specs.declared.bytes.PubKey.{PubKey};
ghost use Rattle.slash_defs.specs.declared.message.Message.{Message};

use crate::message::Message;
use edge_kit::PubKey;

/// What allows one thing to be signed by one key. A signature is asked for only by a value of such a type.
pub trait Granted {
    ghost granted_key: { Self → PubKey };

    ghost granted_message: { Self → Option Message };

    /// The key that may sign. Takes no memory.
    fn key(&self) -> &PubKey
        ensures { result.now ≡ granted_key self.now };

    /// The block or vote that may be signed; none where something else is to be signed. Takes no memory.
    fn what(&self) -> Option<&Message>
        ensures { option_copied result ≡ granted_message self.now };
}
