//! The members of a request's body.
ghost use Rattle.std.specs.Prelude.{◌≡◌};
ghost use Rattle.keymanager_routes.specs.Members.{member_name};

/// A member of a request's body (Keymanager API), or the body itself.
#[derive(Clone, Copy, PartialEq, Eq, Debug)]
pub enum Member {
    /// The body, which is a JSON object.
    Body,
    /// The list of keystores (EIP-2335), each a text of JSON.
    Keystores,
    /// The list of their passwords, in the same order.
    Passwords,
    /// The text of an interchange file (EIP-3076), or null. It may be absent.
    SlashingProtection,
    /// The list of public keys, each `0x` and 96 hex digits.
    Pubkeys,
}

impl Member {
    /// The name in the body, and `body` for the whole. Takes no memory.
    pub fn name(self) -> &'static str
        ensures { result.now ≡ member_name self }
    {
        match self {
            Member::Body => "body",
            Member::Keystores => "keystores",
            Member::Passwords => "passwords",
            Member::SlashingProtection => "slashing_protection",
            Member::Pubkeys => "pubkeys",
        }
    }
}
