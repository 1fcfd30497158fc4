//! Keystores with their passwords.
ghost use Rattle.std.specs.Prelude.{◌≡◌, length, string_bytes};
ghost use Rattle.key_custody.specs.Plans.{paired};
ghost use Rattle.custody_format.specs.Keystores.{keystores_of};

use std::marker::Model;

/// Keystores (EIP-2335) with their passwords, in order. Contracts see each keystore's text with its password.
#[derive(Drop)]
pub struct Keystores {
    keystores: Vec<String>,
    passwords: Vec<String>,
}

impl Model for Keystores {
    ghost use Rattle.std.specs.Prelude.{◌≡◌, ℕ, List, length, string_bytes};
    ghost use Rattle.key_custody.specs.Plans.{paired};

    ghost Value = { List (List ℕ × List ℕ) };

    ghost view = { λ k. paired (λ s. string_bytes s) k.keystores.items k.passwords.items };

    ghost invariant = { λ k. length k.passwords.items ≡ length k.keystores.items };
}

impl Keystores {
    /// Each keystore with the password at its place. None exactly where there are more of the ones than of the
    /// others.
    pub fn new(keystores: Vec<String>, passwords: Vec<String>) -> Option<Keystores>
        ensures { result ≡ keystores_of (λ s. string_bytes s) keystores.items passwords.items }
    {
        if keystores.len() != passwords.len() {
            return None;
        }
        Some(Keystores {
            keystores,
            passwords,
        })
    }

    /// The texts of the keystores, and the passwords at the same places.
    pub fn texts(&self) -> (&[String], &[String])
        ensures lengths { length result.1.now ≡ length result.0.now }
        ensures pairs { paired (λ s. string_bytes s) result.0.now result.1.now ≡ self.now }
    {
        (self.keystores.as_slice(), self.passwords.as_slice())
    }
}
