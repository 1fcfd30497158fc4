//! What an import is given, read from JSON.
ghost use Rattle.std.specs.Prelude.{◌≡◌, IfOk, codes};
ghost use Rattle.serde_json.specs.Find.{as_str, get};
ghost use Rattle.serde_json.specs.View.{view};
ghost use Rattle.custody_format.specs.Imports.{import_in, import_by, import_with};

use crate::keystores::Keystores;
use crate::lists::texts_in;
use interchange_io::ReadFault;
use serde_json::Value;
use slash_defs::File;
use std::alloc::{AllocError, Global};

/// What an import is given.
#[derive(Drop)]
pub struct Import {
    /// The interchange file (EIP-3076), where there is one.
    pub file: Option<File>,
    /// The keystores with their passwords.
    pub keystores: Keystores,
}

/// Why an object gives no import.
#[derive(Drop)]
pub enum ImportFault {
    /// The member `keystores` is no list of texts.
    Keystores,
    /// The member `passwords` is no list of texts, or has another length than `keystores`.
    Passwords,
    /// The member `slashing_protection` is there, and no text.
    SlashingProtection,
    /// The text of `slashing_protection` is no interchange file.
    File(ReadFault),
}

/// What an import is given: the keystores of the list `keystores`, each with its password of the list `passwords`, and
/// the file whose text `slashing_protection` is, where that member is there. Else the first fault, in this order.
///
/// # Errors
///
/// `AllocError` where memory was wanted.
pub fn read_import(alloc: Global, value: &Value) -> Result<Result<Import, ImportFault>, AllocError>
    ensures { IfOk result (λ read. read ≡ import_in (view value.now)) }
{
    let Some(keystores) = texts_in(alloc, value, "keystores")? else {
        return Ok(Err(ImportFault::Keystores));
    };
    let Some(passwords) = texts_in(alloc, value, "passwords")? else {
        return Ok(Err(ImportFault::Passwords));
    };
    let Some(keystores) = Keystores::new(keystores, passwords) else {
        return Ok(Err(ImportFault::Passwords));
    };
    read_file(alloc, keystores, value)
}

fn read_file(
    alloc: Global,
    keystores: Keystores,
    value: &Value,
) -> Result<Result<Import, ImportFault>, AllocError>
    ensures { IfOk result (λ read. read ≡ import_by keystores (get (codes "slashing_protection") (view value.now))) }
{
    match value.get("slashing_protection") {
        Some(protection) => read_text(alloc, keystores, protection),
        None => Ok(Ok(Import {
            file: None,
            keystores,
        })),
    }
}

fn read_text(
    alloc: Global,
    keystores: Keystores,
    protection: &Value,
) -> Result<Result<Import, ImportFault>, AllocError>
    ensures { IfOk result (λ read. read ≡ import_with keystores (as_str (view protection.now))) }
{
    let Some(text) = protection.as_str() else {
        return Ok(Err(ImportFault::SlashingProtection));
    };
    match interchange_io::read(alloc, text.as_bytes())? {
        Ok(file) => Ok(Ok(Import {
            file: Some(file),
            keystores,
        })),
        Err(fault) => Ok(Err(ImportFault::File(fault))),
    }
}
