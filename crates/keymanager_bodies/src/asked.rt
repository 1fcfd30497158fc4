//! What a request asks for.
ghost use Rattle.std.specs.Prelude.{◌≡◌, IfOk, option_map, string_bytes};
ghost use Rattle.serde_json.specs.View.{view};
ghost use Rattle.keymanager_routes.specs.Stops.{Gives};
ghost use Rattle.keymanager_bodies.specs.Asking.{IsListedOnce, ListsOnce, asked_of, body_asks, file_in, import_in, paired_in};

use crate::members::{object_of, optional_text_of, pub_keys_of, texts_of};
use custody_format::Keystores;
use edge_kit::{Items, PubKey};
use http_wire::Request;
use interchange_io::files_list_once;
use keymanager_routes::{Action, Member, Refusal, Stop, read_action};
use serde_json::Value;
use slash_defs::File;
use std::alloc::{AllocError, Global};

/// What a request asks for.
#[derive(Drop)]
pub enum Asked {
    /// The active keys.
    List,
    /// To take keys in, after the interchange file (EIP-3076), if there is one.
    Import {
        file: Option<File>,
        keystores: Keystores,
    },
    /// To give keys up.
    Delete {
        keys: Items<PubKey>,
    },
}

/// What a request asks for, where this token is wanted, or the first check that it fails: those of the head, as
/// `read_action` looks for them, and then those of the body, as `asked_in` does.
///
/// # Errors
///
/// The error outside is want of memory, the one inside the check.
pub fn read_asked(
    alloc: Global,
    request: &Request,
    token: &[u8],
) -> Result<Result<Asked, Refusal>, AllocError>
    ensures asked { IfOk result (λ read. read ≡ asked_of token.now request.now) }

    // The file lists each key once.
    ensures once { IfOk result (λ read. IfOk read ListsOnce) }
{
    match read_action(alloc, request, token) {
        Ok(action) => asked_in(alloc, action, request.body.as_slice()),
        Err(Stop::Refused(refusal)) => Ok(Err(refusal)),
        Err(Stop::Memory) => Err(AllocError),
    }
}

/// What a request for this asks for with its body, or the first check that the body fails: to take keys in or to give
/// them up, that it is a JSON object with each member, in their order; that there is a password for each keystore; and
/// that the text of the interchange file is one.
///
/// # Errors
///
/// The error outside is want of memory, the one inside the check.
pub fn asked_in(
    alloc: Global,
    action: Action,
    body: &[u8],
) -> Result<Result<Asked, Refusal>, AllocError>
    ensures asked { IfOk result (λ read. read ≡ body_asks action body.now) }

    // The file lists each key once.
    ensures once { IfOk result (λ read. IfOk read ListsOnce) }
{
    match read_body(alloc, action, body) {
        Ok(asked) => Ok(Ok(asked)),
        Err(Stop::Refused(refusal)) => Ok(Err(refusal)),
        Err(Stop::Memory) => Err(AllocError),
    }
}

fn read_body(alloc: Global, action: Action, body: &[u8]) -> Result<Asked, Stop>
    ensures asked { Gives result (body_asks action body.now) }
    ensures once { IfOk result ListsOnce }
{
    match action {
        Action::List => Ok(Asked::List),
        Action::Import => read_import(alloc, body),
        Action::Delete => read_delete(alloc, body),
    }
}

fn read_import(alloc: Global, body: &[u8]) -> Result<Asked, Stop>
    ensures asked { Gives result (body_asks Action.Import body.now) }
    ensures once { IfOk result ListsOnce }
{
    let value = object_of(alloc, body)?;
    import_in(alloc, &value)
}

fn import_in(alloc: Global, value: &Value) -> Result<Asked, Stop>
    ensures asked { Gives result (import_in (view value.now)) }
    ensures once { IfOk result ListsOnce }
{
    let keystores = texts_of(alloc, value, Member::Keystores)?;
    let passwords = texts_of(alloc, value, Member::Passwords)?;
    let protection = match optional_text_of(value, Member::SlashingProtection) {
        Ok(protection) => protection,
        Err(member) => return Err(Stop::Refused(Refusal::BadMember(member))),
    };
    let keystores = paired_in(keystores, passwords)?;
    let file = file_in(alloc, protection)?;
    Ok(Asked::Import { file, keystores })
}

/// The keystores, each with its password.
fn paired_in(keystores: Vec<String>, passwords: Vec<String>) -> Result<Keystores, Refusal>
    ensures { result ≡ paired_in (λ s. string_bytes s) keystores.items passwords.items }
{
    let lengths = Refusal::ListsDiffer {
        keystores: keystores.len(),
        passwords: passwords.len(),
    };
    Keystores::new(keystores, passwords).ok_or(lengths)
}

/// The interchange file, if there is a text.
fn file_in(alloc: Global, text: Option<&str>) -> Result<Option<File>, Stop>
    ensures file { Gives result (file_in (option_map (λ t. t.now) text.entry)) }
    ensures once { IfOk result IsListedOnce }
{
    let Some(text) = text else {
        return Ok(None);
    };
    match interchange_io::read(alloc, text.as_bytes())? {
        Ok(file) => {
            files_list_once();
            Ok(Some(file))
        }
        Err(fault) => Err(Stop::Refused(Refusal::BadProtection(fault))),
    }
}

fn read_delete(alloc: Global, body: &[u8]) -> Result<Asked, Stop>
    ensures asked { Gives result (body_asks Action.Delete body.now) }
    ensures once { IfOk result ListsOnce }
{
    let value = object_of(alloc, body)?;
    let keys = pub_keys_of(alloc, &value, Member::Pubkeys)?;
    Ok(Asked::Delete { keys })
}
