//! The checks of a request before its body is looked at.
ghost use Rattle.std.specs.Prelude.{◌≡◌};
ghost use Rattle.http_wire.specs.Parts.{parts_of};
ghost use Rattle.keymanager_routes.specs.Bearers.{bearer_of};
ghost use Rattle.keymanager_routes.specs.Checks.{action_for, let_in, wanted};
ghost use Rattle.keymanager_routes.specs.Stops.{Gives};

use crate::bearer::{bearer_of, is_same_token};
use crate::refusal::{Refusal, Stop};
use crate::route::{Action, action_at, route_of};
use http::Method;
use http_wire::{Field, Request};
use std::alloc::Global;

/// What is to be done for a request, where this token is wanted, or the first check that it fails: that its target
/// before the query has a route; that its method does something with that; that it bears a token; and that it is this
/// one.
pub fn read_action(alloc: Global, request: &Request, token: &[u8]) -> Result<Action, Stop>
    ensures { Gives result (action_for token.now request.now) }
{
    let action = wanted(alloc, &request.method, request.target.as_slice())?;
    let_in(request.fields.as_slice(), token)?;
    Ok(action)
}

/// What the method does with what the target names.
fn wanted(alloc: Global, method: &Method, target: &[u8]) -> Result<Action, Stop>
    ensures { Gives result (wanted method.now target.now) }
{
    let Some(route) = route_of(alloc, target)? else {
        return Err(Stop::Refused(Refusal::NoRoute));
    };
    match action_at(route, method) {
        Some(action) => Ok(action),
        None => Err(Stop::Refused(Refusal::NoMethod)),
    }
}

/// Looks whether a field bears the token.
fn let_in(fields: &[Field], token: &[u8]) -> Result<(), Refusal>
    ensures { result ≡ let_in token.now (bearer_of (parts_of fields.now)) }
{
    let Some(given) = bearer_of(fields) else {
        return Err(Refusal::NoToken);
    };
    if is_same_token(given, token) {
        Ok(())
    } else {
        Err(Refusal::WrongToken)
    }
}
