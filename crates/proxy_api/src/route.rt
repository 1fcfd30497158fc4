//! What a request asks of the proxy, by its head.
ghost use Rattle.std.specs.Prelude.{◌≡◌, ℕ, List, option_map};
ghost use Rattle.http_wire.specs.declared.message.Request.{Request};
ghost use Rattle.keymanager_routes.specs.Stops.{Gives};
ghost use Rattle.proxy_api.specs.Routes.{by_method, by_open, identifier_in, identifier_of, part_in, wanted_for};

use http_wire::Request;
use keymanager_routes::{Action, Refusal, Stop, path_of, read_action};
use std::alloc::Global;

/// The path of a call for a signature, before the name of its key.
const SIGN_PATH: &str = "/api/v1/eth2/sign/";

/// What a request wants of the proxy.
#[derive(Clone, Copy, PartialEq, Eq, Debug)]
pub enum Wanted {
    /// Something of the keys (Keymanager API).
    Keys(Action),
    /// A signature by the key that its target names (Web3Signer API, `eth2/sign`).
    Signature,
    /// The active keys (Web3Signer API, `eth2/publicKeys`).
    PublicKeys,
    /// Whether the proxy serves (Web3Signer API, `upcheck`).
    Upcheck,
}

/// What is wanted by a request, or the first check that it fails: a call for a signature is a `POST`, and one for the active keys or
/// for whether the proxy serves a `GET`, and none of them needs a token; the checks of any other are those of
/// `keymanager_routes::read_action`, with this token.
pub(crate) fn read_wanted(alloc: Global, request: &Request, token: &[u8]) -> Result<Wanted, Stop>
    ensures { Gives result (wanted_for token.now request.now) }
{
    match open_to_all(request.target.as_slice()) {
        Some((method, wanted)) => by_method(request, method, wanted),
        None => Ok(Wanted::Keys(read_action(alloc, request, token)?)),
    }
}

/// What a target names that needs no token, with its method.
fn open_to_all(target: &[u8]) -> Option<(&'static str, Wanted)>
    ensures { (token : List ℕ) (r : Request) → r.target.items ≡ target.now → wanted_for token r ≡ by_open token r (option_map (λ o. (o.0.now, o.1)) result) }
{
    let path = path_of(target);
    if path == b"/upcheck".as_slice() {
        return Some(("GET", Wanted::Upcheck));
    }
    if path == b"/api/v1/eth2/publicKeys".as_slice() {
        return Some(("GET", Wanted::PublicKeys));
    }
    match identifier_in(path) {
        Some(_) => Some(("POST", Wanted::Signature)),
        None => None,
    }
}

/// What a request wants whose target names it, where it has this method.
fn by_method(request: &Request, method: &str, wanted: Wanted) -> Result<Wanted, Stop>
    ensures { Gives result (by_method method.now wanted request.now) }
{
    if request.method.as_str() == method {
        Ok(wanted)
    } else {
        Err(Stop::Refused(Refusal::NoMethod))
    }
}

/// What names the key in the target of a call for a signature; none of another target.
pub(crate) fn identifier_of(target: &[u8]) -> Option<&str>
    ensures { option_map (λ part. part.now) result ≡ identifier_of target.now }
{
    identifier_in(path_of(target))
}

/// What names the key in the path of a call for a signature; none of another path.
fn identifier_in(path: &[u8]) -> Option<&str>
    ensures { option_map (λ part. part.now) result ≡ identifier_in path.now }
{
    if !path.starts_with(SIGN_PATH.as_bytes()) {
        return None;
    }
    part_in(&path[SIGN_PATH.len()..])
}

/// One part of a path, which is not empty and has no `/`.
fn part_in(bytes: &[u8]) -> Option<&str>
    ensures { option_map (λ part. part.now) result ≡ part_in bytes.now }
{
    if bytes.is_empty() || bytes.contains(&b'/') {
        return None;
    }
    match std::str::from_utf8(bytes) {
        Ok(part) => Some(part),
        Err(_) => None,
    }
}
