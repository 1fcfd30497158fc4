//! The targets and the methods of requests.
ghost use Rattle.std.specs.Prelude.{◌≡◌, ◌==◌, ℕ, List, position, IfOk, option_map};
ghost use Rattle.matchit.specs.Seek.{first};
ghost use Rattle.keymanager_routes.specs.Routes.{action_at, path_of, route_at, route_of};

use http::Method;
use matchit::Router;
use std::alloc::{AllocError, Global};

/// What a target names.
#[derive(Clone, Copy, PartialEq, Eq, Debug)]
pub(crate) enum Route {
    /// The keys of the local key manager.
    Keystores,
}

/// What is to be done with the keys.
#[derive(Clone, Copy, PartialEq, Eq, Debug)]
pub enum Action {
    /// To list them.
    List,
    /// To take keys in.
    Import,
    /// To give keys up.
    Delete,
}

/// The path of the keystores' route.
const KEYSTORES: &str = "/eth/v1/keystores";

/// What the target before its query names, if anything. The error is want of memory.
pub(crate) fn route_of(alloc: Global, target: &[u8]) -> Result<Option<Route>, AllocError>
    ensures { IfOk result (λ found. found ≡ route_of target.now) }
{
    match std::str::from_utf8(path_of(target)) {
        Ok(path) => route_at(alloc, path),
        Err(_) => Ok(None),
    }
}

/// The target before its query, which begins at the first `?` (RFC 3986, section 3.4).
pub fn path_of(target: &[u8]) -> &[u8]
    ensures { result.now ≡ path_of target.now }
{
    match query_at(target) {
        Some(end) => &target[..end],
        None => target,
    }
}

/// Where the query begins, if there is one.
fn query_at(target: &[u8]) -> Option<usize>
    ensures { result ≡ position (λ byte. byte == 63) target.now }
{
    target.iter().position(|byte| *byte == b'?')
}

/// What the path names, if anything.
fn route_at(alloc: Global, path: &str) -> Result<Option<Route>, AllocError>
    ensures { IfOk result (λ found. found ≡ route_at path.now) }
{
    let routes = routes(alloc)?;
    match routes.at(path) {
        Ok(found) => Ok(Some(*found.value)),
        Err(_) => Ok(None),
    }
}

/// All routes.
fn routes(alloc: Global) -> Result<Router<Route>, AllocError>
    ensures { IfOk result (λ routes. (path : List ℕ) → option_map (λ row. row.value) (first routes path) ≡ route_at path) }
{
    let mut routes = Router::new(alloc);
    match routes.insert(KEYSTORES, Route::Keystores) {
        Ok(()) => Ok(routes),
        Err(_) => Err(AllocError),
    }
}

/// What the method does with what the route names, if anything.
pub(crate) fn action_at(route: Route, method: &Method) -> Option<Action>
    ensures { result ≡ action_at route method.now }
{
    let Route::Keystores = route;
    match method.as_str() {
        "GET" => Some(Action::List),
        "POST" => Some(Action::Import),
        "DELETE" => Some(Action::Delete),
        _ => None,
    }
}
