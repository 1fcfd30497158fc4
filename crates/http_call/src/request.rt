//! The request of a call.
ghost use Rattle.std.specs.Prelude.{◌≡◌, ◌++◌, ◌∷◌, [], IfOk, codes};
ghost use Rattle.service_url.specs.Services.{authority_of};
ghost use Rattle.http_wire.specs.Parts.{parts_of};

use http::Method;
use http_wire::{Field, Request};
use service_url::ServiceUrl;
use std::alloc::{AllocError, Global};

/// The request to a service: its target is the service's path and then this one, and its field Host names the
/// service.
pub(crate) fn request_to(
    alloc: Global,
    service: &ServiceUrl,
    method: Method,
    path: &str,
    body: Vec<u8>,
) -> Result<Request, AllocError>
    ensures method { IfOk result (λ request. request.method ≡ method) }
    ensures target { IfOk result (λ request. request.target.items ≡ service.now.path ++ path.now) }
    ensures fields { IfOk result (λ request. parts_of request.fields.items ≡ (codes "Host", authority_of service.now) ∷ []) }
    ensures body { IfOk result (λ request. request.body.items ≡ body.items) }
{
    let mut target = Vec::from_slice(alloc, service.path().as_bytes())?;
    target.extend_from_slice(path.as_bytes())?;
    let host = Field {
        name: Vec::from_slice(alloc, b"Host")?,
        value: Vec::from_slice(alloc, service.authority().as_bytes())?,
    };
    let mut fields = Vec::new(alloc);
    fields.push(host)?;
    Ok(Request {
        method,
        target,
        fields,
        body,
    })
}
