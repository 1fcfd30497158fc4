//! The address of a service.
ghost use Rattle.std.specs.Prelude.{◌≡◌, IfOk, string_bytes, unwrap_or};
ghost use Rattle.url.specs.Parts.{Parts};
ghost use Rattle.service_url.specs.Services.{authority_of, dial_host_of, is_service, service_at, service_of, with_port};

use crate::ends::{without_first, without_last};
use std::alloc::{AllocError, Global};
use std::marker::Model;
use url::{ParseError, Url};

/// The address of a service that is called over HTTP: a host, a port and the path that the paths of its calls
/// follow. Contracts see the three.
#[derive(Debug, Drop)]
pub struct ServiceUrl {
    host: String,
    port: Option<u16>,
    authority: String,
    path: String,
}

impl Model for ServiceUrl {
    ghost use Rattle.std.specs.Prelude.{◌≡◌, string_bytes};
    ghost use Rattle.service_url.specs.Services.{Service, service_code, with_port};

    ghost Value = { Service };

    ghost coded = { service_code };

    ghost view = { λ s. record { host = string_bytes s.host; port = s.port; path = string_bytes s.path } };

    ghost invariant = { λ s. string_bytes s.authority ≡ with_port (string_bytes s.host) s.port };
}

impl ServiceUrl {
    /// The address that a text is, or none. It is one exactly where the URL Standard's parser reads it as a URL
    /// with the scheme `http` and a host that is not empty, and with no user name, password, query or fragment.
    /// One `/` at the end of the URL's path is dropped. The error is want of memory, which a text of 4 GB and
    /// more counts as.
    pub fn read(alloc: Global, text: &str) -> Result<Option<ServiceUrl>, AllocError>
        ensures { IfOk result (λ found. found ≡ service_at text.now) }
    {
        match Url::parse(alloc, text) {
            Ok(url) => ServiceUrl::of(alloc, &url),
            Err(ParseError::OutOfMemory) => Err(AllocError),
            Err(ParseError::Overflow) => Err(AllocError),
            Err(_) => Ok(None),
        }
    }

    /// The address that a URL is, or none.
    fn of(alloc: Global, url: &Url) -> Result<Option<ServiceUrl>, AllocError>
        ensures { IfOk result (λ found. found ≡ service_of url.now) }
    {
        if !is_plain(url) {
            return Ok(None);
        }
        let Some(host) = url.host_str() else {
            return Ok(None);
        };
        let service = ServiceUrl {
            host: String::from_str(alloc, host)?,
            port: url.port(),
            authority: authority_text(alloc, host, url.port())?,
            path: String::from_str(alloc, without_last(url.path(), '/'))?,
        };
        Ok(Some(service))
    }

    /// The host, and `:` and the port where it isn't 80: the value of the field Host (RFC 9110, section 7.2).
    pub fn authority(&self) -> &str
        ensures { result.now ≡ authority_of self.now }
    {
        self.authority.as_str()
    }

    /// The URL's path without one `/` at its end, percent-encoded. It is empty, or begins with `/`.
    pub fn path(&self) -> &str
        ensures { result.now ≡ self.now.path }
    {
        self.path.as_str()
    }

    /// The host that a connection is made to: a name, or an address, without the brackets that a URL has around
    /// one of IPv6.
    pub fn dial_host(&self) -> &str
        ensures { result.now ≡ dial_host_of self.now }
    {
        without_last(without_first(self.host.as_str(), '['), ']')
    }

    /// The port that a connection is made to: 80 where the URL names none.
    pub fn port(&self) -> u16
        ensures { result ≡ unwrap_or self.now.port 80 }
    {
        self.port.unwrap_or(80)
    }

    /// The allocator of its texts.
    pub fn allocator(&self) -> Global {
        *self.host.allocator()
    }

    /// The same address again. The error is want of memory.
    pub fn copy(&self, alloc: Global) -> Result<ServiceUrl, AllocError>
        ensures { IfOk result (λ copy. copy ≡ self.now) }
    {
        Ok(ServiceUrl {
            host: String::from_str(alloc, self.host.as_str())?,
            port: self.port,
            authority: String::from_str(alloc, self.authority.as_str())?,
            path: String::from_str(alloc, self.path.as_str())?,
        })
    }
}

/// Whether a URL has the scheme `http`, and no user name, password, query or fragment.
fn is_plain(url: &Url) -> bool
    ensures { result ≡ is_service url.now }
{
    url.scheme() == "http"
        && url.has_host()
        && url.username().is_empty()
        && url.password().is_none()
        && url.query().is_none()
        && url.fragment().is_none()
}

/// The host, and `:` and the port where there is one.
fn authority_text(alloc: Global, host: &str, port: Option<u16>) -> Result<String, AllocError>
    ensures { IfOk result (λ text. string_bytes text ≡ with_port host.now port) }
{
    let Some(port) = port else {
        return String::from_str(alloc, host);
    };
    let text = format!(in alloc; "{host}:{port}")?;
    Ok(text)
}
