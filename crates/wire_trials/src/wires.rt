//! Addresses of services, and members of JSON.
use crate::messages::read_however_cut;
use crate::reading::{Stop, first_part};
use json_members::{bytes_in, flag_in, items_in, json_of, number_in, text_in};
use service_url::ServiceUrl;
use std::alloc::Global;

/// What comes of a subject of this module.
pub fn outcome(alloc: Global, subject: &str, arguments: &str) -> Result<String, Stop> {
    match subject {
        "url" => url(alloc, arguments),
        "json" => json(alloc, arguments),
        "json-bytes" => json_bytes(alloc, arguments),
        _ => read_however_cut(alloc, subject, arguments),
    }
}

/// The parts of an address, where it is one.
fn url(alloc: Global, text: &str) -> Result<String, Stop> {
    let Some(service) = ServiceUrl::read(alloc, text)? else {
        return Ok(String::from_str(alloc, "none")?);
    };
    let (authority, path) = (service.authority(), service.path());
    let (host, port) = (service.dial_host(), service.port());
    Ok(format!(in alloc; "authority {authority:?} path {path:?} host {host:?} port {port}")?)
}

/// The member of this name of the object that bytes are, read as this kind.
fn member(alloc: Global, kind: &str, name: &str, bytes: &[u8]) -> Result<String, Stop> {
    let Some(value) = json_of(alloc, bytes)? else {
        return Ok(String::from_str(alloc, "no JSON")?);
    };
    match kind {
        "text" => Ok(format!(in alloc; "{:?}", text_in(&value, name))?),
        "number" => Ok(format!(in alloc; "{:?}", number_in(&value, name))?),
        "2-bytes" => Ok(format!(in alloc; "{:?}", bytes_in::<2>(&value, name))?),
        "3-bytes" => Ok(format!(in alloc; "{:?}", bytes_in::<3>(&value, name))?),
        "flag" => Ok(format!(in alloc; "{:?}", flag_in(&value, name))?),
        "count" => Ok(format!(in alloc; "{:?}", items_in(&value, name).map(<[_]>::len))?),
        _ => Err(Stop::Unread),
    }
}

/// The member of a kind and a name of a text.
fn json(alloc: Global, arguments: &str) -> Result<String, Stop> {
    let (kind, rest) = first_part(arguments, " ");
    let (name, text) = first_part(rest, " ");
    member(alloc, kind, name, text.as_bytes())
}

/// A text among the members of bytes in hex.
fn json_bytes(alloc: Global, arguments: &str) -> Result<String, Stop> {
    let (name, digits) = first_part(arguments, " ");
    match hex::decode(alloc, digits) {
        Ok(bytes) => member(alloc, "text", name, bytes.as_slice()),
        Err(_) => Err(Stop::Unread),
    }
}
