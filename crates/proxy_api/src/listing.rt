//! What the proxy says of itself.
ghost use Rattle.std.specs.Prelude.{◌≡◌, ◌≤◌, IfOk, map};
ghost use Rattle.std.specs.Result.{result_ok};
ghost use Rattle.edge_kit.specs.Links.{Stays};
ghost use Rattle.http.specs.StatusCode.{IsStatusCode};
ghost use Rattle.serde_json.specs.View.{items_of, items_view, view};
ghost use Rattle.client_calls.specs.Seats.{Ran, SignerSeen, at_seat};
ghost use Rattle.proxy_api.specs.Listing.{key_text, keys_data, keys_plan, keys_reply, upcheck_text};
ghost use Rattle.proxy_api.specs.Signing.{SendsRest};

use crate::replying::send_rest;
use desk_machine::DeskCalls;
use edge_kit::{Items, Link, PubKey, hex_text};
use key_custody::list_keys;
use keymanager_api::Served;
use keymanager_routes::Reply;
use serde_json::Value;
use std::alloc::{AllocError, Global};

/// The reply that says that the proxy serves: the text `OK`.
const UPCHECK_REPLY: &str =
    "HTTP/1.1 200 OK\r\nContent-Type: text/plain; charset=utf-8\r\nContent-Length: 2\r\nConnection: close\r\n\r\nOK";

/// Says that the proxy serves, and hangs up. Takes no memory.
pub(crate) fn say_serving<L: Link>(link: &mut L) -> Served
    ensures sends { SendsRest (L.held link.old) (L.held link.new) (L.faults link.old) (L.faults link.new) 200 upcheck_text result }
    ensures coming { Stays (L.coming link.old) (L.coming link.new) }
    ensures later { L.faults link.old ≤ L.faults link.new }
{
    send_rest(link, 200, UPCHECK_REPLY.as_bytes())
}

/// The reply that lists the active keys. The error is want of memory.
pub(crate) fn list_public<K: DeskCalls>(alloc: Global, desk: &mut K) -> Result<Reply, AllocError>
    requires ready { K.ready desk.old }
    ensures ready { K.ready desk.new }
    ensures status { IfOk result (λ r. IsStatusCode r.status) }
    ensures runs { (s : SignerSeen) → Ran K.leads keys_plan (at_seat desk.old s) (at_seat desk.new s) (result_ok result) }
{
    match list_keys(alloc, desk) {
        Ok(keys) => keys_reply(alloc, keys.as_slice()),
        Err(AllocError) => Err(AllocError),
    }
}

/// The reply that lists these keys.
fn keys_reply(alloc: Global, keys: &[PubKey]) -> Result<Reply, AllocError>
    ensures { IfOk result (λ r. r ≡ keys_reply keys.now) }
{
    let text = keys_value(alloc, keys)?.to_string(alloc)?;
    Ok(Reply {
        status: 200,
        body: Items::from_vec(text.into_bytes()),
    })
}

fn keys_value(alloc: Global, keys: &[PubKey]) -> Result<Value, AllocError>
    ensures { IfOk result (λ v. view v ≡ keys_data keys.now) }
{
    Ok(Value::Array(key_texts(alloc, keys)?))
}

fn key_texts(alloc: Global, keys: &[PubKey]) -> Result<Vec<Value>, AllocError>
    ensures { IfOk result (λ values. items_view values.items ≡ items_of (map key_text keys.now)) }
{
    let mut values = Vec::with_capacity(alloc, keys.len())?;
    'keys: for key in keys {
        values.push(Value::String(hex_text(alloc, &key.0)?))?;
    }
    Ok(values)
}
