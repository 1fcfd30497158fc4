//! A beacon node that is called over HTTP.
ghost use Rattle.std.specs.Prelude.{◌≡◌, ◌≤◌, [], true, None, Some, Err, IfOk, option_map, string_bytes};
ghost use Rattle.edge_kit.specs.Causes.{Rose};
ghost use Rattle.edge_kit.specs.Links.{Stays};
ghost use Rattle.edge_kit.specs.Tellings.{Tells};
ghost use Rattle.http_call.specs.Calls.{IsCall, called_text};
ghost use Rattle.node_calls.specs.Asking.{posted, told_ask, told_post};
ghost use Rattle.node_calls.specs.Fitting.{fits};
ghost use Rattle.beacon_node.specs.Calls.{IsAsked, IsPosted, IsSilent, kept};

use crate::keeping::{kept_copy, make_room, post_call, tell_ask, tell_post};
use crate::readings::{ask_reply, post_reply};
use crate::requests::{NodeRequest, ask_request, post_request};
use edge_kit::{Link, PubKey};
use http_call::call;
use http_wire::{Response, WireFault};
use node_calls::{Answer, Ask, Node, NodeCall, NodeFault, Post};
use service_url::ServiceUrl;
use slash_defs::{Granted, Message};
use std::alloc::{AllocError, Global};

/// A beacon node that is called over a link by the Beacon API, one connection a call. Its faults are its link's.
/// It tells its calls where it was made to.
#[derive(Drop)]
pub struct BeaconNode<L: Link + Drop> {
    link: L,
    url: ServiceUrl,
    told: Option<Vec<NodeCall>>,
}

impl<L: Link + Drop> BeaconNode<L> {
    /// The node at an address, over a link to its host and port. It tells none of its calls.
    pub fn new(link: L, url: ServiceUrl) -> Self
        ensures link { result.link ≡ link }
        ensures url { result.url ≡ url }
        ensures told { kept result.told ≡ None }
    {
        BeaconNode {
            link,
            url,
            told: None,
        }
    }

    /// A client of the same kind that tells each call with its reply, which it keeps: a list that grows with each call.
    pub fn telling(link: L, url: ServiceUrl) -> Self
        ensures link { result.link ≡ link }
        ensures url { result.url ≡ url }
        ensures told { kept result.told ≡ Some [] }
    {
        let told = Some(Vec::new(url.allocator()));
        BeaconNode { link, url, told }
    }

    /// The calls so far with their replies, where it tells them.
    pub fn told(&self) -> Option<&[NodeCall]>
        ensures { option_map (λ calls. calls.now) result ≡ kept self.now.told }
    {
        match &self.told {
            Some(calls) => Some(calls.as_slice()),
            None => None,
        }
    }

    /// The link, given back.
    pub fn into_link(self) -> L
        ensures { result ≡ self.link }
    {
        self.link
    }

    /// Sends a request and reads the response to it. The call is not told.
    fn send(&mut self, request: NodeRequest) -> Result<Response, WireFault>
        ensures call { IsCall (called_text self.old.url request.method (string_bytes request.path) request.body.items) (L.held self.old.link) (L.held self.new.link)
            (L.coming self.old.link) (L.coming self.new.link) (L.faults self.old.link) (L.faults self.new.link) result }
        ensures told { self.new.told ≡ self.old.told }
        ensures url { self.new.url ≡ self.old.url }
    {
        let NodeRequest { method, path, body } = request;
        call(
            self.url.allocator(),
            &mut self.link,
            &self.url,
            method,
            path.as_str(),
            body,
        )
    }

    /// Hands over what was signed by a key.
    fn post_signed(
        &mut self,
        key: &PubKey,
        message: Option<Message>,
        post: &Post,
    ) -> Result<(), NodeFault>
        ensures posts { IsPosted self.old.url post.now (L.held self.old.link) (L.held self.new.link)
            (L.coming self.old.link) (L.coming self.new.link) (L.faults self.old.link) (L.faults self.new.link) result }
        ensures told { Tells (kept self.old.told) (kept self.new.told) (told_post (posted key.now message post.now) result) }
        ensures silent { IsSilent (kept self.old.told) (kept self.new.told) }
        ensures url { self.new.url ≡ self.old.url }
    {
        let alloc = self.url.allocator();
        let request = match post_request(alloc, post) {
            Ok(request) => request,
            Err(_) => return Err(NodeFault::OutOfMemory),
        };
        let call = match post_call(alloc, &self.told, key, message, post) {
            Ok(call) => call,
            Err(_) => return Err(NodeFault::OutOfMemory),
        };
        if make_room(&mut self.told).is_err() {
            return Err(NodeFault::OutOfMemory);
        }
        let response = self.send(request);
        let reply = post_reply(alloc, response);
        tell_post(alloc, &mut self.told, call, reply)
    }
}

impl<L: Link + Drop> Node for BeaconNode<L> {
    ghost told = { λ s. kept s.told };

    ghost faults = { λ s. L.faults s.link };

    /// Asks by one call of the Beacon API.
    ///
    /// `Status` with the HTTP status where it is outside 200 to 299. `Unreadable` with the whole body where a
    /// status of success comes with a body that does not give what was asked for, within its bounds; and with no
    /// bytes where what comes is no response. `Fault` where the link failed.
    fn ask(&mut self, ask: &Ask) -> Result<Answer, NodeFault>
        ensures told { Tells (kept self.old.told) (kept self.new.told) (told_ask ask.now result) }
        ensures silent { IsSilent (kept self.old.told) (kept self.new.told) }
        ensures fits { IfOk result (λ answer. fits ask.now answer ≡ true) }
        ensures later { L.faults self.old.link ≤ L.faults self.new.link }
        ensures fault { result ≡ Err NodeFault.Fault → Rose (L.faults self.old.link) (L.faults self.new.link) }
        ensures asks { IsAsked self.old.url ask.now (L.held self.old.link) (L.held self.new.link)
            (L.coming self.old.link) (L.coming self.new.link) (L.faults self.old.link) (L.faults self.new.link) result }
        ensures url { self.new.url ≡ self.old.url }
    {
        let alloc = self.url.allocator();
        let request = match ask_request(alloc, ask) {
            Ok(request) => request,
            Err(_) => return Err(NodeFault::OutOfMemory),
        };
        if make_room(&mut self.told).is_err() {
            return Err(NodeFault::OutOfMemory);
        }
        let response = self.send(request);
        let reply = ask_reply(alloc, ask, response);
        tell_ask(alloc, &mut self.told, ask, reply)
    }

    /// Hands over by one call of the Beacon API. `Status`, `Unreadable` with no bytes and `Fault` as for `ask`;
    /// the body of a status of success is not looked at.
    fn post<G: Granted>(&mut self, grant: &G, post: &Post) -> Result<(), NodeFault>
        ensures told { Tells (kept self.old.told) (kept self.new.told) (told_post (posted (G.granted_key grant.now) (G.granted_message grant.now) post.now) result) }
        ensures silent { IsSilent (kept self.old.told) (kept self.new.told) }
        ensures later { L.faults self.old.link ≤ L.faults self.new.link }
        ensures fault { result ≡ Err NodeFault.Fault → Rose (L.faults self.old.link) (L.faults self.new.link) }
        ensures posts { IsPosted self.old.url post.now (L.held self.old.link) (L.held self.new.link)
            (L.coming self.old.link) (L.coming self.new.link) (L.faults self.old.link) (L.faults self.new.link) result }
        ensures url { self.new.url ≡ self.old.url }
    {
        let message = grant.what().copied();
        self.post_signed(grant.key(), message, post)
    }

    /// The node at the same address, over the link's twin. It tells where this one does, and begins with what this
    /// one told.
    fn twin(&self, alloc: Global) -> Result<Self, AllocError>
        ensures told { IfOk result (λ t. kept t.told ≡ kept self.now.told) }
        ensures faults { IfOk result (λ t. L.faults t.link ≡ 0) }
        ensures url { IfOk result (λ t. t.url ≡ self.now.url) }
        ensures left { IfOk result (λ t. Stays (L.left self.now.link) (L.left t.link)) }
        ensures coming { IfOk result (λ t. Stays (L.coming self.now.link) (L.coming t.link)) }
        ensures held { IfOk result (λ t. Stays (L.held self.now.link) (L.held t.link)) }
    {
        Ok(BeaconNode {
            link: self.link.twin(alloc)?,
            url: self.url.copy(alloc)?,
            told: kept_copy(alloc, &self.told)?,
        })
    }
}
