//! A beacon node whose unreadable answers are reported.
ghost use Rattle.std.specs.Prelude.{◌≡◌};

use edge_sockets::Visible;
use edge_system::{EpochNotes, Reports};
use node_calls::{Answer, Ask, Node, NodeFault, Post};
use service_url::ServiceUrl;
use slash_defs::Granted;
use std::alloc::{AllocError, Global};
use std::fmt;
use std::fmt::{Display, Formatter};
use std::io::Eprint;

/// A beacon node that reports on standard error each answer that cannot be read or does not fit its question. It notes for
/// how many keys indices are asked, and reports that once, before it is first asked for duties.
#[derive(Drop)]
pub struct ToldNode<'a, N, E> {
    inner: N,
    service: ServiceUrl,
    handle: E,
    notes: &'a EpochNotes,
    reports: Reports,
    /// For how many keys it was asked indices, and answered, since it was last asked for the fork.
    keys: u64,
    /// Whether it was asked for duties after it had answered for some keys.
    has_begun: bool,
}

impl<'a, N, E: Eprint> ToldNode<'a, N, E> {
    /// Such a node, of another one at this address. It makes these reports by this handle, and notes here.
    pub fn new(
        inner: N,
        service: ServiceUrl,
        handle: E,
        notes: &'a EpochNotes,
        reports: Reports,
    ) -> Self {
        ToldNode {
            inner,
            service,
            handle,
            notes,
            reports,
            keys: 0,
            has_begun: false,
        }
    }

    // Notes what a question says of keys: the fork is asked for before the indices of the active keys are.
    fn note_keys(&mut self, ask: &Ask, is_answered: bool)
        ensures { self.new.inner ≡ self.old.inner }
    {
        match ask {
            Ask::Fork => {
                self.keys = 0;
                self.notes.begin_keys();
            }
            Ask::Validators { keys } if is_answered => {
                let more = u64::try_from(keys.len()).unwrap_or(u64::MAX);
                self.keys = self.keys.saturating_add(more);
                self.notes.add_keys(keys.len());
            }
            _ => {}
        }
    }

    // Reports for how many keys it was asked indices, and answered, before it is first asked for duties after that.
    fn report_keys(&mut self, ask: &Ask)
        ensures { self.new.inner ≡ self.old.inner }
    {
        let keys = self.keys;
        if !matches!(ask, Ask::Proposer { .. }) || self.has_begun || keys == 0 {
            return;
        }
        self.has_begun = true;
        if self.reports.has_news() {
            let _ = eprintln!(&self.handle; "validator: {keys} keys");
        }
    }

    // Reports what came where it cannot be read.
    fn report<W: Display + Drop>(&self, fault: &NodeFault, method: &str, target: W) {
        let NodeFault::Unreadable(body) = fault else {
            return;
        };
        let (host, port) = (self.service.dial_host(), self.service.port());
        let path = self.service.path();
        let body = Visible::front(body.as_slice());
        let _ = eprintln!(&self.handle;
            "{host}:{port}: {method} {path}{target}: unreadable: {body}"
        );
    }
}

/// The target of a question.
#[derive(Drop)]
struct AskTarget<'a>(&'a Ask);

impl Display for AskTarget<'_> {
    fn fmt<W: fmt::Write>(&self, f: &mut Formatter<W>) -> fmt::Result {
        let AskTarget(ask) = self;
        match ask {
            Ask::Genesis => write!(f, "/eth/v1/beacon/genesis"),
            Ask::Fork => write!(f, "/eth/v1/beacon/states/head/fork"),
            Ask::Syncing => write!(f, "/eth/v1/node/syncing"),
            Ask::Validators { .. } => write!(f, "/eth/v1/beacon/states/head/validators"),
            Ask::Proposer { epoch } => write!(f, "/eth/v1/validator/duties/proposer/{epoch}"),
            Ask::Attester { epoch, .. } => write!(f, "/eth/v1/validator/duties/attester/{epoch}"),
            Ask::Data { slot, .. } => write!(f, "/eth/v1/validator/attestation_data?slot={slot}"),
            Ask::Block { slot, .. } => write!(f, "/eth/v2/validator/blocks/{slot}"),
            Ask::Aggregate { .. } => write!(f, "/eth/v1/validator/aggregate_attestation"),
            Ask::Liveness { epoch, .. } => write!(f, "/eth/v1/validator/liveness/{epoch}"),
        }
    }
}

// The method of a question.
fn method_of(ask: &Ask) -> &'static str {
    match ask {
        Ask::Attester { .. } | Ask::Liveness { .. } => "POST",
        _ => "GET",
    }
}

// The target of what is handed in.
fn post_target(post: &Post) -> &'static str {
    match post {
        Post::Vote(_) => "/eth/v1/beacon/pool/attestations",
        Post::Block(_) => "/eth/v1/beacon/blocks",
        Post::Aggregate(_) => "/eth/v1/validator/aggregate_and_proofs",
    }
}

impl<N: Node + Drop, E: Eprint + Copy + Drop> Node for ToldNode<'_, N, E> {
    ghost told = { λ s. N.told s.inner };

    ghost faults = { λ s. N.faults s.inner };

    fn ask(&mut self, ask: &Ask) -> Result<Answer, NodeFault> {
        self.report_keys(ask);
        let reply = self.inner.ask(ask);
        self.note_keys(ask, reply.is_ok());
        if let Err(fault) = &reply {
            self.report(fault, method_of(ask), AskTarget(ask));
        }
        reply
    }

    fn post<G: Granted>(&mut self, grant: &G, post: &Post) -> Result<(), NodeFault> {
        let reply = self.inner.post(grant, post);
        if let Err(fault) = &reply {
            self.report(fault, "POST", post_target(post));
        }
        reply
    }

    fn twin(&self, alloc: Global) -> Result<Self, AllocError> {
        Ok(ToldNode {
            inner: self.inner.twin(alloc)?,
            service: self.service.copy(alloc)?,
            handle: self.handle,
            notes: self.notes,
            reports: self.reports,
            keys: 0,
            has_begun: false,
        })
    }
}
