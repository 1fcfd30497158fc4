//! A signing service whose unreadable answers are reported.

use edge_kit::PubKey;
use edge_sockets::Visible;
use service_url::ServiceUrl;
use signer_link::{DeleteReply, ImportReply, PlainRequest, SignReply, SignRequest, Signer};
use slash_defs::Granted;
use std::alloc::{AllocError, Global};
use std::fmt;
use std::fmt::{Display, Formatter};
use std::io::Eprint;

/// Where keystores are taken in and given up.
const KEYSTORES: &str = "/eth/v1/keystores";

/// A signing service that reports on standard error each answer that cannot be read.
#[derive(Drop)]
pub struct ToldSigner<S, E> {
    inner: S,
    service: ServiceUrl,
    handle: E,
}

impl<S, E: Eprint> ToldSigner<S, E> {
    /// Such a service, of another one at this address. It reports by this handle.
    pub fn new(inner: S, service: ServiceUrl, handle: E) -> Self {
        ToldSigner {
            inner,
            service,
            handle,
        }
    }

    // Reports that what came of an import, of that many bytes, cannot be read. No byte of it is shown: it may have what was sent.
    fn report_import(&self, count: usize) {
        self.report("POST", KEYSTORES, format_args!("{count} bytes"));
    }

    // Reports what came of a request for a signature where it cannot be read.
    fn report_sign(&self, key: &PubKey, reply: &SignReply) {
        if let SignReply::BadAnswer(body) = reply {
            self.report("POST", SignTarget(key), Visible::front(body.as_slice()));
        }
    }

    // Reports what came of a request.
    fn report<W: Display + Drop, B: Display + Drop>(&self, method: &str, target: W, body: B) {
        let (host, port) = (self.service.dial_host(), self.service.port());
        let path = self.service.path();
        let _ = eprintln!(&self.handle;
            "{host}:{port}: {method} {path}{target}: unreadable: {body}"
        );
    }
}

/// The target of a request for a signature.
#[derive(Drop)]
struct SignTarget<'a>(&'a PubKey);

impl Display for SignTarget<'_> {
    fn fmt<W: fmt::Write>(&self, f: &mut Formatter<W>) -> fmt::Result {
        let SignTarget(key) = self;
        write!(f, "/api/v1/eth2/sign/0x")?;
        for byte in &key.0 {
            write!(f, "{byte:02x}")?;
        }
        Ok(())
    }
}

impl<S: Signer + Drop, E: Eprint + Copy + Drop> Signer for ToldSigner<S, E> {
    ghost told = { λ s. S.told s.inner };

    ghost faults = { λ s. S.faults s.inner };

    ghost denials = { λ s. S.denials s.inner };

    fn sign<G: Granted>(&mut self, request: &SignRequest, grant: &G) -> SignReply {
        let reply = self.inner.sign(request, grant);
        self.report_sign(grant.key(), &reply);
        reply
    }

    fn sign_plain<G: Granted>(&mut self, request: &PlainRequest, grant: &G) -> SignReply {
        let reply = self.inner.sign_plain(request, grant);
        self.report_sign(grant.key(), &reply);
        reply
    }

    fn import(&mut self, key: &PubKey, keystore: &str, password: &str) -> ImportReply {
        let reply = self.inner.import(key, keystore, password);
        if let ImportReply::BadAnswer(body) = &reply {
            self.report_import(body.len());
        }
        reply
    }

    fn delete(&mut self, key: &PubKey) -> DeleteReply {
        let reply = self.inner.delete(key);
        if let DeleteReply::BadAnswer(body) = &reply {
            self.report("DELETE", KEYSTORES, Visible::front(body.as_slice()));
        }
        reply
    }

    fn twin(&self, alloc: Global) -> Result<Self, AllocError> {
        Ok(ToldSigner {
            inner: self.inner.twin(alloc)?,
            service: self.service.copy(alloc)?,
            handle: self.handle,
        })
    }
}
