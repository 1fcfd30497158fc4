//! Objects of a run that wait for each other: that threads run next to each other is seen only by that.
use edge_kit::{Door, Failed, PubKey};
use signer_link::{DeleteReply, ImportReply, PlainRequest, SignReply, SignRequest, Signer};
use slash_defs::Granted;
use std::alloc::{AllocError, Global};
use std::rt::Clock;
use std::sync::atomic::{AtomicBool, AtomicU64, Ordering};
use std::thread;
use std::time::Duration;

/// How many naps a wait has at most.
const MOST_NAPS: u64 = 20_000;

/// How long a nap is, in milliseconds.
const NAP: u64 = 1;

/// What a thread of a run comes to.
#[derive(Clone, Copy, PartialEq, Eq)]
pub enum Step {
    /// A signing begins.
    Sign,
    /// A signing begins after another one began.
    SecondSign,
    /// A vote was posted.
    Post,
    /// A connection is to be accepted.
    Accept,
}

impl Step {
    /// The step of a word.
    pub fn read(word: &str) -> Option<Step> {
        match word {
            "sign" => Some(Step::Sign),
            "second-sign" => Some(Step::SecondSign),
            "post" => Some(Step::Post),
            "accept" => Some(Step::Accept),
            _ => None,
        }
    }
}

/// What the threads of a run have come to, which step waits for which, and how many waits came to their limit.
#[derive(Drop)]
pub struct Flags {
    sign: AtomicBool,
    second_sign: AtomicBool,
    post: AtomicBool,
    accept: AtomicBool,
    waits: Vec<(Step, Step)>,
    late_waits: AtomicU64,
}

impl Flags {
    /// Nothing has come yet. The first step of the first kind of a pair waits until one of the second has come.
    pub fn new(waits: Vec<(Step, Step)>) -> Self {
        Flags {
            sign: AtomicBool::new(false),
            second_sign: AtomicBool::new(false),
            post: AtomicBool::new(false),
            accept: AtomicBool::new(false),
            waits,
            late_waits: AtomicU64::new(0),
        }
    }

    /// Notes that a step has come.
    pub fn come(&self, step: Step) {
        self.flag(step).store(true, Ordering::SeqCst);
    }

    /// How many waits came to their limit.
    pub fn late_waits(&self) -> u64 {
        self.late_waits.load(Ordering::SeqCst)
    }

    fn flag(&self, step: Step) -> &AtomicBool {
        match step {
            Step::Sign => &self.sign,
            Step::SecondSign => &self.second_sign,
            Step::Post => &self.post,
            Step::Accept => &self.accept,
        }
    }

    /// Comes to a meeting. The first one that comes waits for the other side, if it is to; the later ones don't.
    fn meet<T: Clock>(&self, step: Step, clock: &T) {
        if self.flag(step).swap(true, Ordering::SeqCst) {
            self.come_again(step);
            return;
        }
        for (own, other) in self.waits.as_slice() {
            if *own == step {
                self.wait_for(*other, clock);
            }
        }
    }

    /// Notes that a step has come once more, where one waits for that.
    fn come_again(&self, step: Step) {
        if step == Step::Sign {
            self.come(Step::SecondSign);
        }
    }

    /// Waits until a step has come, or counts that it did not come in time.
    fn wait_for<T: Clock>(&self, step: Step, clock: &T) {
        let flag = self.flag(step);
        for _nap in 0..MOST_NAPS {
            if flag.load(Ordering::SeqCst) {
                return;
            }
            thread::sleep(clock, Duration::from_millis(NAP));
        }
        self.late_waits.fetch_add(1, Ordering::SeqCst);
    }
}

/// Does what another signer does, comes to a meeting before it signs a block or a vote, and counts these.
#[derive(Drop)]
pub struct MeetingSigner<'a, T, S> {
    pub signer: S,
    pub requests: u64,
    pub flags: &'a Flags,
    pub clock: &'a T,
}

impl<'a, T: Clock, S: Signer> Signer for MeetingSigner<'a, T, S> {
    ghost told = { λ s. S.told s.signer };

    ghost faults = { λ s. S.faults s.signer };

    ghost denials = { λ s. S.denials s.signer };

    fn sign<G: Granted>(&mut self, request: &SignRequest, grant: &G) -> SignReply {
        self.flags.meet(Step::Sign, self.clock);
        self.requests = self.requests.saturating_add(1);
        self.signer.sign(request, grant)
    }

    fn sign_plain<G: Granted>(&mut self, request: &PlainRequest, grant: &G) -> SignReply {
        self.signer.sign_plain(request, grant)
    }

    fn import(&mut self, key: &PubKey, keystore: &str, password: &str) -> ImportReply {
        self.signer.import(key, keystore, password)
    }

    fn delete(&mut self, key: &PubKey) -> DeleteReply {
        self.signer.delete(key)
    }

    /// One that comes to the same meeting, and has no request yet.
    fn twin(&self, alloc: Global) -> Result<Self, AllocError> {
        Ok(MeetingSigner {
            signer: self.signer.twin(alloc)?,
            requests: 0,
            flags: self.flags,
            clock: self.clock,
        })
    }
}

/// Does what another door does, and comes to a meeting before it accepts.
#[derive(Drop)]
pub struct MeetingDoor<'a, T, R> {
    pub door: R,
    pub flags: &'a Flags,
    pub clock: &'a T,
}

impl<'a, T: Clock, R: Door> Door for MeetingDoor<'a, T, R> {
    type Conn = R::Conn;

    ghost coming = { λ d. R.coming d.door };

    ghost finished = { λ d. R.finished d.door };

    ghost lent = { λ d. R.lent d.door };

    ghost faults = { λ d. R.faults d.door };

    fn accept(&mut self) -> Result<Option<R::Conn>, Failed> {
        self.flags.meet(Step::Accept, self.clock);
        self.door.accept()
    }

    fn finish(&mut self, conn: R::Conn) {
        self.door.finish(conn)
    }
}
