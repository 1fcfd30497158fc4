//! A desk and its signer, and one request at them.
ghost use Rattle.std.specs.Prelude.{◌≡◌, ◌≤◌, IfOk, IfSome, OnErr, Contains, IsSome, is_some, string_bytes, unwrap_or, Some};
ghost use Rattle.std.specs.Map.{keys_of};
ghost use Rattle.record_join.specs.BooksPasts.{EachOnce};
ghost use Rattle.desk_machine.specs.Machine.{MayCall, moment_limit};
ghost use Rattle.call_plans.specs.Plans.{Done, bind};
ghost use Rattle.key_custody.specs.Plans.{deletion_plan, import_plan, list_plan};
ghost use Rattle.session_run.specs.Acts.{Answered, IsLineOf, ListsOnce, PlanEnds, SignEnds, Unanswered};
ghost use Rattle.session_run.specs.Plans.{IsPlainCall, IsPlainReply, answer_given, calls, import_answer, line_plan, moment_by, op_plan, outcome_of, proposes, sign_request, signed_answer};

use check_sign::Desk;
use custody_format::Keystores;
use desk_machine::{DeskCall, DeskReply, Grant, Outcome};
use edge_kit::{Disk, PubKey};
use key_custody::{Deletion, ImportEnd, delete_keys, import_keys, list_keys};
use session_format::{Answer, Cause, Member, Op, Request, SessionChain};
use signer_link::{SignObject, SignReply, SignRequest, Signer};
use slash_defs::{File, Granted, Message};
use std::alloc::{AllocError, Global};
use std::marker::Model;

/// A desk, and the signer that is asked under its grants.
#[derive(Drop)]
pub struct Bench<D: Disk, S: Signer> {
    desk: Desk<D>,
    signer: S,
}

impl<D: Disk, S: Signer> Model for Bench<D, S> {
    ghost use Rattle.session_run.specs.Acts.{AtBench};

    ghost Value = { AtBench D };

    ghost view = { λ b. record { desk = b.desk; signer = record { told = S.told b.signer; faults = S.faults b.signer; denials = S.denials b.signer } } };
}

impl<D: Disk, S: Signer> Bench<D, S> {
    /// A bench of this desk and this signer.
    pub fn new(desk: Desk<D>, signer: S) -> Self
        ensures desk { result.desk ≡ desk }
        ensures told { result.signer.told ≡ S.told signer }
        ensures faults { result.signer.faults ≡ S.faults signer }
        ensures denials { result.signer.denials ≡ S.denials signer }
    {
        Bench { desk, signer }
    }

    /// The desk and the signer.
    pub fn into_parts(self) -> (Desk<D>, S)
        ensures desk { result.0 ≡ self.desk }
        ensures told { S.told result.1 ≡ self.signer.told }
        ensures faults { S.faults result.1 ≡ self.signer.faults }
        ensures denials { S.denials result.1 ≡ self.signer.denials }
    {
        (self.desk, self.signer)
    }

    /// Whether the disk has failed since the desk was opened. Takes no memory.
    pub(crate) fn failed(&self) -> bool
        ensures { result ≡ is_some self.now.desk.contents.torn }
    {
        self.desk.failed()
    }

    /// What a line gets as its answer, and the latest moment after it. A bad request does nothing. Where memory
    /// ran out, the first few steps of what it asks are done, each whole.
    pub(crate) fn answer(
        &mut self,
        alloc: Global,
        chain: &SessionChain,
        latest: u64,
        read: Result<Request, Member>,
    ) -> Result<(String, u64), AllocError>
        requires latest { latest ≤ moment_limit }
        requires epoch { IfOk read (λ q. unwrap_or q.epoch 0 ≤ moment_limit) }
        requires once { IfOk read (λ q. ListsOnce q.op) }
        ensures done { IfOk result (λ x. Answered D.moment D.leaves D.faults (line_plan chain.now (keys_of self.old.desk.contents.keys) latest read) self.old self.new (string_bytes x.0)) }
        ensures latest { IfOk result (λ x. x.1 ≡ moment_by latest read) }
        ensures limit { IfOk result (λ x. x.1 ≤ moment_limit) }
        ensures undone { OnErr result (Unanswered D.moment D.leaves D.faults chain.now latest read self.old self.new) }
    {
        match read {
            Err(member) => {
                let text = Answer::BadRequest(member).line(alloc)?;
                Ok((text, latest))
            }
            Ok(request) => {
                let now = latest.max(request.epoch.unwrap_or(0));
                let text = self.act(alloc, chain, request.op, now)?;
                Ok((text, now))
            }
        }
    }

    /// Does what a line asks, at the moment, and gives its answer's line.
    fn act(
        &mut self,
        alloc: Global,
        chain: &SessionChain,
        op: Op,
        now: u64,
    ) -> Result<String, AllocError>
        requires moment { now ≤ moment_limit }
        requires once { ListsOnce op }
        ensures ends { PlanEnds D.moment D.leaves D.faults (λ s. string_bytes s) (op_plan chain.now (keys_of self.old.desk.contents.keys) now op) self.old self.new result }
    {
        match op {
            Op::Merge { file } => self.ask(alloc, DeskCall::Merge { file }),
            Op::BadFile { fault } => Answer::BadFile(fault).line(alloc),
            Op::Activate { key } => self.ask(alloc, DeskCall::Activate { key, now }),
            Op::Propose {
                key,
                message,
                object,
            } => self.propose(alloc, chain, object, key, message, now),
            Op::Export { keys: Some(keys) } => self.ask(alloc, DeskCall::Export { keys }),
            Op::Export { keys: None } => {
                let keys = self.desk.kept_keys()?;
                self.ask(alloc, DeskCall::Export { keys })
            }
            Op::Prune { key } => self.ask(alloc, DeskCall::Prune { key }),
            Op::Live { key, of, is_live } => {
                let call = DeskCall::Answer {
                    key,
                    epoch: of,
                    live: is_live,
                    now,
                };
                self.ask(alloc, call)
            }
            Op::Compact => self.ask(alloc, DeskCall::Compact),
            Op::Import { file, keystores } => self.import(alloc, file, &keystores, now),
            Op::Delete { keys } => self.delete(alloc, keys.as_slice()),
            Op::List => self.list(alloc),
        }
    }

    /// Takes keys in, after an interchange file, if there is one.
    fn import(
        &mut self,
        alloc: Global,
        file: Option<File>,
        keystores: &Keystores,
        now: u64,
    ) -> Result<String, AllocError>
        requires moment { now ≤ moment_limit }
        requires once { IfSome file (λ f. EachOnce f.books) }
        ensures ends { PlanEnds D.moment D.leaves D.faults (λ s. string_bytes s) (bind (import_plan file now keystores.now) (λ end. Done (import_answer end))) self.old self.new result }
    {
        let (texts, passwords) = keystores.texts();
        let (desk, signer) = (&mut self.desk, &mut self.signer);
        let Ok(end) = import_keys(alloc, file, texts, passwords, now, desk, signer) else {
            return Err(AllocError);
        };
        line_of(alloc, Some(answer_to_import(end)))
    }

    /// Gives keys up.
    fn delete(&mut self, alloc: Global, keys: &[PubKey]) -> Result<String, AllocError>
        ensures ends { PlanEnds D.moment D.leaves D.faults (λ s. string_bytes s) (bind (deletion_plan keys.now) (λ d. Done (Answer.Deleted d.statuses d.file))) self.old self.new result }
    {
        let Ok(deletion) = delete_keys(alloc, keys, &mut self.desk, &mut self.signer) else {
            return Err(AllocError);
        };
        line_of(alloc, Some(answer_to_deletion(deletion)))
    }

    /// Lists the active keys.
    fn list(&mut self, alloc: Global) -> Result<String, AllocError>
        ensures ends { PlanEnds D.moment D.leaves D.faults (λ s. string_bytes s) (bind list_plan (λ keys. Done (Answer.Listed keys))) self.old self.new result }
    {
        let Ok(keys) = list_keys(alloc, &mut self.desk) else {
            return Err(AllocError);
        };
        line_of(alloc, Some(Answer::Listed { keys }))
    }

    /// Calls the desk once, without a grant, and gives the line of its reply's answer.
    fn ask(&mut self, alloc: Global, call: DeskCall) -> Result<String, AllocError>
        requires may { MayCall self.old.desk.contents.grants call }
        requires plain { IsPlainCall call }
        ensures ends { PlanEnds D.moment D.leaves D.faults (λ s. string_bytes s) (calls call) self.old self.new result }
    {
        let reply = self.desk.call(call);
        line_of(alloc, plain_answer(reply))
    }

    /// Proposes a message, and has it signed under its grant. A grant is settled on every path: `Sent` where its
    /// signature goes out, else `Dropped`.
    fn propose(
        &mut self,
        alloc: Global,
        chain: &SessionChain,
        object: Option<SignObject>,
        key: PubKey,
        message: Message,
        now: u64,
    ) -> Result<String, AllocError>
        requires moment { now ≤ moment_limit }
        ensures ends { PlanEnds D.moment D.leaves D.faults (λ s. string_bytes s) (proposes (sign_request chain.now object) (DeskCall.Propose key message now)) self.old self.new result }
    {
        let request = SignRequest {
            fork: chain.domains.fork,
            genesis: chain.domains.genesis,
            object,
        };
        match self.desk.call(DeskCall::Propose { key, message, now }) {
            DeskReply::Granted(grant) => self.sign(alloc, &request, grant),
            reply => line_of(alloc, plain_answer(reply)),
        }
    }

    /// Has a granted message signed, and settles the grant.
    fn sign(
        &mut self,
        alloc: Global,
        request: &SignRequest,
        grant: Grant,
    ) -> Result<String, AllocError>
        requires is_open { Contains self.old.desk.contents.grants grant }
        requires message { IsSome grant.message }
        ensures ends { SignEnds D.moment D.leaves D.faults (λ s. string_bytes s) request.now grant self.old self.new result }
    {
        let message = grant.what().copied().unwrap();
        let reply = self.signer.sign(request, &grant);
        let outcome = outcome_for(&reply);
        let Ok(text) = line_of(alloc, answer_for(&message, reply)) else {
            self.desk.settle(grant, Outcome::Dropped);
            return Err(AllocError);
        };
        self.desk.settle(grant, outcome);
        Ok(text)
    }
}

/// The line of an answer, where there is one.
fn line_of(alloc: Global, answer: Option<Answer>) -> Result<String, AllocError>
    ensures { IsLineOf (λ s. string_bytes s) answer result }
{
    match answer {
        Some(answer) => answer.line(alloc),
        None => Err(AllocError),
    }
}

/// The answer to a reply without a grant; none where memory ran out.
fn plain_answer(reply: DeskReply) -> Option<Answer>
    requires { IsPlainReply reply }
    ensures { result ≡ answer_given reply }
{
    match reply {
        DeskReply::Merged { keys } => Some(Answer::Merged { keys }),
        DeskReply::Active | DeskReply::Already => Some(Answer::Active),
        DeskReply::Exported(file) => Some(Answer::Exported(file)),
        DeskReply::Pruned(_book) => Some(Answer::Pruned),
        DeskReply::Noted => Some(Answer::Noted),
        DeskReply::Compacted { before, after } => Some(Answer::Compacted { before, after }),
        DeskReply::Unknown => Some(Answer::Unknown),
        DeskReply::NotActive => Some(Answer::NotActive),
        DeskReply::Closing => Some(Answer::Closing),
        DeskReply::Disk => Some(Answer::Disk),
        DeskReply::LastGeneration => Some(Answer::LastGeneration),
        DeskReply::Full { size, wanted } => Some(Answer::Full { size, wanted }),
        DeskReply::GenesisDiffers { kept, given } => Some(Answer::GenesisDiffers { kept, given }),
        DeskReply::TooManyKeys { have, new } => Some(Answer::TooManyKeys { have, new }),
        DeskReply::Live { epoch } => Some(Answer::Live { epoch }),
        DeskReply::Watching { first, second } => Some(Answer::Watching { first, second }),
        DeskReply::Refused(verdict) => Some(Answer::Refused(verdict)),
        DeskReply::Granted(_grant) => unreachable!(),
        DeskReply::Settled | DeskReply::Recorded | DeskReply::Unfit => unreachable!(),
        DeskReply::CloseBegun | DeskReply::AlreadyClosing => unreachable!(),
        DeskReply::Closed(_book) => unreachable!(),
        DeskReply::NotClosing(_) => unreachable!(),
        DeskReply::Busy { grants: _ } => unreachable!(),
        DeskReply::Keys(_listed) => unreachable!(),
        DeskReply::HasFailed(_) => unreachable!(),
        DeskReply::Size { size: _, weight: _ } => unreachable!(),
        DeskReply::OutOfMemory => None,
    }
}

/// The answer to an import, by how it ended.
fn answer_to_import(end: ImportEnd) -> Answer
    ensures { result ≡ import_answer end }
{
    match end {
        ImportEnd::Treated(statuses) => Answer::Imported { statuses },
        ImportEnd::MergeRefused(refusal) => Answer::from(refusal),
    }
}

/// The answer to a deletion.
fn answer_to_deletion(deletion: Deletion) -> Answer
    ensures { result ≡ Answer.Deleted deletion.statuses deletion.file }
{
    let Deletion { statuses, file } = deletion;
    Answer::Deleted { statuses, file }
}

/// The answer of a line whose message the signer answered so; none where memory ran out.
fn answer_for(message: &Message, reply: SignReply) -> Option<Answer>
    ensures { result ≡ signed_answer message.now reply }
{
    match reply {
        SignReply::Signed(signature) => {
            let root = *message.signing_root();
            Some(Answer::Signed { signature, root })
        }
        SignReply::NoKey(_) => Some(Answer::Unsigned(Cause::NoKey)),
        SignReply::Denied(status) => Some(Answer::Unsigned(Cause::Denied { status })),
        SignReply::Fault => Some(Answer::Unsigned(Cause::Fault)),
        SignReply::BadAnswer(body) => Some(Answer::Unsigned(Cause::BadAnswer { body })),
        SignReply::OutOfMemory => None,
    }
}

/// What becomes of a grant after the signer's reply.
fn outcome_for(reply: &SignReply) -> Outcome
    ensures { result ≡ outcome_of reply.now }
{
    match reply {
        SignReply::Signed(_) => Outcome::Sent,
        _ => Outcome::Dropped,
    }
}
