//! Reading the request of a line.
ghost use Rattle.std.specs.Prelude.{◌≡◌, IfOk};
ghost use Rattle.serde_json.specs.View.{view};
ghost use Rattle.session_format.specs.Requests.{epoch_at, op_in, request_in, request_of};
ghost use Rattle.session_format.specs.Steps.{Gives};

use crate::chain::SessionChain;
use crate::member::Member;
use crate::objects::{block_of, vote_of};
use crate::ops::{activate_of, delete_of, export_of, import_of, live_of, merge_of, prune_of};
use crate::request::{Op, Request};
use crate::texts::text_of;
use desk_machine::MOMENT_LIMIT;
use edge_kit::read_quoted;
use serde_json::Value;
use std::alloc::{AllocError, AllocFailed, Global};

/// Why a line has no request.
#[derive(Drop)]
pub(crate) enum Unread {
    /// Memory ran out.
    Memory,
    /// The member is absent or has no reading.
    Member(Member),
}

impl From<AllocError> for Unread {
    ghost use Rattle.std.specs.Prelude.{◌≡◌};
    ghost use Rattle.session_format.specs.declared.reading.Unread.TheVariants.{Memory};

    ghost from_gives = { λ _ u. u ≡ Memory };

    fn from(_error: AllocError) -> Unread {
        Unread::Memory
    }
}

impl<T: Drop> From<AllocFailed<T>> for Unread {
    ghost use Rattle.std.specs.Prelude.{◌≡◌};
    ghost use Rattle.session_format.specs.declared.reading.Unread.TheVariants.{Memory};

    ghost from_gives = { λ _ u. u ≡ Memory };

    fn from(_error: AllocFailed<T>) -> Unread {
        Unread::Memory
    }
}

impl From<Member> for Unread {
    ghost use Rattle.std.specs.Prelude.{◌≡◌};
    ghost use Rattle.session_format.specs.declared.reading.Unread.TheVariants.{Member};

    ghost from_gives = { λ member u. u ≡ Member member };

    fn from(member: Member) -> Unread {
        Unread::Member(member)
    }
}

/// The request of a line for the session's chain, or the first member, in the order `op`, then the op's own, then `epoch`,
/// that is absent or cannot be read. Where an object (`header`, `beacon_block`, `attestation`) is there, the plain members
/// are ignored; with a `header`, so is `beacon_block`. The last of a whole block's faults is `version`, where it is not the one of its
/// slot. Members that the op does not name are ignored. The error outside is want of memory.
pub fn read_request(
    alloc: Global,
    chain: &SessionChain,
    line: &[u8],
) -> Result<Result<Request, Member>, AllocError>
    ensures { IfOk result (λ read. read ≡ request_of chain.now line.now) }
{
    match read_line(alloc, chain, line) {
        Ok(request) => Ok(Ok(request)),
        Err(Unread::Member(member)) => Ok(Err(member)),
        Err(Unread::Memory) => Err(AllocError),
    }
}

fn read_line(alloc: Global, chain: &SessionChain, line: &[u8]) -> Result<Request, Unread>
    ensures { Gives result (request_of chain.now line.now) }
{
    match Value::from_slice(alloc, line) {
        Ok(value) => read_members(alloc, chain, &value),
        Err(error) => {
            if error.is_memory() {
                Err(Unread::Memory)
            } else {
                Err(Unread::Member(Member::Line))
            }
        }
    }
}

fn read_members(alloc: Global, chain: &SessionChain, value: &Value) -> Result<Request, Unread>
    ensures { Gives result (request_in chain.now (view value.now)) }
{
    if !value.is_object() {
        return Err(Unread::Member(Member::Line));
    }
    let op = op_of(alloc, chain, value)?;
    let epoch = epoch_of(value)?;
    Ok(Request { op, epoch })
}

fn op_of(alloc: Global, chain: &SessionChain, value: &Value) -> Result<Op, Unread>
    ensures { Gives result (op_in chain.now (view value.now)) }
{
    let Some(op) = text_of(value, "op") else {
        return Err(Unread::Member(Member::Op));
    };
    match op {
        "merge" => merge_of(alloc, value),
        "activate" => activate_of(value),
        "import" => import_of(alloc, value),
        "delete" => delete_of(alloc, value),
        "list" => Ok(Op::List),
        "block" => block_of(alloc, chain, value),
        "vote" => vote_of(alloc, chain, value),
        "export" => export_of(alloc, value),
        "prune" => prune_of(value),
        "live" => live_of(value),
        "compact" => Ok(Op::Compact),
        _ => Err(Unread::Member(Member::Op)),
    }
}

fn epoch_of(value: &Value) -> Result<Option<u64>, Member>
    ensures { result ≡ epoch_at (view value.now) }
{
    let Some(member) = value.get("epoch") else {
        return Ok(None);
    };
    let Some(epoch) = member.as_str().and_then(|text| read_quoted(text)) else {
        return Err(Member::Epoch);
    };
    if epoch > MOMENT_LIMIT {
        return Err(Member::Epoch);
    }
    Ok(Some(epoch))
}
