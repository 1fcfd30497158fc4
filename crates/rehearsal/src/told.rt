//! What a client reads of its desk's replies.
ghost use Rattle.std.specs.Prelude.{◌≡◌, IfOk};
ghost use Rattle.rehearsal.specs.Clients.{IsNoGrant, is_refusal_told, told_of};
ghost use Rattle.rehearsal.specs.Plays.{IsGiven, counted};

use check_sign::DeskReply;
use slash_defs::Book;
use std::alloc::AllocError;

/// What a reply tells that is no grant.
#[derive(Drop)]
pub(crate) enum Told {
    /// A file is merged.
    Merged,
    /// A key is closed, and this is handed out of it.
    Closed(Book),
    /// Another.
    Other,
}

/// What became of a proposal.
#[derive(Clone, Copy)]
pub(crate) enum Voted {
    /// It was granted, signed and sent.
    Sent,
    /// It was refused.
    Refused,
    /// The disk stopped in it.
    Torn,
}

impl Voted {
    /// One where it was refused, else 0.
    pub(crate) fn refusals(&self) -> u64
        ensures { result ≡ counted (is_refusal_told self.now) }
    {
        match self {
            Voted::Refused => 1,
            Voted::Sent | Voted::Torn => 0,
        }
    }
}

/// What a reply tells. The error is want of memory, which a disk in memory that is not to stop has, too, where it
/// fails.
pub(crate) fn read(reply: DeskReply) -> Result<Told, AllocError>
    requires { IsNoGrant reply }
    ensures told { IfOk result (λ told. told ≡ told_of reply) }
    ensures given { IfOk result (λ _. IsGiven reply) }
{
    match reply {
        DeskReply::OutOfMemory | DeskReply::Disk => Err(AllocError),
        DeskReply::Merged { keys: _ } => Ok(Told::Merged),
        DeskReply::Closed(book) => Ok(Told::Closed(book)),
        DeskReply::Granted(_grant) => unreachable!(),
        DeskReply::Active | DeskReply::Already | DeskReply::CloseBegun => Ok(Told::Other),
        DeskReply::AlreadyClosing | DeskReply::Noted | DeskReply::Settled => Ok(Told::Other),
        DeskReply::Unknown | DeskReply::NotActive | DeskReply::Closing => Ok(Told::Other),
        DeskReply::Exported(_) => Ok(Told::Other),
        DeskReply::Pruned(_) | DeskReply::Recorded | DeskReply::Unfit => Ok(Told::Other),
        DeskReply::Keys(_) => Ok(Told::Other),
        DeskReply::HasFailed(_) | DeskReply::NotClosing(_) | DeskReply::Refused(_) => {
            Ok(Told::Other)
        }
        DeskReply::Size { size: _, weight: _ } | DeskReply::LastGeneration => Ok(Told::Other),
        DeskReply::Compacted {
            before: _,
            after: _,
        } => Ok(Told::Other),
        DeskReply::GenesisDiffers { kept: _, given: _ } => Ok(Told::Other),
        DeskReply::Live { epoch: _ } | DeskReply::Busy { grants: _ } => Ok(Told::Other),
        DeskReply::Watching {
            first: _,
            second: _,
        } => Ok(Told::Other),
        DeskReply::TooManyKeys { have: _, new: _ } => Ok(Told::Other),
        DeskReply::Full { size: _, wanted: _ } => Ok(Told::Other),
    }
}
