//! A call of the desk, and what custody of keys reads of the reply.
ghost use Rattle.std.specs.Prelude.{◌≡◌, []};
ghost use Rattle.desk_machine.specs.Given.{MayMake};
ghost use Rattle.key_custody.specs.Replies.{Asked, ClosesKey, IsNoGrant, IsOfCustody, replied_of};

use crate::status::DeskRefusal;
use desk_machine::{DeskCall, DeskCalls, DeskReply, KeyStandings};
use edge_kit::PubKey;
use slash_defs::File;

/// A reply of the desk, as far as custody of keys reads it.
#[derive(Drop)]
pub(crate) enum Replied {
    /// The file is merged.
    Merged,
    /// The key is active from now on.
    Active,
    /// The key was active.
    Already,
    /// The key is being closed, from now on or from before.
    Closing,
    /// The key is closed.
    Closed,
    /// The interchange file.
    Exported(File),
    /// The kept keys, each with how it stands.
    Listed(KeyStandings),
    /// No past is kept of the key.
    Unknown,
    /// The key is neither active nor being closed.
    NotActive,
    /// The desk refused.
    Refused(DeskRefusal),
    /// Memory ran out, or the reply is none to a call that custody makes.
    Nothing,
}

/// Asks the desk.
pub(crate) fn ask<K: DeskCalls>(desk: &mut K, call: DeskCall) -> Replied
    requires ready { K.ready desk.old }
    requires may { MayMake [] call }
    requires custody { IsOfCustody call }
    ensures ready { K.ready desk.new }
    ensures asked { Asked K.leads desk.old desk.new call result }
{
    read(desk.call(call))
}

/// Has the desk close a key once none of its grants is open.
pub(crate) fn close<K: DeskCalls>(desk: &mut K, key: &PubKey) -> Replied
    requires ready { K.ready desk.old }
    ensures ready { K.ready desk.new }
    ensures closes { ClosesKey K.leads desk.old desk.new key.now result }
{
    read(desk.close_idle(key))
}

/// What custody reads of a reply.
fn read(reply: DeskReply) -> Replied
    requires { IsNoGrant reply }
    ensures { result ≡ replied_of reply }
{
    match reply {
        DeskReply::Merged { keys: _ } => Replied::Merged,
        DeskReply::Active => Replied::Active,
        DeskReply::Already => Replied::Already,
        DeskReply::CloseBegun | DeskReply::AlreadyClosing => Replied::Closing,
        DeskReply::Closed(_book) => Replied::Closed,
        DeskReply::Exported(file) => Replied::Exported(file),
        DeskReply::Keys(listed) => Replied::Listed(listed),
        DeskReply::Unknown => Replied::Unknown,
        DeskReply::NotActive => Replied::NotActive,
        DeskReply::GenesisDiffers { kept, given } => {
            Replied::Refused(DeskRefusal::GenesisDiffers { kept, given })
        }
        DeskReply::TooManyKeys { have, new } => {
            Replied::Refused(DeskRefusal::TooManyKeys { have, new })
        }
        DeskReply::Full { size, wanted } => Replied::Refused(DeskRefusal::Full { size, wanted }),
        DeskReply::Disk => Replied::Refused(DeskRefusal::Disk),
        DeskReply::Closing => Replied::Refused(DeskRefusal::Closing),
        DeskReply::NotClosing(state) => Replied::Refused(DeskRefusal::NotClosing(state)),
        DeskReply::Busy { grants } => Replied::Refused(DeskRefusal::Busy { grants }),
        DeskReply::Granted(_grant) => unreachable!(),
        DeskReply::Pruned(_book) => Replied::Nothing,
        DeskReply::Noted | DeskReply::Settled | DeskReply::HasFailed(_) => Replied::Nothing,
        DeskReply::Size { size: _, weight: _ } | DeskReply::LastGeneration => Replied::Nothing,
        DeskReply::Compacted {
            before: _,
            after: _,
        } => Replied::Nothing,
        DeskReply::Live { epoch: _ } => Replied::Nothing,
        DeskReply::Watching {
            first: _,
            second: _,
        } => Replied::Nothing,
        DeskReply::Refused(_) | DeskReply::OutOfMemory => Replied::Nothing,
        DeskReply::Recorded | DeskReply::Unfit => Replied::Nothing,
    }
}
