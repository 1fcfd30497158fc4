//! From the runs of all clients to the law.
ghost use Rattle.keymanager_api.specs.Serving.{LinkSeen};
ghost use Rattle.client_world.specs.Lives.{CommandLivesOn, Headline, ProxyLivesOn, ServiceLivesOn, SessionLivesOn};

use edge_kit::{Disk, Door};

/// Whatever runs of sessions, of commands on a journal, of the validator client and of the signing proxy any number of
/// clients made, one after a stop of the other: where all that they did so far is lawful, no two messages among those
/// signed before and those that they sent are slashable, and none is sent for a key between its Close and its next
/// activation. The last run of a client may have returned, or may go on or have been cut off between two of its acts: it
/// counts with what it had done, where it would return.
pub fn headline_law<D: Disk, R: Door>()
    ensures { (see : R.Conn → LinkSeen) → Headline D.moment D.leaves D.faults see }
{}

/// However one run more ends of a client that made such runs, over disks that show what a stop of it left, and of which
/// a crash leaves such files: the client did nothing in it, or it is one of them.
pub fn lives_law<D: Disk, R: Door>()
    ensures session { (see : R.Conn → LinkSeen) → SessionLivesOn D.shows D.moment D.leaves D.faults see }
    ensures command { (see : R.Conn → LinkSeen) → CommandLivesOn D.shows D.moment D.leaves D.faults see }
    ensures service { (see : R.Conn → LinkSeen) → ServiceLivesOn D.shows D.moment D.leaves D.faults see }
    ensures proxy { (see : R.Conn → LinkSeen) → ProxyLivesOn D.shows D.moment D.leaves D.faults see }
{}
