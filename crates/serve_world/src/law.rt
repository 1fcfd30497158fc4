//! From the ending of a run of the validator client to the events of its client.
ghost use Rattle.keymanager_api.specs.Serving.{LinkSeen};
ghost use Rattle.serve_world.specs.Serving.{ActsKeepOrder, ServeRuns, ServeStops, ServeTold};
ghost use Rattle.serve_world.specs.Custody.{DeletionsAnswered, DeletionsInOrder, ImportsInOrder};
ghost use Rattle.serve_world.specs.Running.{OtherServiceIdles, ServiceGoesOn};
ghost use Rattle.serve_world.specs.Silence.{ServeSilent, ServeUngranted};
ghost use Rattle.serve_world.specs.Repeating.{RepeatsChangeNothing};
ghost use Rattle.serve_world.specs.Retrying.{ServeDeletesAgain, ServeImportsAgain};

use edge_kit::{Disk, Door};

/// What a client did that served over its desk is a list of events of one client: the turns of its one history, each a
/// call, and among them what its lanes posted, each message after the turn that gave its grant and before the one that
/// settled it. There is such a list. Each that keeps the order of each thread may happen from whichever state the desk
/// stood for, whatever order the posts of several threads have among them, and leads to what the desk stands for in the
/// end. A crash at any moment leaves what a stop leaves after those acts that were over, maybe within the next call.
pub fn serve_law<D: Disk, R: Door>()
    ensures told { (see : R.Conn → LinkSeen) → ServeTold D.moment D.leaves D.faults see }
    ensures runs { (see : R.Conn → LinkSeen) → ServeRuns D.moment D.leaves D.faults see }
    ensures stops { (see : R.Conn → LinkSeen) → ServeStops D.moment D.leaves D.faults see }
    ensures order { ActsKeepOrder }
{}

/// A key that a deletion says is deleted was closed by the deletion's calls, and what the deletion hands out was exported
/// after that; none of these calls makes a key active. So it stands among the acts of a client too, where a connection
/// was answered so, by the calls of that very visit. An import, whatever comes of it, makes no key active before its file
/// is merged, and each key that it says is imported it made active after that.
pub fn custody_order_law<D: Disk, R: Door>()
    ensures deletions { DeletionsInOrder }
    ensures imports { ImportsInOrder }
    ensures answered { (see : R.Conn → LinkSeen) → DeletionsAnswered D.moment D.leaves D.faults see }
{}

/// Of a client that served over its desk: between a Close of a key and its next activation nothing is granted for the key
/// and nothing of it is posted, and nothing before the first activation of a key that was not active when the desk was
/// opened. This is so whatever was called, and wants no lawful events.
pub fn silence_law<D: Disk, R: Door>()
    ensures granted { (see : R.Conn → LinkSeen) → ServeUngranted D.moment D.leaves D.faults see }
    ensures sent { (see : R.Conn → LinkSeen) → ServeSilent D.moment D.leaves D.faults see }
{}

/// A proposal that was granted and comes again, anywhere later, over calls and stops of the client, writes nothing and
/// changes no record, whether it is granted again or not.
pub fn repeat_law()
    ensures { RepeatsChangeNothing }
{}

/// A deletion that was carried out without error and comes again while a client serves changes nothing, and asks the
/// signer nothing, where no key of it became active between, whatever others call between any two of its calls. An import
/// that was carried out without error and comes again leaves every record, state, watch and open grant, and asks the signer
/// nothing, where no deletion of a key of it was begun between; its file may be written again.
pub fn again_law<D: Disk, R: Door>()
    ensures deletions { (see : R.Conn → LinkSeen) → ServeDeletesAgain D.moment D.leaves D.faults see }
    ensures imports { (see : R.Conn → LinkSeen) → ServeImportsAgain D.moment D.leaves D.faults see }
{}

/// However a run of the program ends that was asked for the validator client, over disks that show what a stop of the
/// client left, and of which a crash leaves such files: the client did nothing but ask its nodes what a start asks, and
/// what a crash leaves is as before; or it started with the parts and over the disks that were handed in, and what it did
/// is a list of events after those before the stop, as `serve_law` says. Where its words name another chain than that of
/// the journal, no desk is opened, and the journal stays as it was.
pub fn service_law<D: Disk, R: Door>()
    ensures goes_on { (see : R.Conn → LinkSeen) → ServiceGoesOn D.shows D.moment D.leaves D.faults see }
    ensures other { (see : R.Conn → LinkSeen) → OtherServiceIdles D.shows D.moment D.leaves D.faults see }
{}
