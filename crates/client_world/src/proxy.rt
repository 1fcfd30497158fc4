//! From the ending of a run of the signing proxy to the events of its client.
ghost use Rattle.keymanager_api.specs.Serving.{LinkSeen};
ghost use Rattle.client_world.specs.Acts.{ProxyRuns, ProxyStops, ProxyTold};
ghost use Rattle.client_world.specs.Running.{OtherProxyIdles, ProxyGoesOn};
ghost use Rattle.client_world.specs.Silence.{ProxySilent, ProxyUngranted};

use edge_kit::{Disk, Door};

/// What a client did that served as a signing proxy over its desk is a list of events of one client: the turns of its one
/// history, each a call, and among them what its lanes sent, the message of each signature whose reply was begun, after
/// the turn that gave its grant and before the one that settled it as sent. There is such a list. Each that keeps the
/// order of each lane may happen from whichever state the desk stood for, whatever order the messages of several lanes
/// have among them, and leads to what the desk stands for in the end. A crash at any moment leaves what a stop leaves
/// after those acts that were over, maybe within the next call.
pub fn proxy_law<D: Disk, R: Door>()
    ensures told { (see : R.Conn → LinkSeen) → ProxyTold D.moment D.leaves D.faults see }
    ensures runs { (see : R.Conn → LinkSeen) → ProxyRuns D.moment D.leaves D.faults see }
    ensures stops { (see : R.Conn → LinkSeen) → ProxyStops D.moment D.leaves D.faults see }
{}

/// Of a client that served as a signing proxy over its desk: between a Close of a key and its next activation nothing is
/// granted for the key and nothing of it is sent, and nothing before the first activation of a key that was not active when
/// the desk was opened. This is so whatever was called, and wants no lawful events.
pub fn proxy_silence_law<D: Disk, R: Door>()
    ensures granted { (see : R.Conn → LinkSeen) → ProxyUngranted D.moment D.leaves D.faults see }
    ensures sent { (see : R.Conn → LinkSeen) → ProxySilent D.moment D.leaves D.faults see }
{}

/// However a run of the program ends that was asked for the signing proxy, over disks that show what a stop of the client
/// left, and of which a crash leaves such files: the client did nothing, and what a crash leaves is as before; or it
/// started over the disks that were handed in, at the epoch of a moment that the clock showed and without a watch, and what
/// it did is a list of events after those before the stop, as `proxy_law` says. Where its words name another chain than that
/// of the journal, no desk is opened, and the journal stays as it was.
pub fn proxy_service_law<D: Disk, R: Door>()
    ensures goes_on { (see : R.Conn → LinkSeen) → ProxyGoesOn D.shows D.moment D.leaves D.faults see }
    ensures other { (see : R.Conn → LinkSeen) → OtherProxyIdles D.shows D.moment D.leaves D.faults see }
{}
