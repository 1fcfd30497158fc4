//! From a session's ending to the events of its client, and from there to the next opening.
ghost use Rattle.serve_world.specs.Events.{CallsRun, SessionRuns};
ghost use Rattle.serve_world.specs.Stopping.{CallsStop, SessionStops};
ghost use Rattle.serve_world.specs.Starting.{StartsAgain, StartsEmpty, StartsKeep};
ghost use Rattle.serve_world.specs.SessionRunning.{CommandGoesOn, RunGoesOn};
ghost use Rattle.serve_world.specs.Others.{OtherIdles};

use edge_kit::Disk;

/// However a session ends, what it did is a list of events of one client: they may happen from each state that the
/// desk stood for, one after the other; the messages that are sent in it are those of its signed lines, in order;
/// and at the end the desk stands for the state after them. Where the files that a crash at the start would have
/// left open to what the desk stood for, those that a crash at any moment of the session leaves open to what a stop
/// leaves after the first few of these events, maybe within the next; and those of the lines that were over by then,
/// as the disks stood after them, are among these few. Over disks that tell nothing of what they leave, as real files,
/// this says nothing of files.
pub fn session_law<D: Disk>()
    ensures runs { SessionRuns D.moment D.leaves D.faults }
    ensures stops { SessionStops D.moment D.leaves D.faults }
{}

/// So it is with calls of a desk, one after another, under which nothing is sent: each is an event, and a crash leaves
/// what a stop leaves after those that were over by then.
pub fn calls_law<D: Disk>()
    ensures runs { CallsRun D.moment D.leaves D.faults }
    ensures stops { CallsStop D.moment D.leaves D.faults }
{}

/// A desk that is opened over what such a stop left stands for the state after the stop, and a crash while it is
/// opened, or refused, leaves what such a stop leaves. Files that are no journal yet, or an empty one, are what a
/// stop leaves of a client that has done nothing.
pub fn start_law<D: Disk>()
    ensures again { StartsAgain D.shows D.moment D.leaves D.faults }
    ensures keep { StartsKeep D.shows D.moment D.leaves }
    ensures empty { StartsEmpty }
{}

/// However a run of the program that was asked for a session, a merge or a showing ends, over disks that show what a
/// stop of the client left, and of which a crash leaves such files: the client did nothing, and what a crash leaves is
/// as before; or it started, and what its lines did, as `session_law` says, or its one call, are events of it after
/// those before the stop. So the runs over one journal, one after another, are one list of events of one client, which
/// `handover_law` speaks of. A run that is asked for another chain than that of the journal does nothing to it: the
/// client's own next run finds what it would have found before.
pub fn run_law<D: Disk>()
    ensures session { RunGoesOn D.shows D.moment D.leaves D.faults }
    ensures command { CommandGoesOn D.shows D.moment D.leaves D.faults }
    ensures other { OtherIdles D.shows D.moment D.leaves D.faults }
{}
