//! The validator client and the signing proxy: the real objects, and the top call.
#![tactic(auto)]

ghost use Rattle.std.specs.Prelude.{◌≡◌, [], IfOk};
ghost use Rattle.edge_kit.specs.OnMemDisks.{disk_bytes};

mod secret_file;
mod token;

use crate::token::{TokenNote, TokenWords, token_words};
use beacon_node::BeaconNode;
use command_line::{ListenAddress, NodeTimeout, TokenText};
use edge_clock::{Halt, SystemClock};
use edge_door::{Callers, TcpDoor};
use edge_kit::{Disk, Disks, Door, MemDisk};
use edge_services::{ToldNode, ToldSigner, announce, link_to_signer, node_link};
use edge_sockets::{Peers, TcpLink};
use edge_system::{
    EpochCounts, EpochNotes, FileDisk, Reading, Reports, SetBack, StandardStream, StandardStreams,
    Standing, ToldClock, Writing,
};
use node_calls::Node;
use plan_places::{Places, Services, named};
use service_url::ServiceUrl;
use signer_link::{MemSigner, Signer};
use std::alloc::{AllocError, Global};
use std::fs::{File, Files};
use std::io::{Eprint, Input, Print};
use std::net::Net;
use std::process::ExitCode;
use std::rt::{Clock, Env};
use std::sync::{Arc, Wait};
use std::thread::Threads;
use std::{env, io};
use validator_cli::{Status, run_validator};
use web3_signer::Web3Signer;

/// Where the beacon nodes are, and how long a question to one may take.
#[derive(Drop)]
struct NodePlaces {
    services: Vec<ServiceUrl>,
    timeout: NodeTimeout,
}

/// Where connections are taken, if anywhere, of whom, how many, and the token that those of key managers must bear.
#[derive(Drop)]
struct DoorPlace {
    listen: Option<ListenAddress>,
    callers: Callers,
    connections: Option<u64>,
    token: Option<TokenText>,
}

/// What the objects of a run share: the halt that ends what the door and the clock wait for, what is known of an epoch,
/// which reports are made, and what a clock that is set back does.
#[derive(Clone, Copy)]
struct Shared<'a> {
    halt: &'a Halt,
    notes: &'a EpochNotes,
    reports: Reports,
    set_back: SetBack,
}

/// The words of the command line. Where one is no UTF-8 there are none, which is no command.
fn words<R: Env + AllocGlobal>(rt: &R) -> Result<Vec<String>, AllocError> {
    let mut words: Vec<String> = Vec::new(rt.alloc());
    let args = match env::args(rt) {
        Ok(args) => args,
        Err(error) if error.kind() == io::ErrorKind::OutOfMemory => return Err(AllocError),
        Err(_) => return Ok(words),
    };
    for word in args {
        words.push(word)?;
    }
    Ok(words)
}

/// Two empty disks in memory, which end with the run.
fn memory_disks(alloc: Global) -> Result<Disks<MemDisk>, AllocError>
    ensures { IfOk result (λ disks. (disk_bytes disks.first ≡ []) × (disk_bytes disks.second ≡ [])) }
{
    Ok(Disks {
        first: MemDisk::new(alloc, Vec::new(alloc), Vec::new(alloc), None)?,
        second: MemDisk::new(alloc, Vec::new(alloc), Vec::new(alloc), None)?,
    })
}

/// A beacon node over a link of the system, whose unreadable answers are reported.
type SystemNode<'a, R> = ToldNode<'a, BeaconNode<TcpLink<&'a R>>, &'a R>;

/// A signing service over a link of the system, whose unreadable answers are reported.
type SystemSigner<'a, R> = ToldSigner<Web3Signer<TcpLink<&'a R>>, &'a R>;

/// The signing service at an address.
fn signer_at<'a, R: Net + Eprint + Clock>(
    rt: &'a R,
    alloc: Global,
    service: ServiceUrl,
) -> Result<SystemSigner<'a, R>, AllocError> {
    let link = link_to_signer(rt, alloc, &service)?;
    let place = service.copy(alloc)?;
    Ok(ToldSigner::new(Web3Signer::new(link, service), place, rt))
}

/// The beacon nodes at these places, in their order.
fn nodes_at<'a, R: Net + Eprint + Clock>(
    rt: &'a R,
    alloc: Global,
    places: NodePlaces,
    shared: Shared<'a>,
) -> Result<Vec<SystemNode<'a, R>>, AllocError> {
    let NodePlaces { services, timeout } = places;
    let peers = Arc::new(alloc, Peers::new(alloc, services.len())?)?;
    let mut nodes = Vec::new(alloc);
    'services: for (index, service) in services.into_iter().enumerate() {
        let seconds = timeout.seconds();
        let link = node_link(rt, alloc, &service, seconds, &peers, index, shared.reports)?;
        nodes.push(node_over(rt, alloc, link, service, shared)?)?;
    }
    Ok(nodes)
}

/// The beacon node at an address, over a link to it.
fn node_over<'a, R: Net + Eprint + Clock>(
    rt: &'a R,
    alloc: Global,
    link: TcpLink<&'a R>,
    service: ServiceUrl,
    shared: Shared<'a>,
) -> Result<SystemNode<'a, R>, AllocError> {
    let place = service.copy(alloc)?;
    let node = BeaconNode::new(link, service);
    Ok(ToldNode::new(node, place, rt, shared.notes, shared.reports))
}

/// The door at an address, which the halt shuts; where there is none, one that is never opened.
fn door_at<'a, R: Net + Eprint + Clock>(
    rt: &'a R,
    alloc: Global,
    place: DoorPlace,
    shared: Shared<'a>,
) -> Result<TcpDoor<'a, &'a R>, AllocError> {
    let DoorPlace {
        listen,
        callers,
        connections,
        token,
    } = place;
    let (host, port) = match listen {
        Some(address) => {
            let host = address.host;
            (format!(in alloc; "{host}")?, address.port)
        }
        None => (String::new(alloc), 0),
    };
    let token = token.as_ref().map_or("", |token| token.as_str());
    let token = String::from_str(alloc, token)?;
    let mut door = TcpDoor::new(alloc, rt, host, port, token, shared.halt);
    door.set_callers(callers);
    door.set_reports(shared.reports);
    door.set_count(connections.unwrap_or(u64::MAX));
    Ok(door)
}

/// A run of the words over these disks, with the services that they name; with a signer in memory where they name none.
fn run_signing<
    R: Threads + Wait + Sync + Input + Print + Eprint + Net + Clock,
    D: Disk + Drop + Send,
>(
    rt: &R,
    alloc: Global,
    words: &[String],
    disks: Disks<D>,
    services: Services,
    shared: Shared<'_>,
) -> Status
where
    R::Stream: Send,
    R::Listener: Send,
{
    let Services {
        signer,
        nodes: services,
        timeout,
        listen,
        connections,
        token,
        quiet: _quiet,
        watch: _watch,
        is_proxy,
    } = services;
    let place = DoorPlace {
        listen,
        callers: callers_of(is_proxy),
        connections,
        token,
    };
    let nodes = NodePlaces {
        services,
        timeout: timeout.unwrap_or(NodeTimeout::two()),
    };
    let Some(service) = signer else {
        let signer = MemSigner::new(alloc, Vec::new(alloc), Vec::new(alloc));
        return run_asking(rt, alloc, words, disks, signer, nodes, place, shared);
    };
    let Ok(signer) = signer_at(rt, alloc, service) else {
        return Status::OutOfMemory;
    };
    run_asking(rt, alloc, words, disks, signer, nodes, place, shared)
}

/// A run of the words over these disks, with this signer, beacon nodes at these places, and a door at that place.
fn run_asking<
    R: Threads + Wait + Sync + Input + Print + Eprint + Net + Clock,
    D: Disk + Drop + Send,
    S: Signer + Drop + Send,
>(
    rt: &R,
    alloc: Global,
    words: &[String],
    disks: Disks<D>,
    signer: S,
    nodes: NodePlaces,
    place: DoorPlace,
    shared: Shared<'_>,
) -> Status
where
    R::Stream: Send,
    R::Listener: Send,
{
    match nodes_at(rt, alloc, nodes, shared) {
        Ok(nodes) => run_listening(rt, alloc, words, disks, signer, nodes, place, shared),
        Err(AllocError) => Status::OutOfMemory,
    }
}

/// A run of the words over these disks, with this signer and these nodes, and a door at this place.
fn run_listening<
    R: Threads + Wait + Sync + Input + Print + Eprint + Net + Clock,
    D: Disk + Drop + Send,
    S: Signer + Drop + Send,
    N: Node + Drop + Send,
>(
    rt: &R,
    alloc: Global,
    words: &[String],
    disks: Disks<D>,
    signer: S,
    nodes: Vec<N>,
    place: DoorPlace,
    shared: Shared<'_>,
) -> Status
where
    R::Stream: Send,
    R::Listener: Send,
{
    match door_at(rt, alloc, place, shared) {
        Ok(door) => run(rt, alloc, words, disks, signer, nodes, door, shared),
        Err(AllocError) => Status::OutOfMemory,
    }
}

/// A run of the words over these objects, which the halt ends.
fn run<
    R: Threads + Wait + Sync + Input + Print + Eprint + Clock,
    D: Disk + Drop + Send,
    S: Signer + Drop + Send,
    N: Node + Drop + Send,
    E: Door + Drop + Send,
>(
    rt: &R,
    alloc: Global,
    words: &[String],
    disks: Disks<D>,
    signer: S,
    nodes: Vec<N>,
    door: E,
    shared: Shared<'_>,
) -> Status
where
    E::Conn: Send + Drop,
{
    let Shared {
        halt,
        notes,
        reports,
        set_back,
    } = shared;
    let mut input = Reading::new(rt.reader(), rt);
    let output = Writing::new(io::writer(rt), rt);
    let mut output = EpochCounts::new(alloc, output, rt, notes, reports);
    let ending = run_validator(
        rt,
        alloc,
        words,
        disks,
        signer,
        nodes,
        ToldClock::new(SystemClock::new(rt, halt), rt, notes, set_back),
        door,
        &mut input,
        &mut output,
    );
    output.end();
    ending.status
}

/// Two disks over files, each apart from the other.
fn file_disks<'a, R: Files<File = File> + Eprint>(
    rt: &'a R,
    alloc: Global,
    first: String,
    second: String,
) -> Result<Disks<FileDisk<&'a R>>, AllocError> {
    let other = String::from_str(alloc, second.as_str())?;
    let another = String::from_str(alloc, first.as_str())?;
    Ok(Disks {
        first: FileDisk::new(rt, first).apart_from(other),
        second: FileDisk::new(rt, second).apart_from(another),
    })
}

/// The paths of the files of the journal that the words name, if they name one.
fn journal_paths(places: &Places) -> Option<(&str, &str)> {
    match &places.files {
        Some((first, second)) => Some((first.as_str(), second.as_str())),
        None => None,
    }
}

/// Writes a line to standard error, unless its file is a journal's, or may be.
fn tell<R: Files<File = File> + Eprint>(rt: &R, places: &Places, why: &str) {
    if StandardStream::Error.standing(rt, journal_paths(places)) == Standing::Apart {
        let _ = eprintln!(rt; "validator: {why}");
    }
}

/// Whether nothing that is written to standard output or standard error goes into a file of a journal. Where something
/// would, or may, only the other of the two streams reports it; where both would, none does. Where the words name no
/// journal, what the system does not show bars nothing.
fn are_apart<R: Files<File = File> + Print + Eprint>(rt: &R, places: &Places) -> bool {
    let journal = journal_paths(places);
    let output = StandardStream::Output.standing(rt, journal);
    let error = StandardStream::Error.standing(rt, journal);
    match (output, error) {
        (Standing::Apart, Standing::Apart) => true,
        (Standing::Journal, Standing::Apart) => {
            let _ = eprintln!(rt; "validator: standard output is a file of a journal");
            false
        }
        (Standing::Apart, Standing::Journal) => {
            let _ = println!(rt; "validator: standard error is a file of a journal");
            false
        }
        (Standing::Journal, _) | (_, Standing::Journal) => false,
        _ => journal.is_none() || tell_unknown(rt, output, error),
    }
}

/// Reports that of one stream it cannot be seen whether its file is the journal's, on the other one, where that is apart.
/// Answers that the run may not go on.
fn tell_unknown<R: Print + Eprint>(rt: &R, output: Standing, error: Standing) -> bool {
    const UNKNOWN: &str =
        "validator: it cannot be seen whether the other output is a file of the journal";
    match (output, error) {
        (Standing::Apart, _) => {
            let _ = println!(rt; "{UNKNOWN}");
        }
        (_, Standing::Apart) => {
            let _ = eprintln!(rt; "{UNKNOWN}");
        }
        _ => {}
    }
    false
}

/// What a run begins with.
struct Begun {
    /// What keeps the numbers of the standard streams from what is opened.
    streams: StandardStreams,
    /// The words of the command line, with the token in them.
    words: Vec<String>,
    /// What they name of the outside.
    places: Places,
}

/// The words of the command line with the token in them, and what they name of the outside.
fn named_words<R: Files<File = File> + Env + AllocGlobal>(
    rt: &R,
) -> Result<(TokenWords, Places), AllocError> {
    let given = token_words(rt, rt.alloc(), words(rt)?)?;
    let places = named(rt.alloc(), given.words.as_slice())?;
    Ok((given, places))
}

/// Reads the words, and the file of the token, which is closed again before the standard streams are taken; these are taken
/// before anything else is opened. Without a standard output nothing is begun, since nothing could be answered; nor where
/// an output is a file of a journal, or the token could not be read.
fn begin<R: Files<File = File> + Env + Print + Eprint + AllocGlobal>(
    rt: &R,
) -> Result<Begun, Status> {
    let Ok((given, places)) = named_words(rt) else {
        return Err(Status::OutOfMemory);
    };
    let TokenWords { words, note } = given;
    let streams = take_streams(rt, &places)?;
    tell_note(rt, &places, &note)?;
    Ok(Begun {
        streams,
        words,
        places,
    })
}

/// Tells what is to be told of the file of the token. Where it is refused, so are the words.
fn tell_note<R: Files<File = File> + Eprint>(
    rt: &R,
    places: &Places,
    note: &TokenNote,
) -> Result<(), Status> {
    match note {
        TokenNote::Nothing => Ok(()),
        TokenNote::Warning(line) => {
            tell(rt, places, line.as_str());
            Ok(())
        }
        TokenNote::Refusal(line) => {
            tell(rt, places, line.as_str());
            Err(Status::Usage)
        }
    }
}

/// Takes the standard streams, and looks whether the outputs are there and apart from the journal.
fn take_streams<R: Files<File = File> + Print + Eprint>(
    rt: &R,
    places: &Places,
) -> Result<StandardStreams, Status> {
    let Ok(streams) = StandardStreams::take(rt) else {
        tell(
            rt,
            places,
            "the standard streams cannot be taken: no /dev/null, or too many open files",
        );
        return Err(Status::WriteFault);
    };
    if !streams.has_output() {
        tell(rt, places, "standard output is closed");
        return Err(Status::WriteFault);
    }
    if are_apart(rt, places) {
        Ok(streams)
    } else {
        Err(Status::DiskFault)
    }
}

/// Who calls at the door of a signing proxy, or of another server.
fn callers_of(is_proxy: bool) -> Callers {
    if is_proxy {
        Callers::ValidatorClients
    } else {
        Callers::KeyManagers
    }
}

/// Which reports are made by a server that is quiet, or by one that is not.
fn reports_of(quiet: bool) -> Reports {
    if quiet { Reports::Faults } else { Reports::All }
}

/// What a clock that is set back does to a server that watches keys, or to one that does not.
fn set_back_of(watch: bool) -> SetBack {
    if watch {
        SetBack::Halts
    } else {
        SetBack::GoesOn
    }
}

/// The status of the run: over the files of the journal that the words name, else over disks in memory; and with the
/// services that they name. The standard streams are kept to the end.
fn main(rt: HostRuntime) -> ExitCode {
    let Begun {
        streams,
        words,
        places,
    } = match begin(&rt) {
        Ok(begun) => begun,
        Err(status) => return ExitCode::from(status.code()),
    };
    let alloc = rt.alloc();
    let Places { files, services } = places;
    let _ = announce(&rt, alloc, words.as_slice());
    let (halt, notes) = (Halt::new(), EpochNotes::new());
    let shared = Shared {
        halt: &halt,
        notes: &notes,
        reports: reports_of(services.quiet),
        set_back: set_back_of(services.watch),
    };
    let status = match files {
        Some((first, second)) => match file_disks(&rt, alloc, first, second) {
            Ok(disks) => run_signing(&rt, alloc, words.as_slice(), disks, services, shared),
            Err(AllocError) => Status::OutOfMemory,
        },
        None => match memory_disks(alloc) {
            Ok(disks) => run_signing(&rt, alloc, words.as_slice(), disks, services, shared),
            Err(AllocError) => Status::OutOfMemory,
        },
    };
    drop(streams);
    ExitCode::from(status.code())
}
