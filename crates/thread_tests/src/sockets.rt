//! A listener of the system as a door, and a connection of it as a link.
use edge_clock::Halt;
use edge_door::{TcpConn, TcpDoor};
use edge_kit::{Door, Failed, Link};
use edge_sockets::{Peers, TcpLink};
use std::alloc::{AllocError, Global};
use std::io::{Eprint, Read, Write};
use std::net::{Net, OpenListener, OpenStream, TcpListener, TcpStream};
use std::process::Abort;
use std::rt::Clock;
use std::sync::Arc;
use std::test::Fail;
use std::thread::join;
use std::time::{Duration, Instant};
use std::{io, thread};

/// A call of a link, and what it answers.
#[derive(Clone, Copy)]
enum Step {
    Connect(Result<(), Failed>),
    /// The byte `z` is sent.
    Send(Result<usize, Failed>),
    /// A byte is received, which is 0 where none comes.
    Recv(Result<usize, Failed>, u8),
    HangUp,
}

/// Nothing is sent before the link is connected.
const BEGUN: [Step; 2] = [Step::Send(Err(Failed)), Step::Connect(Ok(()))];

/// A peer that has said a byte is refused.
const REFUSED: [Step; 5] = [
    Step::Recv(Ok(1), b'a'),
    Step::Send(Ok(1)),
    Step::Send(Ok(1)),
    Step::Send(Ok(1)),
    Step::HangUp,
];

/// A peer says two bytes, and ends.
const HEARD: [Step; 4] = [
    Step::Recv(Ok(1), b'a'),
    Step::Recv(Ok(1), b'b'),
    Step::Recv(Ok(0), 0),
    Step::HangUp,
];

/// A peer is asked, and says nothing.
const UNHEARD: [Step; 5] = [
    Step::Connect(Ok(())),
    Step::Send(Ok(1)),
    Step::Recv(Err(Failed), 0),
    Step::Recv(Err(Failed), 0),
    Step::HangUp,
];

/// A peer is not reached.
const UNSENT: [Step; 2] = [Step::Connect(Ok(())), Step::Send(Err(Failed))];

/// Each call of a connection that is not there fails.
const ABSENT: [Step; 3] = [
    Step::Send(Err(Failed)),
    Step::Recv(Err(Failed), 0),
    Step::Connect(Err(Failed)),
];

/// A connection is ended, and its calls fail.
const ENDED: [Step; 3] = [
    Step::HangUp,
    Step::Send(Err(Failed)),
    Step::Connect(Err(Failed)),
];

/// Whether a link answers a call as is wanted.
fn answers<L: Link>(link: &mut L, step: Step) -> bool {
    let mut byte = [0];
    match step {
        Step::Connect(wanted) => link.connect() == wanted,
        Step::Send(wanted) => link.send(b"z") == wanted,
        Step::Recv(wanted, heard) => link.recv(&mut byte) == wanted && byte[0] == heard,
        Step::HangUp => link.hang_up().is_ok(),
    }
}

/// Makes calls of a link, up to the first that it answers otherwise than is wanted. Whether there is none.
fn play<L: Link>(link: &mut L, steps: &[Step]) -> bool {
    for step in steps {
        if !answers(link, *step) {
            return false;
        }
    }
    true
}

/// Sends a byte to a peer. Whether the peer hears it.
fn speak<L: Link, S: Read>(link: &mut L, peer: &mut S) -> bool {
    let mut byte = [0];
    play(link, &[Step::Send(Ok(1))]) && peer.read_exact(&mut byte).is_ok() && byte == *b"z"
}

/// A door at a port of this machine, which can't be opened while another listener has the port.
fn shut_door<'a, N: Net + Eprint + Clock + Abort + Copy + Drop>(
    rt: N,
    alloc: Global,
    halt: &'a Halt,
) -> Result<(TcpDoor<'a, N>, u16), Fail> {
    let free = TcpListener::bind(&rt, "127.0.0.1:0")?;
    let port = free.local_addr()?.port();
    let host = String::from_str(alloc, "127.0.0.1")?;
    let mut door = TcpDoor::new(alloc, rt, host, port, String::new(alloc), halt);
    assert!(rt; door.accept().is_err());
    Ok((door, port))
}

/// Whether each call of the twin of a connection fails.
fn fails_as_twin<S: Read + Write + OpenStream + Drop, C: Eprint + Clock + Copy + Drop>(
    alloc: Global,
    conn: &TcpConn<S, C>,
) -> bool {
    match conn.twin(alloc) {
        Ok(mut twin) => play(&mut twin, &ABSENT) && twin.faults() == 3,
        Err(_) => false,
    }
}

/// Talks with a peer that has said a byte, over a connection, and ends it. Each call of a twin of it fails. Whether all goes
/// as is wanted.
fn talk<S: Read + Write + OpenStream + Drop, C: Eprint + Clock + Copy + Drop>(
    alloc: Global,
    conn: &mut TcpConn<S, C>,
    peer: &mut S,
) -> bool {
    play(conn, &[Step::Recv(Ok(1), b'a')])
        && fails_as_twin(alloc, conn)
        && speak(conn, peer)
        && play(conn, &ENDED)
        && conn.faults() == 2
}

/// Talks with a peer over the connection that a door accepts next. Whether all goes as is wanted.
fn serve<N: Net + Eprint + Clock + Copy + Drop>(
    alloc: Global,
    door: &mut TcpDoor<'_, N>,
    peer: &mut N::Stream,
) -> bool {
    let Ok(Some(mut conn)) = door.accept() else {
        return false;
    };
    let is_wanted = talk(alloc, &mut conn, peer);
    door.finish(conn);
    is_wanted
}

#[test]
fn a_listener_is_a_door(rt: HostRuntime) -> Result<(), Fail> {
    let halt = Halt::new();
    let (mut door, port) = shut_door(&rt, rt.alloc(), &halt)?;
    assert!(rt; door.listen().is_ok());
    let mut peer = TcpStream::connect(&rt, ("127.0.0.1", port))?;
    peer.write_all(b"a")?;
    assert!(rt; serve(rt.alloc(), &mut door, &mut peer));
    assert!(rt; door.faults() == 1);
    Ok(())
}

#[test]
fn a_door_that_is_halted_accepts_none(rt: HostRuntime) -> Result<(), Fail> {
    let halt = Halt::new();
    let (mut door, _port) = shut_door(&rt, rt.alloc(), &halt)?;
    halt.raise();
    assert!(rt; matches!(door.accept(), Ok(None)));
    Ok(())
}

/// Raises a halt after 200 milliseconds.
fn raise_later<C: Clock>(rt: &C, halt: &Halt) {
    thread::sleep(rt, Duration::from_millis(200));
    halt.raise();
}

#[test]
fn a_halt_ends_the_wait_of_a_door(rt: HostRuntime) -> Result<(), Fail> {
    let halt = Halt::new();
    let (mut door, _port) = shut_door(&rt, rt.alloc(), &halt)?;
    let begun = Instant::now(&rt)?;
    let ((), accepted) = join(&rt, || raise_later(&rt, &halt), || door.accept());
    assert!(rt; matches!(accepted, Ok(None)));
    assert!(rt; begun.elapsed(&rt)? < Duration::from_millis(1_200));
    Ok(())
}

/// Connects to a port, says 8 megabytes, and answers whether a reply of three bytes `z` comes then, and the end.
fn is_answered<N: Net>(rt: &N, port: u16) -> io::Result<bool> {
    let mut peer = TcpStream::connect(rt, ("127.0.0.1", port))?;
    for _ in 0..2_000 {
        peer.write_all(&[b'a'; 4096])?;
    }
    let mut reply = [0; 3];
    peer.read_exact(&mut reply)?;
    Ok(reply == *b"zzz" && peer.read(&mut reply)? == 0)
}

/// Refuses the peer of the connection that a door accepts next. Whether all goes as is wanted.
fn refuse<N: Net + Eprint + Clock + Copy + Drop>(door: &mut TcpDoor<'_, N>) -> bool {
    let Ok(Some(mut conn)) = door.accept() else {
        return false;
    };
    let is_wanted = play(&mut conn, &REFUSED);
    door.finish(conn);
    is_wanted
}

#[test]
fn a_peer_that_is_refused_gets_its_reply_whole(rt: HostRuntime) -> Result<(), Fail> {
    let halt = Halt::new();
    let (mut door, port) = shut_door(&rt, rt.alloc(), &halt)?;
    assert!(rt; door.listen().is_ok());
    let (is_answered, is_refused) = join(
        &rt,
        || is_answered(&rt, port).unwrap_or(false),
        || refuse(&mut door),
    );
    assert!(rt; is_answered && is_refused);
    Ok(())
}

/// A link to a listener at a free port of this machine, whose exchanges may last that many milliseconds.
fn link_to<N: Net + Eprint + Clock + Drop>(
    rt: N,
    alloc: Global,
    listener: &N::Listener,
    limit: u64,
) -> io::Result<TcpLink<N>> {
    let port = listener.local_addr()?.port();
    let mut link = TcpLink::new(alloc, rt, String::from_str(alloc, "localhost")?, port);
    link.set_limit(Duration::from_millis(limit));
    Ok(link)
}

/// Connects a link to a listener, after a send that fails, and says a byte to the peer, which is given. None where something
/// is not as is wanted.
fn connected<L: Link, O: OpenListener>(link: &mut L, listener: &O) -> Option<O::Stream>
where
    O::Stream: Read,
{
    if !play(link, &BEGUN) {
        return None;
    }
    let (mut peer, _) = listener.accept().ok()?;
    if speak(link, &mut peer) {
        Some(peer)
    } else {
        None
    }
}

/// Talks over a link with the peer at a listener, which says two bytes and then ends. Whether all goes as is wanted.
fn hear<L: Link, O: OpenListener>(link: &mut L, listener: &O) -> bool
where
    O::Stream: Read + Write,
{
    let Some(mut peer) = connected(link, listener) else {
        return false;
    };
    let is_said = peer.write_all(b"ab").is_ok();
    drop(peer);
    is_said && play(link, &HEARD)
}

#[test]
fn a_connection_is_a_link(rt: HostRuntime) -> Result<(), Fail> {
    let listener = TcpListener::bind(&rt, "127.0.0.1:0")?;
    let mut link = link_to(&rt, rt.alloc(), &listener, 20_000)?;
    assert!(rt; hear(&mut link, &listener));
    drop(listener);
    assert!(rt; play(&mut link, &[Step::Connect(Err(Failed))]));
    assert!(rt; link.faults() == 2);
    Ok(())
}

/// Talks over a new twin of a link with a peer of its own. Whether all goes as is wanted.
fn talk_as_twin<L: Link, O: OpenListener>(twin: &mut L, listener: &O) -> bool
where
    O::Stream: Read + Drop,
{
    match connected(twin, listener) {
        Some(_peer) => play(twin, &[Step::HangUp, Step::Send(Err(Failed))]),
        None => false,
    }
}

#[test]
fn a_twin_is_a_connection_of_its_own(rt: HostRuntime) -> Result<(), Fail> {
    let listener = TcpListener::bind(&rt, "127.0.0.1:0")?;
    let mut link = link_to(&rt, rt.alloc(), &listener, 20_000)?;
    assert!(rt; play(&mut link, &BEGUN));
    let (mut peer, _) = listener.accept()?;
    let mut twin = link.twin(rt.alloc())?;
    assert!(rt; twin.faults() == 0 && talk_as_twin(&mut twin, &listener));
    assert!(rt; twin.faults() == 2);
    assert!(rt; speak(&mut link, &mut peer) && link.faults() == 1);
    Ok(())
}

/// Asks a peer that says nothing, and answers how long that took; nothing where something is not as is wanted.
fn time_unheard<T: Clock, L: Link>(rt: &T, link: &mut L) -> io::Result<Option<Duration>> {
    let begun = Instant::now(rt)?;
    if !play(link, &UNHEARD) {
        return Ok(None);
    }
    Ok(Some(begun.elapsed(rt)?))
}

/// Whether so long is the limit of two seconds, once.
fn is_one_limit(spent: Duration) -> bool {
    spent >= Duration::from_millis(1_900) && spent < Duration::from_millis(3_800)
}

#[test]
fn a_silent_peer_costs_the_limit_once(rt: HostRuntime) -> Result<(), Fail> {
    let listener = TcpListener::bind(&rt, "127.0.0.1:0")?;
    let mut link = link_to(&rt, rt.alloc(), &listener, 2_000)?;
    let spent = time_unheard(&rt, &mut link)?;
    assert!(rt; spent.is_some_and(is_one_limit));
    Ok(())
}

/// Receives from a peer that says a byte each 50 milliseconds, until that fails, and answers how many came.
fn count_drips<C: Clock, L: Link, W: Write>(rt: &C, link: &mut L, peer: &mut W) -> io::Result<u64> {
    for count in 0..1_000 {
        peer.write_all(b"a")?;
        if link.recv(&mut [0]).is_err() {
            return Ok(count);
        }
        thread::sleep(rt, Duration::from_millis(50));
    }
    Ok(1_000)
}

#[test]
fn a_peer_that_drips_is_cut_off(rt: HostRuntime) -> Result<(), Fail> {
    let listener = TcpListener::bind(&rt, "127.0.0.1:0")?;
    let mut link = link_to(&rt, rt.alloc(), &listener, 2_000)?;
    let Some(mut peer) = connected(&mut link, &listener) else {
        return Err(Fail::new("not connected"));
    };
    let count = count_drips(&rt, &mut link, &mut peer)?;
    assert!(rt; 0 < count && count <= 40);
    Ok(())
}

/// Two peers, none of which is set aside.
fn two_peers(alloc: Global) -> Result<Arc<Peers, Global>, AllocError> {
    Ok(Arc::new(alloc, Peers::new(alloc, 2)?)?)
}

/// Asks a peer whether it is syncing, and answers whether that is sent.
fn asks_for_syncing<L: Link>(link: &mut L) -> bool {
    link.connect().is_ok() && link.send(b"GET /eth/v1/node/syncing HTTP/1.1").is_ok()
}

#[test]
fn a_silent_peer_is_set_aside_for_a_twin(rt: HostRuntime) -> Result<(), Fail> {
    let listener = TcpListener::bind(&rt, "127.0.0.1:0")?;
    let mut link = link_to(&rt, rt.alloc(), &listener, 300)?;
    link.set_aside_among(two_peers(rt.alloc())?, 0);
    let mut twin = link.twin(rt.alloc())?;
    assert!(rt; play(&mut link, &UNHEARD));
    assert!(rt; play(&mut twin, &UNSENT) && !asks_for_syncing(&mut twin));
    thread::sleep(&rt, Duration::from_millis(1_100));
    assert!(rt; play(&mut twin, &UNSENT) && asks_for_syncing(&mut twin));
    Ok(())
}

#[test]
fn questions_for_syncing_have_one_limit(rt: HostRuntime) -> Result<(), Fail> {
    let listener = TcpListener::bind(&rt, "127.0.0.1:0")?;
    let peers = two_peers(rt.alloc())?;
    let mut first = link_to(&rt, rt.alloc(), &listener, 3_000)?;
    let mut second = link_to(&rt, rt.alloc(), &listener, 3_000)?;
    first.set_aside_among(Arc::try_clone(&peers)?, 0);
    second.set_aside_among(peers, 1);
    let begun = Instant::now(&rt)?;
    assert!(rt; asks_for_syncing(&mut first) && first.recv(&mut [0]).is_err());
    assert!(rt; !asks_for_syncing(&mut first));
    assert!(rt; asks_for_syncing(&mut second) && second.recv(&mut [0]).is_err());
    assert!(rt; begun.elapsed(&rt)? < Duration::from_millis(2_900));
    assert!(rt; play(&mut first, &[Step::Connect(Ok(())), Step::Send(Ok(1))]));
    Ok(())
}

#[test]
fn a_peer_that_refuses_is_not_set_aside(rt: HostRuntime) -> Result<(), Fail> {
    let listener = TcpListener::bind(&rt, "127.0.0.1:0")?;
    let mut link = link_to(&rt, rt.alloc(), &listener, 20_000)?;
    let port = listener.local_addr()?.port();
    link.set_aside_among(two_peers(rt.alloc())?, 0);
    drop(listener);
    assert!(rt; play(&mut link, &UNSENT));
    let _listener = TcpListener::bind(&rt, ("127.0.0.1", port))?;
    assert!(rt; play(&mut link, &[Step::Connect(Ok(())), Step::Send(Ok(1))]));
    Ok(())
}
