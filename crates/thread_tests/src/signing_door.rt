//! The door of validator clients, over the system's sockets.
use edge_clock::Halt;
use edge_door::{Callers, TcpConn, TcpDoor};
use edge_kit::{Door, Link};
use std::alloc::Global;
use std::io::{Eprint, Read, Write};
use std::net::{Net, OpenListener, OpenStream, TcpListener, TcpStream};
use std::process::Abort;
use std::rt::Clock;
use std::test::Fail;
use std::thread::join;
use std::time::{Duration, Instant};
use std::{io, thread};

/// The head of a request for a signature, which announces a body of two bytes.
const HEAD: &[u8] = b"POST /api/v1/eth2/sign/0x93 HTTP/1.1\r\nContent-Length: 2\r\n\r\n";

/// The same head, whose sender waits to be asked for the body.
const WAITING_HEAD: &[u8] =
    b"POST /api/v1/eth2/sign/0x93 HTTP/1.1\r\nContent-Length: 2\r\nExpect: 100-continue\r\n\r\n";

/// What asks for the body.
const CONTINUE: &[u8] = b"HTTP/1.1 100 Continue\r\n\r\n";

/// The body.
const BODY: &[u8] = b"{}";

/// The reply.
const REPLY: &[u8] = b"HTTP/1.1 200 OK\r\nConnection: close\r\nContent-Length: 2\r\n\r\n{}";

/// The question whether anyone is there.
const UPCHECK: &[u8] = b"GET /upcheck HTTP/1.1\r\n\r\n";

/// Heads that are answered without the bodies which they announce, or that announce none.
const READY: [&[u8]; 5] = [
    b"GET /eth/v1/keystores HTTP/1.1\r\nContent-Length: 2\r\n\r\n",
    b"PUT /api/v1/eth2/sign/0x93 HTTP/1.1\r\nContent-Length: 2\r\n\r\n",
    b"POST /api/v1/eth2/sign/ HTTP/1.1\r\nContent-Length: 2\r\n\r\n",
    b"GET /api/v1/eth2/publicKeys?a=b HTTP/1.1\r\n\r\n",
    UPCHECK,
];

/// A door of validator clients at a port of this machine, which listens.
fn open_door<'a, N: Net + Eprint + Clock + Abort + Copy + Drop>(
    rt: N,
    alloc: Global,
    halt: &'a Halt,
) -> Result<(TcpDoor<'a, N>, u16), Fail> {
    let free = TcpListener::bind(&rt, "127.0.0.1:0")?;
    let port = free.local_addr()?.port();
    drop(free);
    let host = String::from_str(alloc, "127.0.0.1")?;
    let token = String::from_str(alloc, "a token")?;
    let mut door = TcpDoor::new(alloc, rt, host, port, token, halt);
    door.set_callers(Callers::ValidatorClients);
    assert!(rt; door.listen().is_ok());
    Ok((door, port))
}

/// A connection to a port, whose reads wait for 5 seconds at most.
fn peer_at<N: Net>(rt: &N, port: u16) -> io::Result<N::Stream> {
    let peer = TcpStream::connect(rt, ("127.0.0.1", port))?;
    peer.set_read_timeout(Some(Duration::from_secs(5)))?;
    Ok(peer)
}

/// Whether these bytes come next.
fn hears<S: Read>(peer: &mut S, wanted: &[u8]) -> io::Result<bool> {
    let mut heard = [0; 128];
    let Some(place) = heard.get_mut(..wanted.len()) else {
        return Ok(false);
    };
    peer.read_exact(place)?;
    Ok(heard.get(..wanted.len()) == Some(wanted))
}

/// Whether the reply comes, and then the end.
fn hears_reply<S: Read>(peer: &mut S) -> io::Result<bool> {
    Ok(hears(peer, REPLY)? && peer.read(&mut [0])? == 0)
}

/// Sends a head, and the body 200 milliseconds later. The peer, where the reply and the end came then.
fn ask_late<N: Net + Clock>(rt: &N, port: u16) -> io::Result<Option<N::Stream>> {
    let mut peer = peer_at(rt, port)?;
    peer.write_all(HEAD)?;
    thread::sleep(rt, Duration::from_millis(200));
    peer.write_all(BODY)?;
    if hears_reply(&mut peer)? {
        Ok(Some(peer))
    } else {
        Ok(None)
    }
}

/// Sends a head, and the body once it is asked for. Whether the reply and the end came then.
fn ask_when_asked<N: Net>(rt: &N, port: u16) -> io::Result<bool> {
    let mut peer = peer_at(rt, port)?;
    peer.write_all(WAITING_HEAD)?;
    if !hears(&mut peer, CONTINUE)? {
        return Ok(false);
    }
    peer.write_all(BODY)?;
    hears_reply(&mut peer)
}

/// Whether a request is heard at once that is of this head and this body.
fn is_heard<L: Link>(link: &mut L, head: &[u8], body: &[u8]) -> bool {
    let mut buf = [0; 256];
    let Ok(count) = link.recv(&mut buf) else {
        return false;
    };
    let heard = buf.get(..count).unwrap_or(&[]);
    heard.get(..head.len()) == Some(head) && heard.get(head.len()..) == Some(body)
}

/// Replies to this request over the connection that a door gives next, and hangs up. The connection, where all goes as is
/// wanted.
fn reply<N: Net + Eprint + Clock + Copy + Drop>(
    door: &mut TcpDoor<'_, N>,
    head: &[u8],
    body: &[u8],
) -> Option<TcpConn<N::Stream, N>> {
    let Ok(Some(mut conn)) = door.accept() else {
        return None;
    };
    let is_wanted = is_heard(&mut conn, head, body) && conn.send(REPLY) == Ok(REPLY.len());
    let is_ended = conn.hang_up().is_ok();
    if is_wanted && is_ended {
        Some(conn)
    } else {
        None
    }
}

/// Whether a door takes a connection back without a wait for its peer.
fn takes_back<N: Net + Eprint + Clock + Copy + Drop>(
    rt: &N,
    door: &mut TcpDoor<'_, N>,
    conn: TcpConn<N::Stream, N>,
) -> io::Result<bool> {
    let begun = Instant::now(rt)?;
    door.finish(conn);
    Ok(begun.elapsed(rt)? < Duration::from_millis(300))
}

#[test]
fn a_body_that_comes_late_is_waited_for(rt: HostRuntime) -> Result<(), Fail> {
    let halt = Halt::new();
    let (mut door, port) = open_door(&rt, rt.alloc(), &halt)?;
    let (asked, replied) = join(
        &rt,
        || ask_late(&rt, port).unwrap_or(None),
        || reply(&mut door, HEAD, BODY),
    );
    let (Some(_peer), Some(conn)) = (asked, replied) else {
        return Err(Fail::new("no reply and end"));
    };
    assert!(rt; takes_back(&&rt, &mut door, conn)?);
    Ok(())
}

#[test]
fn a_validator_client_is_asked_for_its_body(rt: HostRuntime) -> Result<(), Fail> {
    let halt = Halt::new();
    let (mut door, port) = open_door(&rt, rt.alloc(), &halt)?;
    let (is_answered, replied) = join(
        &rt,
        || ask_when_asked(&rt, port).unwrap_or(false),
        || reply(&mut door, WAITING_HEAD, BODY),
    );
    assert!(rt; is_answered && replied.is_some());
    Ok(())
}

/// Sends a head, to which a door is to reply. Whether the reply and the end come though the connection is not handed back.
fn is_answered_at_head<N: Net + Eprint + Clock + Copy + Drop>(
    rt: &N,
    port: u16,
    door: &mut TcpDoor<'_, N>,
    head: &[u8],
) -> io::Result<bool> {
    let mut peer = peer_at(rt, port)?;
    peer.write_all(head)?;
    let Some(conn) = reply(door, head, &[]) else {
        return Ok(false);
    };
    let is_heard = hears_reply(&mut peer)?;
    door.finish(conn);
    Ok(is_heard)
}

#[test]
fn a_head_that_is_enough_is_given_at_once(rt: HostRuntime) -> Result<(), Fail> {
    let halt = Halt::new();
    let (mut door, port) = open_door(&rt, rt.alloc(), &halt)?;
    let begun = Instant::now(&rt)?;
    for head in READY {
        assert!(rt; is_answered_at_head(&&rt, port, &mut door, head)?);
    }
    assert!(rt; begun.elapsed(&rt)? < Duration::from_millis(5_000));
    Ok(())
}

#[test]
fn two_connections_are_served_at_a_time(rt: HostRuntime) -> Result<(), Fail> {
    let halt = Halt::new();
    let (mut door, port) = open_door(&rt, rt.alloc(), &halt)?;
    let mut first_peer = peer_at(&rt, port)?;
    let mut second_peer = peer_at(&rt, port)?;
    first_peer.write_all(UPCHECK)?;
    second_peer.write_all(UPCHECK)?;
    let first = reply(&mut door, UPCHECK, &[]);
    let second = reply(&mut door, UPCHECK, &[]);
    assert!(rt; hears_reply(&mut first_peer)? && hears_reply(&mut second_peer)?);
    let (Some(first), Some(second)) = (first, second) else {
        return Err(Fail::new("not served"));
    };
    assert!(rt; takes_back(&&rt, &mut door, first)?);
    assert!(rt; takes_back(&&rt, &mut door, second)?);
    Ok(())
}
