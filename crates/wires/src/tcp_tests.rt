//! What connections do that no clause knows of.

ghost use Rattle.std.specs.Prelude.{◌≡◌, false, true, OnOk};

use crate::*;
use std::io::{Read, Write};
use std::net::{Ipv4Addr, Shutdown, SocketAddr, TcpListener, TcpStream};
use std::test::Fail;
use std::thread;

// A listener on any port, and a client that is connected to it.
fn connected(rt: &HostRuntime) -> Result<(TcpListener, TcpStream), Fail> {
    let listener = TcpListener::bind(rt, SocketAddr::from((Ipv4Addr::LOCALHOST, 0u16)))?;
    let stream = TcpStream::connect(rt, listener.local_addr()?)?;
    Ok((listener, stream))
}

// The client that comes through the door.
fn let_in(door: &mut TcpDoor) -> Result<TcpPeer, Fail>
    requires { door.old.is_out ≡ false }
    ensures { OnOk result (door.new.is_out ≡ true) }
{
    match door.next()? {
        Some(client) => Ok(client),
        None => Err(Fail::new("no client came")),
    }
}

#[test]
fn tcp_client_that_sent_all_gets_its_reply(rt: HostRuntime) -> Result<(), Fail> {
    let (listener, mut stream) = connected(&rt)?;
    stream.write_all(b"abc")?;
    stream.shutdown(Shutdown::Write)?;
    let mut door = TcpDoor::make(listener);
    let mut client = let_in(&mut door)?;
    let mut buffer = [0u8; 8];
    assert_eq!(rt; client.read(&mut buffer), Ok(3));
    assert_eq!(rt; client.read(&mut buffer), Ok(0));
    assert_eq!(rt; client.put(b"xy"), Ok(()));
    assert_eq!(rt; client.read(&mut buffer), Ok(0));
    door.back(client);
    assert_eq!(rt; stream.read(&mut buffer)?, 2);
    assert_eq!(rt; stream.read(&mut buffer)?, 0);
    assert_eq!(rt; &buffer[..3], b"xyc".as_slice());
    Ok(())
}

// Sends more than is read, and counts the bytes that come back before the end.
fn send_on(mut stream: TcpStream) -> Option<usize> {
    stream.write_all(b"abcdefgh").ok()?;
    let mut buffer = [0u8; 4096];
    let mut total = 0usize;
    for _ in 0..u64::MAX {
        match stream.read(&mut buffer).ok()? {
            0 => break,
            count => total = total.saturating_add(count),
        }
    }
    Some(total)
}

// Reads a part of what a client sends, and gives it back after a long reply.
fn hang_up(mut door: TcpDoor) -> Option<usize>
    requires { door.is_out ≡ false }
{
    let Ok(Some(mut client)) = door.next() else {
        return None;
    };
    let count = client.read(&mut [0u8; 2]);
    let reply = [b'x'; 1 << 16];
    let pieces = [reply.as_slice(); 64];
    let answered = put_pieces(&pieces, &mut client);
    door.back(client);
    answered.ok()?;
    count.ok()
}

#[test]
fn tcp_client_that_sends_on_gets_its_reply(rt: HostRuntime) -> Result<(), Fail> {
    let (listener, stream) = connected(&rt)?;
    let door = TcpDoor::make(listener);
    let counts = thread::join(&rt, move || send_on(stream), move || hang_up(door));
    assert_eq!(rt; counts, (Some(1 << 22), Some(2)));
    Ok(())
}

// A client that is gone with a reply unread resets the connection, and that is no end of its input.
#[test]
fn tcp_client_that_is_gone_is_a_failure(rt: HostRuntime) -> Result<(), Fail> {
    let (listener, stream) = connected(&rt)?;
    let mut door = TcpDoor::make(listener);
    let mut client = let_in(&mut door)?;
    let mut buffer = [0u8; 8];
    assert_eq!(rt; client.put(b"xy"), Ok(()));
    drop(stream);
    assert_eq!(rt; client.read(&mut buffer), Err(Failed));
    assert_eq!(rt; client.read(&mut buffer), Err(Failed));
    assert_eq!(rt; client.put(b"z"), Err(Failed));
    door.back(client);
    Ok(())
}

#[test]
fn broken_door_gives_nobody(rt: HostRuntime) {
    let mut door = TcpDoor::broken();
    assert!(rt; door.next().is_err());
    assert!(rt; door.next().is_err());
}

// A listener that doesn't wait fails where no client is there, and a later call may give one.
#[test]
fn door_fails_where_its_listener_does(rt: HostRuntime) -> Result<(), Fail> {
    let listener = TcpListener::bind(&rt, SocketAddr::from((Ipv4Addr::LOCALHOST, 0u16)))?;
    listener.set_nonblocking(true)?;
    let address = listener.local_addr()?;
    let mut door = TcpDoor::make(listener);
    assert!(rt; door.next().is_err());
    let _stream = TcpStream::connect(&rt, address)?;
    let client = let_in(&mut door)?;
    door.back(client);
    Ok(())
}
