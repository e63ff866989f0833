//! A door in memory by call, and through the bound of a function that takes any door.

ghost use Rattle.std.specs.Prelude.{◌≡◌, ◌∷◌, [], None, MatchBool, IfOk};
ghost use Rattle.std.specs.Option.{IsNone};
ghost use Rattle.wires.specs.Doors.{Beginning, with_visits};

use crate::*;
use std::test::Fail;

// Hears one client of any door once, and gives it back. Says whether one came. Where the door tells the clients that
// came back, this one is one more, and it was written nothing.
fn hear_one<D: Door>(door: &mut D, buffer: &mut [u8]) -> Result<bool, Failed>
    requires { IsNone (D.out door.old) }
    ensures nobody { D.out door.new ≡ None }
    ensures served { IfOk result (λ came. MatchBool came
        ((b : Beginning) × (c : D.Client) × (b.written ≡ D.Client.written c)
        × (D.served door.new ≡ with_visits ((b, c) ∷ []) (D.served door.old)))
        (D.served door.new ≡ D.served door.old)) }
{
    let Some(mut client) = door.next()? else {
        return Ok(false);
    };
    let _ = client.read(buffer);
    door.back(client);
    Ok(true)
}

fn client_of<R: AllocGlobal>(rt: &R, bytes: &[u8]) -> Result<MemoryPeer, Fail> {
    let source = MemorySource::make(bytes.to_vec(rt.alloc())?, 8, Vec::new(rt.alloc()));
    let sink = MemorySink::make(rt.alloc(), 8, Vec::new(rt.alloc()))?;
    Ok(MemoryPeer { source, sink })
}

// Takes any door that a thread of its own may serve.
fn may_move<D: Door + Send>(_door: &D) {}

#[test]
fn memory_door_gives_its_clients_in_order(rt: HostRuntime) -> Result<(), Fail> {
    let clients = Vec::from_array(rt.alloc(), [client_of(&rt, b"ab")?, client_of(&rt, b"cd")?])?;
    let mut door = MemoryDoor::make(rt.alloc(), clients, [2u32, 5].to_vec(rt.alloc())?)?;
    may_move(&door);
    let mut buffer = [0u8; 1];
    assert_eq!(rt; hear_one(&mut door, &mut buffer), Ok(true));
    assert_eq!(rt; buffer, [b'a']);
    assert_eq!(rt; hear_one(&mut door, &mut buffer), Err(Failed));
    assert_eq!(rt; hear_one(&mut door, &mut buffer), Ok(true));
    assert_eq!(rt; buffer, [b'c']);
    assert_eq!(rt; hear_one(&mut door, &mut buffer), Ok(false));
    assert_eq!(rt; hear_one(&mut door, &mut buffer), Err(Failed));
    assert_eq!(rt; door.served().len(), 2);
    assert_eq!(rt; door.served()[0].source.left(), b"b".as_slice());
    assert_eq!(rt; door.served()[1].source.left(), b"d".as_slice());
    Ok(())
}
