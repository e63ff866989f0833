//! A door through which clients come over TCP.
ghost use Rattle.std.specs.Prelude.{◌≡◌, true, false, None, IsTrue, IfOk, IfSome};
ghost use Rattle.std.specs.Option.{IsNone, IsSome};
ghost use Rattle.std.specs.Result.{IsErr};
ghost use Rattle.wires.specs.Causes.{HasCause};
ghost use Rattle.wires.specs.Doors.{EndsDoor, GivesOut};
ghost use Rattle.wires.specs.Tcp.{fresh, shown_of, untold_out};

use crate::retries::TRIES;
use crate::{Door, Failed, TcpPeer};
use std::io::{Error, ErrorKind};
use std::marker::Model;
use std::net::{TcpListener, TcpStream};

/// Gives the clients that connect to a listener, in the order in which the system hands them out. It never ends,
/// and tells nothing of what its clients send and are sent. A client that comes back is read out for a while where
/// it hasn't ended, so `back` may wait, too.
#[derive(Drop)]
pub struct TcpDoor {
    listener: Option<TcpListener>,
    is_out: bool,
    faults: u64,
}

impl Model for TcpDoor {
    ghost use Rattle.std.specs.Option.{is_none};
    ghost use Rattle.wires.specs.Tcp.{Listening};

    ghost Value = { Listening };

    ghost view = { λ d. record { is_broken = is_none d.listener; is_out = d.is_out; faults = d.faults } };
}

impl TcpDoor {
    /// A door over this listener. Several doors may share one, by handles of their own; each client comes
    /// through one of them.
    pub fn make(listener: TcpListener) -> TcpDoor
        ensures { result ≡ record { is_broken = false; is_out = false; faults = 0 } }
    {
        TcpDoor {
            listener: Some(listener),
            is_out: false,
            faults: 0,
        }
    }

    /// A door through which nobody comes: each call of `next` fails. It stands for one that couldn't be made, as
    /// where the port is taken.
    pub fn broken() -> TcpDoor
        ensures { result ≡ record { is_broken = true; is_out = false; faults = 0 } }
    {
        TcpDoor {
            listener: None,
            is_out: false,
            faults: 0,
        }
    }
}

impl Door for TcpDoor {
    type Client = TcpPeer;

    ghost out = { λ d. untold_out d.is_out };

    ghost served = { λ _. None };

    ghost ended = { λ _. false };

    ghost door_faults = { λ d. d.faults };

    fn next(&mut self) -> Result<Option<TcpPeer>, Failed>
        requires nobody { IsNone (untold_out self.old.is_out) }
        ensures out { GivesOut shown_of result (untold_out self.new.is_out) }
        ensures ended { EndsDoor result false false }
        ensures cause { HasCause self.old.faults self.new.faults result }
        ensures fresh { IfOk result (λ given. IfSome given (λ client. client ≡ fresh)) }
        ensures broken { IsTrue self.old.is_broken → IsErr result }
        ensures stays_broken { self.new.is_broken ≡ self.old.is_broken }
    {
        match self.listener.as_ref().ok_or(Failed).and_then(accept) {
            Ok(stream) => {
                self.is_out = true;
                Ok(Some(TcpPeer::make(stream)))
            }
            Err(Failed) => {
                self.faults = self.faults.saturating_add(1);
                Err(Failed)
            }
        }
    }

    fn back(&mut self, client: TcpPeer)
        requires out { IsSome (untold_out self.old.is_out) }
        ensures nobody { untold_out self.new.is_out ≡ None }
        ensures count { self.new.faults ≡ self.old.faults }
        ensures stays_broken { self.new.is_broken ≡ self.old.is_broken }
    {
        client.close();
        self.is_out = false;
    }
}

/// The next connection of a listener. One that was given up before it was taken is passed over.
fn accept(listener: &TcpListener) -> Result<TcpStream, Failed> {
    for _ in 0..TRIES {
        match listener.accept() {
            Ok((stream, _)) => return Ok(stream),
            Err(error) if is_passing(&error) => {}
            Err(_) => return Err(Failed),
        }
    }
    Err(Failed)
}

/// Whether an `accept` failed for no fault of the listener: a signal interrupted it, or the client was gone.
fn is_passing(error: &Error) -> bool {
    let kind = error.kind();
    kind == ErrorKind::Interrupted || kind == ErrorKind::ConnectionAborted
}
