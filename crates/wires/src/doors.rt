//! What a door is, through which clients come.
ghost use Rattle.std.specs.Prelude.{◌≡◌, ℕ, List, Bool, IsTrue, None};
ghost use Rattle.std.specs.Option.{IsNone, IsSome};
ghost use Rattle.std.specs.declared.option.Option.{Option};
ghost use Rattle.wires.specs.Causes.{HasCause};
ghost use Rattle.wires.specs.Doors.{AddsServed, Beginning, EndsDoor, GivesOut, begun};

use crate::{Failed, Peer};

/// Gives clients one after another, and takes each one back before it gives the next.
pub trait Door {
    /// Who comes: a source of requests and a sink for replies.
    type Client: Peer;

    /// Who is out: nobody, or the client that was given and hasn't come back, by its beginning where the door
    /// tells it.
    ghost out: { Self → Option (Option Beginning) };

    /// The clients that came back, in order, each behind its beginning, where the door tells them.
    ghost served: { Self → Option (List (Beginning × Self.Client)) };

    /// Whether the last client has come.
    ghost ended: { Self → Bool };

    /// How often the door has failed.
    ghost door_faults: { Self → ℕ };

    /// The next client, which is out from then on, or `None` where none comes any more. It waits until one
    /// comes. Nobody may be out.
    ///
    /// # Errors
    /// [`Failed`] where the door failed: one fault more is counted. Nobody is out then, and a later call may
    /// give a client.
    fn next(&mut self) -> Result<Option<Self::Client>, Failed>
        requires nobody { IsNone (out self.old) }
        ensures out { GivesOut (λ c. begun (Self.Client.left c) (Self.Client.written c) (Self.Client.read_faults c)
            (Self.Client.write_faults c)) result (out self.new) }
        ensures ended { EndsDoor result (ended self.old) (ended self.new) }
        ensures stays { IsTrue (ended self.old) → IsTrue (ended self.new) }
        ensures served { served self.new ≡ served self.old }
        ensures cause { HasCause (door_faults self.old) (door_faults self.new) result };

    /// Takes back the client that is out. It takes no memory.
    fn back(&mut self, client: Self::Client)
        requires out { IsSome (out self.old) }
        ensures served { AddsServed (out self.old) client (served self.old) (served self.new) }
        ensures nobody { out self.new ≡ None }
        ensures ended { ended self.new ≡ ended self.old }
        ensures count { door_faults self.new ≡ door_faults self.old };
}
