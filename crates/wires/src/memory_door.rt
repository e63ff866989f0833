//! A door in memory.
ghost use Rattle.std.specs.Prelude.{◌≡◌, ◌↔◌, [], map, drop, None, Some, IfOk, IsTrue, if◌then◌else◌};
ghost use Rattle.std.specs.List.{slice_get};
ghost use Rattle.std.specs.Option.{IsNone, IsSome};
ghost use Rattle.std.specs.Result.{IsErr};
ghost use Rattle.wires.specs.Causes.{HasCause, one_more};
ghost use Rattle.wires.specs.Doors.{AddsServed, EndsDoor, GivesOut};
ghost use Rattle.wires.specs.MemoryDoors.{beginning_of, has_ended, next_fails, who_is_out};

use crate::memory::is_among;
use crate::{Door, Failed, MemoryPeer};
use cut_model::NoMemory;
use std::alloc::Global;
use std::collections::VecDeque;
use std::marker::Model;

/// What a client showed when it was given.
#[derive(Drop)]
struct Begun {
    left: Vec<u8>,
    written: Vec<u8>,
    read_faults: u64,
    write_faults: u64,
}

impl Model for Begun {
    ghost use Rattle.std.specs.Prelude.{Some};
    ghost use Rattle.wires.specs.Doors.{Beginning, begun};

    ghost Value = { Beginning };

    ghost view = { λ b. begun (Some b.left.items) (Some b.written.items) b.read_faults b.write_faults };
}

impl Begun {
    /// Copies what a client shows.
    fn of(alloc: Global, client: &MemoryPeer) -> Result<Begun, NoMemory>
        ensures { IfOk result (λ b. b ≡ beginning_of client.now) }
    {
        Ok(Begun {
            left: client.source.left().to_vec(alloc)?,
            written: client.sink.written().to_vec(alloc)?,
            read_faults: client.source.faults(),
            write_faults: client.sink.faults(),
        })
    }
}

/// A client that is left to give, and what it shows.
#[derive(Drop)]
struct Waiting {
    client: MemoryPeer,
    begun: Begun,
    ghost same: { begun ≡ beginning_of client },
}

/// Gives its clients in order, keeps those that come back, and fails at some calls.
#[derive(Drop)]
pub struct MemoryDoor {
    waiting: VecDeque<Waiting>,
    out: Option<Begun>,
    beginnings: Vec<Begun>,
    served: Vec<MemoryPeer>,
    failing: Vec<u32>,
    calls: u64,
    faults: u64,
}

impl Model for MemoryDoor {
    ghost use Rattle.std.specs.Prelude.{◌≡◌, ◌+◌, ◌≤◌, length, map, vec_capacity, vec_len};
    ghost use Rattle.std.specs.List.{zip};
    ghost use Rattle.std.specs.Option.{option_to_list};
    ghost use Rattle.wires.specs.MemoryDoors.{Lobby};

    ghost Value = { Lobby };

    ghost view = { λ d. record {
      waiting = map (λ w. w.client) d.waiting.items;
      out = d.out;
      served = zip d.beginnings.items d.served.items;
      failing = d.failing.items;
      calls = d.calls;
      faults = d.faults;
    } };

    ghost invariant = { λ d. (vec_len d.beginnings ≡ vec_len d.served)
        × (vec_len d.served + length (option_to_list d.out) + length d.waiting.items ≤ vec_capacity d.served)
        × (vec_len d.served + length (option_to_list d.out) + length d.waiting.items ≤ vec_capacity d.beginnings) };
}

impl MemoryDoor {
    /// Gives these clients in order, and none where no client is left. The calls of `next`, counted from 1, whose
    /// numbers are in `failing` fail, and use up no client. Of two clients with `failing` 2 the calls answer the
    /// first one, `Err(Failed)`, the second one and `None`. It copies what each client shows, so that it can tell
    /// the beginnings, and takes the room for those that come back, so that no call takes memory. A call of `next`
    /// looks through `failing`.
    ///
    /// # Errors
    /// [`NoMemory`] where there is none for the copies or the room.
    pub fn make(
        alloc: Global,
        clients: Vec<MemoryPeer>,
        failing: Vec<u32>,
    ) -> Result<MemoryDoor, NoMemory>
        ensures { IfOk result (λ d. d ≡ record {
          waiting = clients.items;
          out = None;
          served = [];
          failing = failing.items;
          calls = 0;
          faults = 0;
        }) }
    {
        let count = clients.len();
        Ok(MemoryDoor {
            waiting: all_waiting(alloc, clients)?,
            out: None,
            beginnings: Vec::with_capacity(alloc, count)?,
            served: Vec::with_capacity(alloc, count)?,
            failing,
            calls: 0,
            faults: 0,
        })
    }

    /// The clients that came back, in order.
    pub fn served(&self) -> &[MemoryPeer]
        ensures { result.now ≡ map (λ visit. visit.1) self.now.served }
    {
        self.served.as_slice()
    }
}

/// The clients in their order, each with a copy of what it shows.
fn all_waiting(alloc: Global, mut clients: Vec<MemoryPeer>) -> Result<VecDeque<Waiting>, NoMemory>
    ensures { IfOk result (λ all. map (λ w. w.client) all.items ≡ clients.items) }
{
    let mut all = VecDeque::with_capacity(alloc, clients.len())?;
    while let Some(client) = clients.pop() {
        let begun = Begun::of(alloc, &client)?;
        all.push_front_reserved(Waiting { client, begun });
    }
    Ok(all)
}

impl Door for MemoryDoor {
    type Client = MemoryPeer;

    ghost out = { who_is_out };

    ghost served = { λ d. Some d.served };

    ghost ended = { has_ended };

    ghost door_faults = { λ d. d.faults };

    fn next(&mut self) -> Result<Option<MemoryPeer>, Failed>
        requires nobody { IsNone (who_is_out self.old) }
        ensures out { GivesOut beginning_of result (who_is_out self.new) }
        ensures ended { EndsDoor result (has_ended self.old) (has_ended self.new) }
        ensures stays { IsTrue (has_ended self.old) → IsTrue (has_ended self.new) }
        ensures served { self.new.served ≡ self.old.served }
        ensures cause { HasCause self.old.faults self.new.faults result }
        ensures fails { IsErr result ↔ IsTrue (next_fails self.old) }
        ensures gives { IfOk result (λ given. given ≡ slice_get self.old.waiting 0) }
        ensures waiting { self.new.waiting ≡ (if next_fails self.old then self.old.waiting
            else drop 1 self.old.waiting) }
        ensures calls { self.new.calls ≡ one_more self.old.calls }
        ensures failing { self.new.failing ≡ self.old.failing }
    {
        self.calls = self.calls.saturating_add(1);
        if is_among(&self.failing, self.calls) {
            self.faults = self.faults.saturating_add(1);
            return Err(Failed);
        }
        let Some(Waiting { client, begun }) = self.waiting.pop_front() else {
            return Ok(None);
        };
        self.out = Some(begun);
        Ok(Some(client))
    }

    fn back(&mut self, client: MemoryPeer)
        requires out { IsSome (who_is_out self.old) }
        ensures served { AddsServed (who_is_out self.old) client (Some self.old.served) (Some self.new.served) }
        ensures nobody { who_is_out self.new ≡ None }
        ensures ended { has_ended self.new ≡ has_ended self.old }
        ensures count { self.new.faults ≡ self.old.faults }
        ensures waiting { self.new.waiting ≡ self.old.waiting }
        ensures calls { self.new.calls ≡ self.old.calls }
        ensures failing { self.new.failing ≡ self.old.failing }
    {
        let Some(begun) = self.out.take() else {
            unreachable!()
        };
        self.beginnings.push_reserved(begun);
        self.served.push_reserved(client);
    }
}
