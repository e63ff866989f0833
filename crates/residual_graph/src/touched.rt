//! Which links may carry flow.
ghost use Rattle.std.specs.Prelude.{◌≡◌, IfOk, [], false};
ghost use Rattle.residual_graph.specs.Touched.{noted_if};

use cut_model::NoMemory;
use std::alloc::Global;
use std::marker::Model;

/// The links that were touched, one by one, or all links, in room that is taken once. Contracts see
/// a `Touches`.
#[derive(Drop)]
pub struct Touched {
    list: Vec<u32>,
    count: u32,
    room: u32,
    all: bool,
}

impl Model for Touched {
    ghost use Rattle.std.specs.Prelude.{◌≤◌, ◌≡◌, length, take};
    ghost use Rattle.residual_graph.specs.Touched.{Touches};

    ghost Value = { Touches };

    ghost view = { λ t. record { room = t.room; all = t.all; links = take t.count t.list.items } };

    ghost invariant = { λ t. (length t.list.items ≡ t.room) × (t.count ≤ t.room) };
}

impl Touched {
    /// No link is touched, and there is room to list so many.
    pub fn with_room(alloc: Global, room: u32) -> Result<Touched, NoMemory>
        ensures { IfOk result (λ t. t ≡ record { room = room; all = false; links = [] }) }
    {
        Ok(Touched {
            list: vec![in alloc; 0; room as usize]?,
            count: 0,
            room,
            all: false,
        })
    }

    /// Whether all links are taken as touched.
    #[inline]
    pub fn is_all(&self) -> bool
        ensures { result ≡ self.now.all }
    {
        self.all
    }

    /// The links that are listed.
    #[inline]
    pub fn links(&self) -> &[u32]
        ensures { result.now ≡ self.now.links }
    {
        &self.list[..self.count as usize]
    }

    /// Notes one link more, where that is asked for. Where the list is full, all links are taken as
    /// touched from then on.
    #[inline]
    pub fn note_if(&mut self, is_new: bool, link: u32)
        ensures { self.new ≡ noted_if is_new self.old link }
    {
        if !is_new {
            return;
        }
        if self.count < self.room {
            self.list[self.count as usize] = link;
            self.count += 1;
        } else {
            self.all = true;
        }
    }

    /// No link is touched from now on.
    #[inline]
    pub fn clear(&mut self)
        ensures { self.new ≡ record { room = self.old.room; all = false; links = [] } }
    {
        self.count = 0;
        self.all = false;
    }
}
