//! The tree while it grows.
ghost use Rattle.std.specs.Prelude.{◌≡◌, ◌≢◌, ◌+◌, ◌<◌, ◌≤◌, ◌++◌, ◌∷◌, [], false, IfOk, Some};
ghost use Rattle.std.specs.Prelude.{length, replicate, slice_get, slice_index, slice_set, vec_capacity};
ghost use Rattle.std.specs.Arc.{arc_value};
ghost use Rattle.cut_model.specs.declared.network.TheConstants.{MOST_ROUTERS, MOST_VALUE};
ghost use Rattle.cut_model.specs.Net.{IsInLimits};
ghost use Rattle.cut_model.specs.Terminals.{is_terminal, IsTerminal, terminal_count, root_of};
ghost use Rattle.tree_state.specs.History.{entered, entry_of, IsLegal};
ghost use Rattle.tree_state.specs.Moves.{moves, sum_over, most_moves};
ghost use Rattle.tree_state.specs.Growing.{bare_growing};
ghost use Rattle.tree_state.specs.Views.{tree_in, up_of, width_of};

use crate::entry::Entry;
use crate::tables::commit_tables;
use cut_model::{LeastCut, MOST_ROUTERS, Network, NoMemory, Side};
use std::alloc::Global;
use std::marker::Model;
use std::sync::Arc;

/// A cut tree of a network while it grows by Gusfield's method: the two tables, and the history of
/// the commits that made them. It also counts the retakes of each router: the cuts of it that were not
/// taken since the router above it had moved. Its type keeps that the tables are those of the history,
/// that the history is legal, and that no router has more retakes than moves. All memory is taken when
/// it is made. Contracts see a `GrowingView`.
#[derive(Drop)]
pub struct Growing {
    net: Arc<Network>,
    up: Vec<u32>,
    width: Vec<u64>,
    done: Side,
    history: Vec<Entry>,
    last_read: Vec<u32>,
    retakes: Vec<u32>,
}

impl Model for Growing {
    ghost use Rattle.std.specs.Prelude.{vec_capacity};
    ghost use Rattle.std.specs.Arc.{arc_value};
    ghost use Rattle.tree_state.specs.Growing.{IsGrown, HasRoom, CountsRetakes};
    ghost use Rattle.tree_state.specs.Views.{GrowingView};

    ghost Value = { GrowingView };

    ghost view = { λ g. record {
      net = arc_value g.net;
      history = g.history.items;
      last_read = g.last_read.items;
      retakes = g.retakes.items;
    } };

    ghost invariant = { λ g. IsGrown (arc_value g.net) g.up.items g.width.items g.done g.history.items
        × HasRoom (arc_value g.net) (vec_capacity g.up) (vec_capacity g.width) (vec_capacity g.history)
        (vec_capacity g.last_read) (vec_capacity g.retakes)
        × CountsRetakes (arc_value g.net) g.history.items g.last_read.items g.retakes.items };
}

/// Fills a table anew, with one value for each router. There is room for them.
fn fill<T: Copy>(table: &mut Vec<T>, routers: u32, value: T)
    requires { routers ≤ vec_capacity table.old }
    ensures items { table.new.items ≡ replicate routers value }
    ensures capacity { vec_capacity table.new ≡ vec_capacity table.old }
{
    table.clear();
    for _ in 0..routers {
        table.push_reserved(value);
    }
}

/// A table with one value for each router, and room for the largest network.
fn table<T: Copy>(alloc: Global, routers: u32, value: T) -> Result<Vec<T>, NoMemory>
    requires { routers ≤ MOST_ROUTERS }
    ensures items { IfOk result (λ t. t.items ≡ replicate routers value) }
    ensures room { IfOk result (λ t. MOST_ROUTERS ≤ vec_capacity t) }
{
    let mut table = Vec::with_capacity(alloc, MOST_ROUTERS as usize)?;
    fill(&mut table, routers, value);
    Ok(table)
}

impl Growing {
    /// The tree of a network before any commit: every router hangs from the root, which counts as the
    /// neighbour that was last read for it. It takes all the memory of a whole build, some 180 KB.
    ///
    /// # Errors
    /// [`NoMemory`] where that memory can't be had.
    pub fn make(alloc: Global, net: Arc<Network>) -> Result<Growing, NoMemory>
        ensures { IfOk result (λ g. g ≡ bare_growing (arc_value net)) }
    {
        let routers = net.routers();
        let root = net.root();
        Ok(Growing {
            net,
            up: table(alloc, routers, root)?,
            width: table(alloc, routers, 0)?,
            done: Side::empty(routers),
            history: Vec::with_capacity(alloc, MOST_ROUTERS as usize)?,
            last_read: table(alloc, routers, root)?,
            retakes: table(alloc, routers, 0)?,
        })
    }

    /// The tree of a network before any commit, in the memory of this one: it has room for the largest
    /// network. So it takes none.
    pub fn reset(self, net: Arc<Network>) -> Growing
        ensures { result ≡ bare_growing (arc_value net) }
    {
        let routers = net.routers();
        let root = net.root();
        let mut grow = self;
        fill(&mut grow.up, routers, root);
        fill(&mut grow.width, routers, 0);
        grow.done = Side::empty(routers);
        grow.history.clear();
        fill(&mut grow.last_read, routers, root);
        fill(&mut grow.retakes, routers, 0);
        grow.net = net;
        grow
    }

    /// The network.
    pub fn net(&self) -> &Arc<Network>
        ensures value { arc_value result.now ≡ self.now.net }
        ensures legal { IsLegal self.now.net self.now.history }
    {
        &self.net
    }

    /// The router above `s`, its neighbour in the tree so far.
    #[inline]
    pub fn neighbour(&self, s: u32) -> u32
        requires { s < self.now.net.routers }
        ensures value { result ≡ up_of (tree_in self.now) s }
        ensures within { result < self.now.net.routers }
        ensures other { entered self.now.history s ≡ false → s ≢ root_of self.now.net → s ≢ result }
    {
        self.up[s as usize]
    }

    /// The width of the edge from `s` to the router above it.
    #[inline]
    pub(crate) fn width(&self, s: u32) -> u64
        requires { s < self.now.net.routers }
        ensures value { result ≡ width_of (tree_in self.now) s }
        ensures most { result ≤ MOST_VALUE }
    {
        self.width[s as usize]
    }

    /// The entry of the commit at a place, counted from 0.
    pub(crate) fn entry(&self, i: u32) -> &Entry
        requires { i < length self.now.history }
        ensures { slice_get self.now.history i ≡ Some result.now }
    {
        &self.history[i as usize]
    }

    /// Whether `s` was committed.
    #[inline]
    pub fn is_done(&self, s: u32) -> bool
        requires { s < self.now.net.routers }
        ensures { result ≡ entered self.now.history s }
    {
        self.done.has(s)
    }

    /// How many commits there were, fewer than there are routers.
    pub fn commits(&self) -> u32
        ensures value { result ≡ length self.now.history }
        ensures few { result < self.now.net.routers }
        ensures limits { IsInLimits self.now.net }
    {
        self.history.len() as u32
    }

    /// The neighbour that was last read for `s`: the router that was above it then, or the root where
    /// none was read yet.
    #[inline]
    pub fn last_read(&self, s: u32) -> u32
        requires { s < self.now.net.routers }
        ensures { result ≡ slice_index self.now.last_read s }
    {
        self.last_read[s as usize]
    }

    /// How many cuts of `s` weren't taken since the router above it had moved, at most as often as it
    /// moved.
    #[inline]
    pub(crate) fn retakes(&self, s: u32) -> u32
        requires { s < self.now.net.routers }
        ensures value { result ≡ slice_index self.now.retakes s }
        ensures few { result ≤ moves (root_of self.now.net) self.now.history s }
        ensures sum { sum_over (is_terminal self.now.net) (slice_index self.now.retakes)
            self.now.net.routers ≤ most_moves (terminal_count self.now.net) }
    {
        self.retakes[s as usize]
    }

    /// Notes that the router above `s` was read. It takes no memory.
    pub fn note_read(&mut self, s: u32)
        requires { s < self.old.net.routers }
        ensures net { self.new.net ≡ self.old.net }
        ensures history { self.new.history ≡ self.old.history }
        ensures last_read { self.new.last_read
            ≡ slice_set self.old.last_read s (up_of (tree_in self.old) s) }
        ensures retakes { self.new.retakes ≡ self.old.retakes }
    {
        self.last_read[s as usize] = self.up[s as usize];
    }

    /// Notes that a cut of `s`, an uncommitted terminal, wasn't taken, since another router is above it
    /// than the one that was last read: `s` has one more retake, and the router above it counts as read.
    /// It takes no memory.
    pub fn note_retake(&mut self, s: u32)
        requires terminal { IsTerminal self.old.net s }
        requires fresh { entered self.old.history s ≡ false }
        requires moved { up_of (tree_in self.old) s ≢ slice_index self.old.last_read s }
        ensures net { self.new.net ≡ self.old.net }
        ensures history { self.new.history ≡ self.old.history }
        ensures last_read { self.new.last_read
            ≡ slice_set self.old.last_read s (up_of (tree_in self.old) s) }
        ensures retakes { self.new.retakes
            ≡ slice_set self.old.retakes s (slice_index self.old.retakes s + 1) }
    {
        self.retakes[s as usize] += 1;
        self.last_read[s as usize] = self.up[s as usize];
    }

    /// Commits a least cut of a terminal, not the root and not committed yet, from the router above
    /// it. Time as for the tables: at most a small multiple of the number of routers. It takes no
    /// memory.
    pub fn apply(&mut self, cut: &LeastCut)
        requires net { cut.now.net ≡ self.old.net }
        requires terminal { IsTerminal self.old.net cut.now.router }
        requires not_root { cut.now.router ≢ root_of self.old.net }
        requires fresh { entered self.old.history cut.now.router ≡ false }
        requires neighbour { cut.now.neighbour ≡ up_of (tree_in self.old) cut.now.router }
        ensures net { self.new.net ≡ self.old.net }
        ensures history { self.new.history ≡ self.old.history ++ entry_of cut.now ∷ [] }
        ensures last_read { self.new.last_read ≡ self.old.last_read }
        ensures retakes { self.new.retakes ≡ self.old.retakes }
    {
        let entry = Entry::of(cut);
        commit_tables(&mut self.up, &mut self.width, self.net.root(), cut);
        self.done.put(entry.router);
        self.history.push_reserved(entry);
    }
}
