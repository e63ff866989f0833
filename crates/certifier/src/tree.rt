//! What is kept of a tree that a certificate tells.
ghost use Rattle.std.specs.Prelude.{◌≡◌, ◌+◌, ◌<◌, ◌++◌, ◌∷◌, [], length, IfOk};
ghost use Rattle.certifier.specs.Blocks.{router_but};
ghost use Rattle.certifier.specs.Certificates.{next_child, tree_verdict};
ghost use Rattle.certifier.specs.Trees.{Told};
ghost use Rattle.certifier.specs.Kept.{IsKept, is_whole_tree, next_in, verdict_by_fault};
ghost use Rattle.cut_model.specs.declared.network.TheConstants.{MOST_ROUTERS};

use crate::fault::Fault;
use crate::ways::{all_come_to, cost_below};
use cut_model::NoMemory;
use network_text::Sheet;
use std::alloc::Global;
use std::marker::Model;

/// The number of the fault of a tree in which some way up does not come to the root.
const NO_TREE: u32 = 38;

/// The number of the fault of an edge below which another cost is than its width.
const WRONG_COST: u32 = 39;

/// What is kept of an edge: all but its flow.
#[derive(Clone, Copy, PartialEq, Eq, Debug)]
pub struct KeptEdge {
    /// The line of which it was told, counted from 1.
    pub line: u32,
    /// The router at its lower end.
    pub child: u32,
    /// The router above that.
    pub up: u32,
    /// What the cut costs that the edge stands for.
    pub width: u64,
}

/// A tree that is told edge by edge: the sheet of its network, its root, and its edges but for their
/// flows. The edges come in the order of the numbers of their lower ends. Contracts see a `KeptTree`.
#[derive(Drop)]
pub struct Tree {
    sheet: Sheet,
    root: u32,
    up: Vec<u32>,
    edges: Vec<KeptEdge>,
}

/// The router of this place among all but one, in number order.
pub(crate) fn number_but(root: u32, place: u32) -> u32
    requires { place < MOST_ROUTERS }
    ensures { result ≡ router_but root place }
{
    if place < root { place } else { place + 1 }
}

impl Model for Tree {
    ghost use Rattle.std.specs.Prelude.{◌≤◌, vec_capacity};
    ghost use Rattle.certifier.specs.Kept.{KeptTree, HasShape};

    ghost Value = { KeptTree };

    ghost view = { λ t. record { sheet = t.sheet; root = t.root; edges = t.edges.items } };

    ghost invariant = { λ t. HasShape (record { sheet = t.sheet; root = t.root; edges = t.edges.items })
        t.up.items × (t.sheet.net.routers ≤ vec_capacity t.edges) };
}

impl Tree {
    /// The tree of which no edge was told yet. It takes all memory that the tree will need, 28 bytes for each
    /// router.
    ///
    /// # Errors
    /// [`NoMemory`] where that memory can't be had.
    pub fn make(alloc: Global, sheet: Sheet, root: u32) -> Result<Tree, NoMemory>
        requires { root < sheet.net.routers }
        ensures { IfOk result (λ t. t ≡ record { sheet = sheet; root = root; edges = [] }) }
    {
        let routers = sheet.net().routers() as usize;
        Ok(Tree {
            sheet,
            root,
            up: vec![in alloc; root; routers]?,
            edges: Vec::with_capacity(alloc, routers)?,
        })
    }

    /// The sheet of the network.
    pub fn sheet(&self) -> &Sheet
        ensures { result.now ≡ self.now.sheet }
    {
        &self.sheet
    }

    /// The router whose edge comes next, where an edge is left.
    pub fn next_child(&self) -> u32
        requires { length self.now.edges + 1 < self.now.sheet.net.routers }
        ensures value { result ≡ next_in self.now }
        ensures told { (told : Told) → IsKept told self.now → result ≡ next_child told }
        ensures within { result < self.now.sheet.net.routers }
    {
        number_but(self.root, self.edges.len() as u32)
    }

    /// Whether each router but the root has its edge, so that none is left.
    pub fn is_whole(&self) -> bool
        ensures { result ≡ is_whole_tree self.now }
    {
        self.edges.len() + 1 >= self.sheet.net().routers() as usize
    }

    /// Adds the edge of the next router: its line, the router above, and its width. It takes no memory.
    pub fn add(&mut self, line: u32, up: u32, width: u64)
        requires left { length self.old.edges + 1 < self.old.sheet.net.routers }
        requires up { up < self.old.sheet.net.routers }
        ensures { self.new ≡ record self.old {
          edges = self.old.edges
              ++ (record { line = line; child = next_in self.old; up = up; width = width }) ∷ [];
        } }
    {
        let child = self.next_child();
        self.up[child as usize] = up;
        self.edges.push_reserved(KeptEdge {
            line,
            child,
            up,
            width,
        });
    }

    /// The first fault of the tree, once each router but the root has its edge: some way up doesn't come to the
    /// root, of which the last line is told, the line of this number; or what is below an edge costs another
    /// value than the edge is wide, of which the line of that edge is told. The time is proportional to N (N + M),
    /// for N routers and M links. It takes no memory.
    pub fn verdict(&self, done: u32) -> Option<Fault>
        ensures { (told : Told) → IsKept told self.now → tree_verdict done told ≡ verdict_by_fault told result }
    {
        if !all_come_to(&self.up, self.root) {
            return Some(Fault {
                number: NO_TREE,
                line: done,
            });
        }
        for edge in &self.edges {
            if cost_below(self.sheet.net(), &self.up, self.root, edge.child) != edge.width {
                return Some(Fault {
                    number: WRONG_COST,
                    line: edge.line,
                });
            }
        }
        None
    }
}
