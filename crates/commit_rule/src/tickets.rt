//! How a router is begun that is to be committed.
ghost use Rattle.std.specs.Prelude.{◌≡◌, ◌≢◌};
ghost use Rattle.cut_model.specs.Terminals.{IsTerminal, root_of};
ghost use Rattle.commit_rule.specs.Tickets.{Begins};

use tree_state::Growing;

/// A router to be cut from the one above it.
#[derive(Clone, Copy, PartialEq, Eq, Debug)]
pub struct Ticket {
    /// The router.
    pub router: u32,
    /// The router above it when the ticket was given.
    pub neighbour: u32,
}

/// What [`begin`] answers.
#[derive(Clone, Copy, PartialEq, Eq, Debug)]
pub enum Begun {
    /// The router isn't committed, and is to be cut by this ticket.
    Ticket(Ticket),
    /// The router was committed.
    Already,
}

/// Begins a terminal that isn't the root: it gives a ticket for it with the router above it, and notes
/// that that one was read. Where the terminal was committed, nothing changes. It takes no memory.
pub fn begin(grow: &mut Growing, s: u32) -> Begun
    requires terminal { IsTerminal grow.old.net s }
    requires not_root { s ≢ root_of grow.old.net }
    ensures net { grow.new.net ≡ grow.old.net }
    ensures history { grow.new.history ≡ grow.old.history }
    ensures answer { Begins grow.old s grow.new result }
{
    if grow.is_done(s) {
        return Begun::Already;
    }
    let neighbour = grow.neighbour(s);
    grow.note_read(s);
    Begun::Ticket(Ticket {
        router: s,
        neighbour,
    })
}
