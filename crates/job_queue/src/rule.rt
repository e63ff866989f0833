//! The rule of the queue, and the kinds of step that keep it.
ghost use Rattle.std.specs.Prelude.{[], false, ⊤};
ghost use Rattle.job_queue.specs.Rule.{known, IsKept, Puts, Takes, Leaves, Knows, giving, given, joined, spent};

use crate::item::Item;
use crate::known::Known;
use crossbeam_queue::RuledArrayQueue;
use crossbeam_queue::protocol::{Join, Lesson, Outcome, Protocol, Split};

/// The rule that each job is taken once.
pub struct EachOnce;

impl Protocol<Item, Known> for EachOnce {
    ghost holds = { IsKept };

    ghost first = { known 1 1 0 false [] [] };
}

/// A push, by the one pass that there is.
pub struct Push;

impl Outcome<Item, Known> for Push {
    ghost then = { Puts };
}

impl Lesson<Item, Known> for Push {
    ghost fact = { λ v items. ⊤ };
}

/// A pop by a pass that a mark is due to: it finds something.
pub struct Pop;

impl Outcome<Item, Known> for Pop {
    ghost then = { Takes };
}

impl Lesson<Item, Known> for Pop {
    ghost fact = { Leaves };
}

/// A pop by the pass with every part.
pub struct PopRest;

impl Outcome<Item, Known> for PopRest {
    ghost then = { Takes };
}

impl Lesson<Item, Known> for PopRest {
    ghost fact = { Knows };
}

/// A pass splits off another one, and passes are put together.
pub struct Parting;

impl Split<Known> for Parting {
    ghost left = { giving };

    ghost right = { given };
}

impl Join<Known> for Parting {
    ghost both = { joined };

    ghost spent = { spent };
}

/// The queue under that rule.
pub type Bench = RuledArrayQueue<Item, Known, EachOnce>;

/// What one pass knows of it. It has no bytes.
pub type RawPass = crossbeam_queue::Pass<Item, Known>;
