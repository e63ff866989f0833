//! What the lines of a certificate have told so far.

ghost use Rattle.std.specs.Prelude.{◌≡◌};
ghost use Rattle.certifier.specs.Certificates as certificate;
ghost use Rattle.certifier.specs.Certificates.{end_fault as told_fault};
ghost use Rattle.certifier.specs.Stages.{Shows};

use crate::fault::Fault;
use crate::sums::Sums;
use crate::tree::Tree;
use cut_model::NoMemory;
use network_text::{Reader, Sheet};

/// The edge whose flow is told: all but its values, of which their sums are kept.
#[derive(Drop)]
pub(crate) struct Way {
    /// The line of the edge, counted from 1.
    pub line: u32,
    /// The router at its lower end.
    pub child: u32,
    /// The router above that.
    pub up: u32,
    /// How wide it is, or the largest number of the type.
    pub width: u64,
    /// What its flow sends out of each router, as far as that has come.
    pub sums: Sums,
}

/// What the next line must be.
#[derive(Drop)]
pub(crate) enum Stage {
    /// The title.
    Title,
    /// A line of the network.
    Network(Reader),
    /// The root.
    Root(Sheet),
    /// An edge, or the last line.
    Between(Tree),
    /// A value of the flow of an edge.
    Within(Tree, Way),
}

impl Stage {
    /// The number of the fault of a text that ends here.
    pub(crate) fn end_fault(&self) -> u32
        ensures { (told : certificate.Stage) → Shows told self.now → result ≡ told_fault told }
    {
        match self {
            Stage::Network(_) => 31,
            Stage::Title | Stage::Root(_) | Stage::Between(_) | Stage::Within(_, _) => 30,
        }
    }
}

/// Why no further line is taken.
#[derive(Drop)]
pub(crate) enum Stop {
    /// The line was the last one.
    Ended(Tree),
    /// The line has a fault.
    Faulty(Fault),
    /// Memory was wanted.
    NoMemory,
}

impl From<NoMemory> for Stop {
    ghost use Rattle.std.specs.Prelude.{◌≡◌};
    ghost use Rattle.certifier.specs.declared.stage.Stop.TheVariants as stop;

    ghost from_gives = { λ _ made. made ≡ stop.NoMemory };

    fn from(_want: NoMemory) -> Stop {
        Stop::NoMemory
    }
}

/// A fault of this number, of which a line is told.
pub(crate) fn faulty(number: u32, line: u32) -> Stop
    ensures { result ≡ Stop.Faulty record { number = number; line = line } }
{
    Stop::Faulty(Fault { number, line })
}
