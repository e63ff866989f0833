//! Why a network text gives no sheet.

ghost use Rattle.std.specs.Prelude.{◌≡◌};
ghost use Rattle.network_text.specs.Faults.{kind_number};

use std::alloc::AllocFailed;
use thiserror::Error;

/// What is wrong with a text. Of a faulty line the first applies in this order: `LineTooLong`,
/// `UnknownWord`, `WrongCount`, `BadName`, `BadNumber`, `CapTooLarge`, `TooManyRouters`,
/// `TooManyLinks`.
#[derive(Clone, Copy, PartialEq, Eq, Debug, Error)]
pub enum TextKind {
    /// The first word of a line is none of `router`, `link` and `END`.
    #[error("unknown line word")]
    UnknownWord,
    /// A word in a name's place is no name.
    #[error("bad name")]
    BadName,
    /// A line has more or fewer words than its first word asks for.
    #[error("wrong number of words")]
    WrongCount,
    /// A line has more than [`MOST_LINE_BYTES`](text_forms::MOST_LINE_BYTES) bytes.
    #[error("line too long")]
    LineTooLong,
    /// The word in the number's place is no number.
    #[error("bad number")]
    BadNumber,
    /// The capacity is above [`MOST_CAPACITY`](cut_model::MOST_CAPACITY).
    #[error("capacity too large")]
    CapTooLarge,
    /// A line names a router that would be one more than [`MOST_ROUTERS`](cut_model::MOST_ROUTERS).
    #[error("too many routers")]
    TooManyRouters,
    /// The link would be one more than [`MOST_LINKS`](cut_model::MOST_LINKS).
    #[error("too many links")]
    TooManyLinks,
    /// The text ended and no router was named.
    #[error("no router")]
    NoTerminal,
    /// The input ended before END.
    #[error("ended before END")]
    EndedEarly,
    /// Memory was wanted.
    #[error("out of memory")]
    Memory,
}

impl TextKind {
    /// The number by which clients are told of it: 11 for `BadName`.
    pub fn number(self) -> u32
        ensures { result ≡ kind_number self }
    {
        match self {
            TextKind::UnknownWord => 10,
            TextKind::BadName => 11,
            TextKind::WrongCount => 12,
            TextKind::LineTooLong => 13,
            TextKind::BadNumber => 14,
            TextKind::CapTooLarge => 15,
            TextKind::TooManyRouters => 16,
            TextKind::TooManyLinks => 17,
            TextKind::NoTerminal => 18,
            TextKind::EndedEarly => 19,
            TextKind::Memory => 90,
        }
    }
}

impl<T: Drop> From<AllocFailed<T>> for TextKind {
    ghost use Rattle.std.specs.Prelude.{◌≡◌};
    ghost use Rattle.network_text.specs.declared.fault.TextKind.TheVariants.{Memory};

    ghost from_gives = { λ _ kind. kind ≡ Memory };

    fn from(_refused: AllocFailed<T>) -> TextKind {
        TextKind::Memory
    }
}

/// What is wrong with a text, and in which line. Lines are counted from 1, with empty lines and
/// remarks. For `NoTerminal` it is that of END, for `EndedEarly` the one that would have been next.
#[derive(Clone, Copy, PartialEq, Eq, Debug, Error)]
#[error("line {line}: {kind}")]
pub struct TextFault {
    /// What is wrong.
    pub kind: TextKind,
    /// The number of the line. For `Memory` it is some line of the text.
    pub line: u32,
}
