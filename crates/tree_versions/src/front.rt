//! The log of a board, and what was seen of it.
ghost use Rattle.std.specs.Prelude.{◌≡◌, ◌++◌, ◌∷◌, ◌⊎◌, [], length, MatchBool};
ghost use Rattle.tree_versions.specs.BoardRule.{IsLonger, MayFollow, word_of};
ghost use Rattle.tree_versions.specs.Records.{Grows};
ghost use Rattle.tree_versions.specs.Solo.{IsSoundShelf};

use crate::Record;
use crate::board::Board;
use crate::log_rule::{Add, NoGain, SoundLog};
use logbook::{Offer, Seen, Start, Word};
use std::marker::{Model, PhantomData};

/// A log without records, which belongs to no board yet.
#[derive(Drop)]
pub struct OpenedLog {
    word: Word<Record, u64, SoundLog>,
    seen: Seen<Record, u64, SoundLog>,
    pub ghost empty: { seen.log ≡ [] },
    pub ghost word_is: { word ≡ word_of seen.book },
}

impl OpenedLog {
    /// A log for one board, which takes it over. It takes no memory.
    pub fn new() -> OpenedLog {
        let (seen, mut pen, _) = Seen::open(Start::alone(), 0, 0);
        OpenedLog {
            word: Word::tracked(0, &mut pen),
            seen,
        }
    }

    /// The length of the log, and a front without records.
    pub(crate) fn named<B: Board>(self) -> (LogLength<B>, Front<B>)
        requires { self.seen.book ≡ B.log }
        ensures { result.1 ≡ [] }
    {
        let OpenedLog { word, seen } = self;
        let length = LogLength {
            word,
            of: PhantomData,
        };
        let front = Front {
            count: 0,
            seen,
            of: PhantomData,
        };
        (length, front)
    }
}

/// The word that all share: how many records the log has.
#[derive(Drop)]
pub struct LogLength<B: Board> {
    word: Word<Record, u64, SoundLog>,
    of: PhantomData<B>,
    ghost word_is: { word ≡ word_of B.log },
}

/// A front of the log that was seen: the log begins with these records for good. It has no records at run time, only
/// their number. Contracts see their views.
#[derive(Drop)]
pub struct Front<B: Board> {
    count: u64,
    seen: Seen<Record, u64, SoundLog>,
    of: PhantomData<B>,
}

impl<B: Board> Model for Front<B> {
    ghost use Rattle.std.specs.Prelude.{◌≡◌, List, length};
    ghost use Rattle.tree_versions.specs.Records.{RecordView};
    ghost use Rattle.tree_versions.specs.Solo.{IsSoundShelf};

    ghost Value = { List RecordView };

    ghost view = { λ front. front.seen.log };

    ghost invariant = { λ front. (front.count ≡ length front.seen.log) × (front.seen.book ≡ B.log)
        × IsSoundShelf front.seen.log };
}

impl<B: Board> Front<B> {
    /// How many records it has.
    pub(crate) fn len(&self) -> u64
        ensures count { result ≡ length self.now }
        ensures sound { IsSoundShelf self.now }
    {
        self.count
    }

    /// The same front once more.
    pub(crate) fn again(&self) -> Front<B>
        ensures { result ≡ self.now }
    {
        Front {
            count: self.count,
            seen: self.seen.again(),
            of: PhantomData,
        }
    }

    /// The longer one of two fronts: both begin one log, so it begins with the other.
    pub(crate) fn longer(&self, other: &Front<B>) -> Front<B>
        ensures one { (result ≡ self.now) ⊎ (result ≡ other.now) }
        ensures this { Grows self.now result }
        ensures that { Grows other.now result }
        ensures sound { IsSoundShelf result }
    {
        let mut both = self.seen.again();
        both.learn(&other.seen);
        if self.count < other.count {
            other.again()
        } else {
            self.again()
        }
    }

    /// Adds a record to the log behind all that was seen, and says whether it did. It didn't where the log is
    /// longer than this front.
    pub(crate) fn add(&mut self, length: &LogLength<B>, added: &Record) -> bool
        requires { MayFollow self.old added.now }
        ensures { MatchBool result (self.new ≡ self.old ++ added.now ∷ []) (IsLonger self.old self.new) }
    {
        let mut offer: Offer<Record, u64, SoundLog, NoGain> = self
            .seen
            .plain::<NoGain, Record, Add>(added);
        let mut pen = self.seen.no_pen();
        let count = self.count;
        let found = length
            .word
            .compare_exchange::<Add, NoGain>(
                count,
                count + 1,
                &mut self.seen,
                &mut offer,
                &mut pen,
            );
        self.count = if found == count { count + 1 } else { found };
        found == count
    }
}
