//! A seat of a board, as a shelf.
ghost use Rattle.std.specs.Prelude.{◌≡◌};
ghost use Rattle.tree_versions.specs.Facts.{sound_shelf_is_fact};
ghost use Rattle.tree_versions.specs.Solo.{IsSoundShelf};

use crate::board::Board;
use crate::publisher::{BoardFault, BoardWriter, Publisher};
use crate::seat::Seat;
use crate::{MOST_RECORDS, PublishFault, Record, Shelf};
use std::alloc::Global;
use std::sync::{Arc, Wait};

/// The shelf of one desk: a seat, and what publishes on its board. Others publish there too. The allocator and the
/// handle are kept, since the calls of a shelf are given none.
#[derive(Drop)]
pub struct DeskShelf<'a, B: Board, W, R> {
    seat: Seat<B>,
    publisher: &'a Publisher<B, W>,
    alloc: Global,
    rt: &'a R,
    ghost sound: { IsSoundShelf seat.seen } by { sound_shelf_is_fact seat.seen },
}

impl<'a, B: Board, W, R> DeskShelf<'a, B, W, R> {
    /// The shelf of a seat of this board.
    pub fn make(
        alloc: Global,
        rt: &'a R,
        seat: Seat<B>,
        publisher: &'a Publisher<B, W>,
    ) -> DeskShelf<'a, B, W, R>
        ensures { result.seat ≡ seat }
    {
        prove!(seat.versions() <= MOST_RECORDS);
        DeskShelf {
            seat,
            publisher,
            alloc,
            rt,
        }
    }

    /// Gives the seat back.
    pub fn into_seat(self) -> Seat<B>
        ensures { result ≡ self.entry.seat }
    {
        let DeskShelf { seat, .. } = self;
        seat
    }
}

impl<'a, B: Board, S: Wait + Drop, R: Wait> Shelf for DeskShelf<'a, B, BoardWriter<B, S>, R> {
    ghost use Rattle.std.specs.Prelude.{false};

    ghost seen = { λ shelf. shelf.seat.seen };

    ghost published = { λ shelf. shelf.seat.own };

    ghost alone = { λ _. false };

    ghost sure = { λ _. false };

    ghost few = { λ shelf. shelf.sound.few };

    ghost runs = { λ shelf. shelf.sound.runs };

    ghost trees = { λ shelf. shelf.sound.trees };

    fn look(&mut self) -> u32 {
        self.seat.look()
    }

    fn record_at(&self, version: u32) -> &Record {
        self.seat.record_at(version)
    }

    fn publish(&mut self, new: Arc<Record>) -> Result<u32, PublishFault> {
        match self
            .publisher
            .publish(self.alloc, self.rt, &mut self.seat, new)
        {
            Ok(note) => {
                let version = note.version();
                self.seat.learn(note);
                Ok(version)
            }
            Err(refused) => {
                let (fault, _dropped) = refused;
                match fault {
                    BoardFault::Full(note) => {
                        self.seat.learn(note);
                        Err(PublishFault::Full)
                    }
                    BoardFault::NoMemory => Err(PublishFault::NoMemory),
                }
            }
        }
    }
}
