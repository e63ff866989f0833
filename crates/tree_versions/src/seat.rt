//! A seat of a board, from which one desk looks at it.
ghost use Rattle.std.specs.Prelude.{◌≡◌, ◌≤◌, ◌<◌, Some, length, vec_capacity};
ghost use Rattle.tree_versions.specs.Records.{Grows, record_at as at_version};
ghost use Rattle.tree_versions.specs.Solo.{IsSoundShelf, views_of};
ghost use Rattle.tree_versions.specs.declared.shelf.TheConstants.{MOST_RECORDS};

use crate::board::Board;
use crate::copies::ListCopy;
use crate::front::Front;
use crate::note::{Note, take_rest};
use crate::{MOST_RECORDS, Record};
use left_right::ReadHandle;
use std::marker::Model;
use std::sync::Arc;
use std::sync::ledger::Share;

/// A seat keeps the records of its board that it has seen, in room for as many as there may be, and one part of the
/// ledger of the board. Contracts see a `SeatView`: the records, and how many were published for the seat.
#[derive(Drop)]
pub struct Seat<B: Board> {
    reader: ReadHandle<ListCopy<B>>,
    records: Vec<Arc<Record>>,
    front: Front<B>,
    pub(crate) share: Share<B>,
}

impl<B: Board> Model for Seat<B> {
    ghost use Rattle.std.specs.Prelude.{◌≡◌, ◌≤◌, vec_capacity};
    ghost use Rattle.tree_versions.specs.Boards.{SeatView};
    ghost use Rattle.tree_versions.specs.Solo.{views_of};
    ghost use Rattle.tree_versions.specs.declared.shelf.TheConstants.{MOST_RECORDS};

    ghost Value = { SeatView };

    ghost view = { λ seat. record { seen = seat.front; own = seat.share.amount } };

    ghost invariant = { λ seat. (views_of seat.records.items ≡ seat.front)
        × (MOST_RECORDS ≤ vec_capacity seat.records) × (seat.share.parts ≡ 1) };
}

/// Takes over what a copy has more than what is kept. All stays where a further owner of a record can't be had.
fn take_over<B: Board>(records: &mut Vec<Arc<Record>>, front: &mut Front<B>, copy: &ListCopy<B>)
    requires records { views_of records.old.items ≡ front.old }
    requires room { MOST_RECORDS ≤ vec_capacity records.old }
    ensures records { views_of records.new.items ≡ front.new }
    ensures room { MOST_RECORDS ≤ vec_capacity records.new }
    ensures grows { Grows front.old front.new }
{
    let _begins = front.longer(copy.front());
    if copy.front().len() <= front.len() {
        return;
    }
    if take_rest(records, copy.records()) {
        *front = copy.front().again();
    }
}

impl<B: Board> Seat<B> {
    /// A seat that has seen these records.
    pub(crate) fn make(
        reader: ReadHandle<ListCopy<B>>,
        records: Vec<Arc<Record>>,
        front: Front<B>,
        share: Share<B>,
    ) -> Seat<B>
        requires records { views_of records.items ≡ front }
        requires room { MOST_RECORDS ≤ vec_capacity records }
        requires share { share.parts ≡ 1 }
        ensures { result ≡ record { seen = front; own = share.amount } }
    {
        Seat {
            reader,
            records,
            front,
            share,
        }
    }

    /// What it has seen.
    pub(crate) fn front(&self) -> &Front<B>
        ensures { result.now ≡ self.now.seen }
    {
        &self.front
    }

    /// Its part of the ledger.
    pub(crate) fn into_share(self) -> Share<B>
        ensures parts { result.parts ≡ 1 }
        ensures amount { result.amount ≡ self.own }
    {
        let Seat {
            reader: _,
            records: _,
            front: _,
            share,
        } = self;
        share
    }

    /// Sees what others have published, and tells how many records are seen: `seat.look()` gives 0 on a new board.
    /// It waits for nobody, takes no memory, and makes a step for each record that is new to the seat. All stays as it
    /// was where the list can't be entered, or where a further owner of a record can't be had.
    pub fn look(&mut self) -> u32
        ensures grows { Grows self.old.seen self.new.seen }
        ensures count { result ≡ length self.new.seen }
        ensures own { self.new.own ≡ self.old.own }
        ensures sound { IsSoundShelf self.new.seen }
    {
        if let Some(guard) = self.reader.enter() {
            take_over(&mut self.records, &mut self.front, &guard);
        }
        self.front.len() as u32
    }

    /// Sees the records of a note of its board: `seat.look()` then gives the version of the note or a later one. It
    /// waits for nobody and takes no memory.
    pub fn learn(&mut self, note: Note<B>)
        ensures grows { Grows self.old.seen self.new.seen }
        ensures note { Grows note self.new.seen }
        ensures longer { length self.old.seen < length note → self.new.seen ≡ note }
        ensures own { self.new.own ≡ self.old.own }
        ensures sound { IsSoundShelf self.new.seen }
    {
        let Note { records, front } = note;
        let _begins = self.front.longer(&front);
        if front.len() > self.front.len() {
            self.front = front;
            self.records = records;
        }
        prove!(self.front.len() <= u64::from(MOST_RECORDS));
    }

    /// How many records it has seen: what its last look told, and what it learnt since.
    pub fn versions(&self) -> u32
        ensures count { result ≡ length self.now.seen }
        ensures sound { IsSoundShelf self.now.seen }
    {
        self.front.len() as u32
    }

    /// The record of a version that was seen: `seat.record_at(1)` is the first of all. It takes no memory and waits for
    /// nobody.
    pub fn record_at(&self, version: u32) -> &Record
        requires first { 0 < version }
        requires last { version ≤ length self.now.seen }
        ensures { Some result.now ≡ at_version self.now.seen version }
    {
        &self.records[version as usize - 1]
    }
}
