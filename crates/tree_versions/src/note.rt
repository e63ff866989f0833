//! What was published on a board up to a version.
ghost use Rattle.std.specs.Prelude.{◌≡◌, ◌≤◌, length, MatchBool, vec_capacity};
ghost use Rattle.tree_versions.specs.Records.{Grows};
ghost use Rattle.tree_versions.specs.Solo.{IsSoundShelf, views_of};
ghost use Rattle.tree_versions.specs.declared.shelf.TheConstants.{MOST_RECORDS};

use crate::Record;
use crate::board::Board;
use crate::front::Front;
use std::marker::Model;
use std::sync::Arc;

/// The records of a board up to a version, which its publisher tells to a seat. Contracts see their views.
#[derive(Drop)]
pub struct Note<B: Board> {
    pub(crate) records: Vec<Arc<Record>>,
    pub(crate) front: Front<B>,
}

impl<B: Board> Model for Note<B> {
    ghost use Rattle.std.specs.Prelude.{◌≡◌, ◌≤◌, List, vec_capacity};
    ghost use Rattle.tree_versions.specs.Records.{RecordView};
    ghost use Rattle.tree_versions.specs.Solo.{views_of};
    ghost use Rattle.tree_versions.specs.declared.shelf.TheConstants.{MOST_RECORDS};

    ghost Value = { List RecordView };

    ghost view = { λ note. note.front };

    ghost invariant = { λ note. (views_of note.records.items ≡ note.front)
        × (MOST_RECORDS ≤ vec_capacity note.records) };
}

impl<B: Board> Note<B> {
    /// A note of records and the front that they are.
    pub(crate) fn make(records: Vec<Arc<Record>>, front: Front<B>) -> Note<B>
        requires records { views_of records.items ≡ front }
        requires room { MOST_RECORDS ≤ vec_capacity records }
        ensures { result ≡ front }
    {
        Note { records, front }
    }

    /// The version of the last of its records, which is how many it has.
    pub fn version(&self) -> u32
        ensures count { result ≡ length self.now }
        ensures sound { IsSoundShelf self.now }
    {
        self.front.len() as u32
    }
}

/// Takes over the records of a list that begins with those that are kept, and says whether it did. It takes none of
/// them where a further owner of one can't be had.
pub(crate) fn take_rest(kept: &mut Vec<Arc<Record>>, list: &[Arc<Record>]) -> bool
    requires grows { Grows (views_of kept.old.items) (views_of list.now) }
    requires room { MOST_RECORDS ≤ vec_capacity kept.old }
    requires few { length list.now ≤ MOST_RECORDS }
    ensures room { MOST_RECORDS ≤ vec_capacity kept.new }
    ensures taken { MatchBool result (views_of kept.new.items ≡ views_of list.now)
        (views_of kept.new.items ≡ views_of kept.old.items) }
{
    let had = kept.len();
    for place in had..list.len() {
        match Arc::try_clone(&list[place]) {
            Ok(more) => kept.push_reserved(more),
            Err(_) => {
                kept.truncate(had);
                return false;
            }
        }
    }
    true
}
