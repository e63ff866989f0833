//! The two copies of the list of a board, of which readers take the one while the other is written.
ghost use Rattle.std.specs.Prelude.{◌≡◌, ◌-◌, ◌≤◌, [], length, slice_get, Some, vec_capacity};
ghost use Rattle.std.specs.Arc.{arc_value};
ghost use Rattle.tree_versions.specs.Boards.{with_addition};
ghost use Rattle.tree_versions.specs.Solo.{views_of};
ghost use Rattle.tree_versions.specs.declared.shelf.TheConstants.{MOST_RECORDS};

use crate::Record;
use crate::board::Board;
use crate::front::Front;
use left_right::Absorb;
use std::alloc::AllocError;
use std::marker::Model;
use std::sync::Arc;

/// One of the two copies, with the front of the log that it shows. It has room for as many records as there may be.
/// Contracts see their views.
#[derive(Drop)]
pub struct ListCopy<B: Board> {
    records: Vec<Arc<Record>>,
    front: Front<B>,
}

impl<B: Board> Model for ListCopy<B> {
    ghost use Rattle.std.specs.Prelude.{◌≡◌, ◌≤◌, List, vec_capacity};
    ghost use Rattle.tree_versions.specs.Records.{RecordView};
    ghost use Rattle.tree_versions.specs.Solo.{views_of};
    ghost use Rattle.tree_versions.specs.declared.shelf.TheConstants.{MOST_RECORDS};

    ghost Value = { List RecordView };

    ghost view = { λ copy. copy.front };

    ghost invariant = { λ copy. (views_of copy.records.items ≡ copy.front)
        × (MOST_RECORDS ≤ vec_capacity copy.records) };
}

/// One record more for both copies: it stands last in the front that comes with it. An idle one has no record.
/// Contracts see the views of the front.
#[derive(Drop)]
pub struct Addition<B: Board> {
    record: Option<Arc<Record>>,
    front: Front<B>,
}

impl<B: Board> Model for Addition<B> {
    ghost use Rattle.std.specs.Prelude.{◌≡◌, ◌-◌, List, [], length, slice_get, Some, MatchOption};
    ghost use Rattle.std.specs.Arc.{arc_value};
    ghost use Rattle.tree_versions.specs.Records.{RecordView};

    ghost Value = { List RecordView };

    ghost view = { λ addition. addition.front };

    ghost invariant = { λ addition. MatchOption addition.record (addition.front ≡ [])
        (λ added. slice_get addition.front (length addition.front - 1) ≡ Some (arc_value added)) };
}

impl<B: Board> ListCopy<B> {
    /// A copy of records and the front that they are.
    pub(crate) fn make(records: Vec<Arc<Record>>, front: Front<B>) -> ListCopy<B>
        requires records { views_of records.items ≡ front }
        requires room { MOST_RECORDS ≤ vec_capacity records }
        ensures { result ≡ front }
    {
        ListCopy { records, front }
    }

    /// The records and their front.
    pub(crate) fn into_parts(self) -> (Vec<Arc<Record>>, Front<B>)
        ensures records { views_of result.0.items ≡ self }
        ensures front { result.1 ≡ self }
    {
        let ListCopy { records, front } = self;
        (records, front)
    }

    pub(crate) fn records(&self) -> &[Arc<Record>]
        ensures { views_of result.now ≡ self.now }
    {
        self.records.as_slice()
    }

    pub(crate) fn front(&self) -> &Front<B>
        ensures { result.now ≡ self.now }
    {
        &self.front
    }
}

impl<B: Board> Addition<B> {
    /// The addition of the last record of a front.
    pub(crate) fn of(added: Arc<Record>, front: Front<B>) -> Addition<B>
        requires { slice_get front (length front - 1) ≡ Some (arc_value added) }
        ensures { result ≡ front }
    {
        Addition {
            record: Some(added),
            front,
        }
    }

    /// An addition that adds nothing. The room in which one is kept until it is in both copies is taken by it.
    pub(crate) fn idle(front: Front<B>) -> Addition<B>
        requires { front ≡ [] }
        ensures { result ≡ [] }
    {
        Addition {
            record: None,
            front,
        }
    }
}

impl<B: Board> Absorb<Addition<B>> for ListCopy<B> {
    // A clause reads an array as a list, of any length.
    type State = [Record; 0];

    ghost state = { λ copy. copy };

    ghost applied = { with_addition };

    fn absorb_first(
        &mut self,
        operation: &Addition<B>,
        _other: &ListCopy<B>,
    ) -> Result<(), AllocError> {
        if operation.front.len() != self.front.len() + 1 {
            return Ok(());
        }
        let Some(added) = &operation.record else {
            return Ok(());
        };
        let _begins = self.front.longer(&operation.front);
        let added = Arc::try_clone(added)?;
        self.records.push_reserved(added);
        self.front = operation.front.again();
        Ok(())
    }
}
