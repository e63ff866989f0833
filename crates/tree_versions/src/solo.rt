//! A shelf that nobody else has.
ghost use Rattle.std.specs.Prelude.{◌≡◌, [], IfOk};
ghost use Rattle.tree_versions.specs.Facts.{sound_shelf_is_fact};
ghost use Rattle.tree_versions.specs.Solo.{IsSoundShelf, views_of};

use crate::{MOST_RECORDS, PublishFault, Record, Shelf};
use cut_model::NoMemory;
use std::alloc::Global;
use std::marker::Model;
use std::sync::Arc;

/// A shelf of one holder, which has seen all of it. Its memory is taken when it is made. Contracts see a
/// `SoloView`.
///
/// Where `shelf` is new, `shelf.publish(record)` gives `Ok(1)`, and then `shelf.look()` gives 1.
#[derive(Drop)]
pub struct SoloShelf {
    records: Vec<Arc<Record>>,
    ghost sound: { IsSoundShelf (views_of records.items) } by { sound_shelf_is_fact (views_of records.items) },
}

impl Model for SoloShelf {
    ghost use Rattle.std.specs.Prelude.{◌≤◌, vec_capacity};
    ghost use Rattle.tree_versions.specs.Solo.{SoloView, views_of};
    ghost use Rattle.tree_versions.specs.declared.shelf.TheConstants.{MOST_RECORDS};

    ghost Value = { SoloView };

    ghost use Rattle.std.specs.Coded.{codes};
    ghost use Rattle.tree_versions.specs.Facts.{finished_is_fact};

    ghost coded = { Prim.hlevel (codes, finished_is_fact) };

    ghost view = { λ shelf. record { records = views_of shelf.records.items; sound = shelf.sound } };

    ghost invariant = { λ shelf. MOST_RECORDS ≤ vec_capacity shelf.records };
}

impl SoloShelf {
    /// A shelf without records, and with room for [`MOST_RECORDS`].
    ///
    /// # Errors
    /// [`NoMemory`] where the memory of the room can't be had.
    pub fn make(alloc: Global) -> Result<SoloShelf, NoMemory>
        ensures { IfOk result (λ shelf. shelf.records ≡ []) }
    {
        Ok(SoloShelf {
            records: Vec::with_capacity(alloc, MOST_RECORDS as usize)?,
        })
    }

    /// The records, version 1 first.
    pub fn into_records(self) -> Vec<Arc<Record>>
        ensures { views_of result.items ≡ self.records }
    {
        let SoloShelf { records } = self;
        records
    }
}

impl Shelf for SoloShelf {
    ghost use Rattle.std.specs.Prelude.{length, true};

    ghost seen = { λ shelf. shelf.records };

    ghost published = { λ shelf. length shelf.records };

    ghost alone = { λ _. true };

    ghost sure = { λ _. true };

    ghost few = { λ shelf. shelf.sound.few };

    ghost runs = { λ shelf. shelf.sound.runs };

    ghost trees = { λ shelf. shelf.sound.trees };

    fn look(&mut self) -> u32 {
        self.records.len() as u32
    }

    fn record_at(&self, version: u32) -> &Record {
        &self.records[version as usize - 1]
    }

    fn publish(&mut self, new: Arc<Record>) -> Result<u32, PublishFault> {
        if self.records.len() == MOST_RECORDS as usize {
            return Err(PublishFault::Full);
        }
        // The run of the new record is over its own network and complete, and its tree a cut tree.
        prove!(new.finished().net().routers() == new.sheet().net().routers());
        self.records.push_reserved(new);
        Ok(self.records.len() as u32)
    }
}
