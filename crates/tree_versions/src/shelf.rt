//! What a shelf of records is.
ghost use Rattle.std.specs.Prelude.{◌≡◌, ◌≢◌, ℕ, ◌<◌, ◌≤◌, List, Bool, true, Some, Err, length};
ghost use Rattle.std.specs.Arc.{arc_value};
ghost use Rattle.tree_versions.specs.Records.{AreCutTrees, AreFinished, RecordView, record_at as at_version};
ghost use Rattle.tree_versions.specs.declared.shelf.TheConstants.{MOST_RECORDS};
ghost use Rattle.tree_versions.specs.Shelves.{Looks, Publishes};

use crate::Record;
use std::sync::Arc;
use thiserror::Error;

/// The most records that a shelf holds.
pub const MOST_RECORDS: u32 = 256;

/// Why a record wasn't published. It is dropped then.
#[derive(Clone, Copy, PartialEq, Eq, Debug, Error)]
pub enum PublishFault {
    /// As many records are held as can be, [`MOST_RECORDS`].
    #[error("no room for another record")]
    Full,
    /// Memory was wanted.
    #[error("out of memory")]
    NoMemory,
}

/// One growing list of at most [`MOST_RECORDS`] records, of which its holder has seen a front. Records are
/// counted from 1, and the number of a record is its version.
pub trait Shelf {
    /// The records that the holder has seen.
    ghost seen: { Self → List RecordView };

    /// How many records were published through this shelf.
    ghost published: { Self → ℕ };

    /// Nobody else publishes on the list.
    ghost alone: { Self → Bool };

    /// Publishing surely wants no memory.
    ghost sure: { Self → Bool };

    /// At most [`MOST_RECORDS`] records are seen.
    ghost few: { (shelf : Self) → length (seen shelf) ≤ MOST_RECORDS };

    /// Each record that is seen holds a complete run over its own network.
    ghost runs: { (shelf : Self) → AreFinished (seen shelf) };

    /// The tree of each record that is seen is a cut tree.
    ghost trees: { (shelf : Self) → AreCutTrees (seen shelf) };

    /// Sees what others have published, and tells how many records are seen. Where nobody has published,
    /// `shelf.look()` gives 0.
    fn look(&mut self) -> u32
        ensures seen { Looks (alone self.old) (seen self.old) (seen self.new) }
        ensures count { result ≡ length (seen self.new) }
        ensures published { published self.new ≡ published self.old }
        ensures alone { alone self.new ≡ alone self.old }
        ensures sure { sure self.new ≡ sure self.old };

    /// The record of a version that was seen: `shelf.record_at(1)` is the first of all. It takes no memory
    /// and waits for nobody.
    fn record_at(&self, version: u32) -> &Record
        requires first { 0 < version }
        requires last { version ≤ length (seen self.now) }
        ensures { Some result.now ≡ at_version (seen self.now) version };

    /// Publishes a record, and tells its version: where `shelf.look()` gives 2 and nobody else publishes,
    /// `shelf.publish(new)` gives `Ok(3)`.
    ///
    /// # Errors
    /// [`PublishFault::Full`] only where [`MOST_RECORDS`] records are held, and
    /// [`PublishFault::NoMemory`] where memory was wanted. Nothing was published then.
    fn publish(&mut self, new: Arc<Record>) -> Result<u32, PublishFault>
        ensures published { Publishes (alone self.old) (seen self.old) (seen self.new) (arc_value new)
            (published self.old) (published self.new) result }
        ensures memory { sure self.old ≡ true → result ≢ Err PublishFault.NoMemory }
        ensures alone { alone self.new ≡ alone self.old }
        ensures sure { sure self.new ≡ sure self.old };
}
