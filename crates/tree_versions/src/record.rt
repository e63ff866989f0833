//! A network that was published.
ghost use Rattle.std.specs.Prelude.{◌≡◌, IfOk};
ghost use Rattle.std.specs.Arc.{arc_value};
ghost use Rattle.path_minimum.specs.Ladders.{IsLadderOf};
ghost use Rattle.tree_state.specs.Views.{HoldsCutTree};
ghost use Rattle.tree_state.specs.History.{IsComplete};
ghost use Rattle.tree_versions.specs.Records.{tree_of};

use cut_model::NoMemory;
use network_text::Sheet;
use path_minimum::Ladder;
use std::alloc::Global;
use std::marker::Model;
use std::sync::Arc;
use tree_state::Finished;

/// A network with the names of its routers, the finished run that made its tree, and the ladder of that
/// tree. Contracts see a `RecordView`.
#[derive(Drop)]
pub struct Record {
    sheet: Sheet,
    finished: Finished,
    ladder: Ladder,
}

impl Model for Record {
    ghost use Rattle.tree_versions.specs.Records.{BelongTogether, RecordView};

    ghost Value = { RecordView };

    ghost view = { λ r. record { sheet = r.sheet; history = r.finished.tree.history } };

    ghost invariant = { λ r. BelongTogether r.sheet.net r.finished.tree r.ladder };
}

impl Record {
    /// The record of a sheet and of the finished run over its network. It makes the ladder of the tree, so
    /// `record.ladder()` is that of `record.finished()`.
    ///
    /// # Errors
    /// [`NoMemory`] where the memory of a record can't be had.
    pub fn make(alloc: Global, sheet: Sheet, finished: Finished) -> Result<Arc<Record>, NoMemory>
        requires same { finished.tree.net ≡ sheet.net }
        ensures { IfOk result (λ made. arc_value made ≡ record { sheet = sheet; history = finished.tree.history }) }
    {
        let ladder = Ladder::make(alloc, &finished)?;
        // The tree is one of the sheet's network: what its type keeps holds of that.
        prove!(finished.net().routers() == sheet.net().routers());
        let record = Record {
            sheet,
            finished,
            ladder,
        };
        Ok(Arc::new(alloc, record)?)
    }

    /// The names and the network.
    #[inline]
    pub fn sheet(&self) -> &Sheet
        ensures { result.now ≡ self.now.sheet }
    {
        &self.sheet
    }

    /// The finished run over the network of the sheet, and its tree.
    #[inline]
    pub fn finished(&self) -> &Finished
        ensures value { result.now.tree ≡ tree_of self.now }
        ensures complete { IsComplete self.now.sheet.net self.now.history }
        ensures tree { HoldsCutTree (tree_of self.now) }
    {
        &self.finished
    }

    /// The ladder of the tree.
    #[inline]
    pub fn ladder(&self) -> &Ladder
        ensures { IsLadderOf (tree_of self.now) result.now }
    {
        &self.ladder
    }
}
