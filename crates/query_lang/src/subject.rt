//! What replies are read from.
ghost use Rattle.std.specs.Prelude.{◌≡◌};
ghost use Rattle.path_minimum.specs.Ladders.{IsLadderOf};

use network_text::Sheet;
use path_minimum::Ladder;
use tree_state::Finished;

/// A network with the names of its routers, the finished run over it, and the ladder of its tree: the
/// three belong together.
#[derive(Drop)]
pub(crate) struct Subject<'a> {
    pub(crate) sheet: &'a Sheet,
    pub(crate) finished: &'a Finished,
    pub(crate) ladder: &'a Ladder,
    ghost same: { finished.now.tree.net ≡ sheet.now.net },
    ghost rungs: { IsLadderOf finished.now.tree ladder.now },
}
