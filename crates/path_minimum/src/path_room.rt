//! Room for a path.
ghost use Rattle.std.specs.Prelude.{◌≡◌, [], IfOk};

use cut_model::{MOST_ROUTERS, NoMemory};
use std::alloc::Global;
use std::marker::Model;

/// Room for the longest path, of fewer edges than [`MOST_ROUTERS`], and the path that `path` left there
/// last, each edge by the router at its lower end. Contracts see the list of these routers.
#[derive(Drop)]
pub struct PathRoom {
    pub(crate) children: Vec<u32>,
}

impl Model for PathRoom {
    ghost use Rattle.std.specs.Prelude.{◌≤◌, List, ℕ, vec_capacity};
    ghost use Rattle.cut_model.specs.declared.network.TheConstants.{MOST_ROUTERS};

    ghost Value = { List ℕ };

    ghost view = { λ r. r.children.items };

    ghost invariant = { λ r. MOST_ROUTERS ≤ vec_capacity r.children };
}

impl PathRoom {
    /// Room with no path in it.
    ///
    /// # Errors
    /// [`NoMemory`] where its memory can't be had, 4 bytes for each of [`MOST_ROUTERS`].
    pub fn make(alloc: Global) -> Result<PathRoom, NoMemory>
        ensures { IfOk result (λ room. room ≡ []) }
    {
        Ok(PathRoom {
            children: Vec::with_capacity(alloc, MOST_ROUTERS as usize)?,
        })
    }

    /// The routers at the lower ends of the path's edges, in the order of the path.
    #[inline]
    pub fn children(&self) -> &[u32]
        ensures { result.now ≡ self.now }
    {
        self.children.as_slice()
    }
}
