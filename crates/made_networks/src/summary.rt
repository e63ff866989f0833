//! What a network is summed up by.
ghost use Rattle.std.specs.Prelude.{◌≡◌, ◌-◌, ◌<◌, ◌≤◌};
ghost use Rattle.cut_model.specs.Lambda.{lambda};
ghost use Rattle.cut_model.specs.declared.network.TheConstants.{MOST_VALUE};
ghost use Rattle.path_minimum.specs.Ladders.{IsLadderOf};
ghost use Rattle.made_networks.specs.Summaries.{IsLeastOfPairs, IsSummaryOf, sum_from_first};

use path_minimum::{Ladder, least_on_path_uncounted};
use tree_state::Finished;

/// What a network of two routers or more is summed up by.
#[derive(Clone, Copy, PartialEq, Eq, Debug)]
pub struct Summary {
    /// How many routers it has.
    pub routers: u32,
    /// How many links it has.
    pub links: u32,
    /// What the cheapest of all least cuts of two routers costs.
    pub least: u64,
    /// What the least cuts of router 0 and each other router cost, together.
    pub sum: u64,
}

/// The summary of the network of a tree. It says what the least cuts of pairs cost and nothing of the tree, and a
/// network has [one](crate::laws::summary_is_one) summary. The tree of `make_network(alloc, 7, 3, 3)` gives 3
/// routers, 3 links, the least cost 355 and the sum 1098. It looks a few times at the ladder for each router.
pub fn sum_up(finished: &Finished, ladder: &Ladder) -> Summary
    requires ladder { IsLadderOf finished.now.tree ladder.now }
    requires two { 2 ≤ finished.now.tree.net.routers }
    ensures { IsSummaryOf finished.now.tree.net result }
{
    let net = finished.net();
    Summary {
        routers: net.routers(),
        links: net.links().len() as u32,
        least: least_of_pairs(finished, ladder),
        sum: sum_values(finished, ladder),
    }
}

/// What the cheapest of all least cuts of two routers costs: the width of the weakest edge.
fn least_of_pairs(finished: &Finished, ladder: &Ladder) -> u64
    requires ladder { IsLadderOf finished.now.tree ladder.now }
    requires two { 2 ≤ finished.now.tree.net.routers }
    ensures { IsLeastOfPairs finished.now.tree.net result }
{
    prove!(finished.net().routers() >= 2);
    let Some(cut) = ladder.weakest(finished) else {
        unreachable!()
    };
    cut.edge.width
}

/// What the least cuts of router 0 and another one cost.
fn value_from_first(finished: &Finished, ladder: &Ladder, router: u32) -> u64
    requires ladder { IsLadderOf finished.now.tree ladder.now }
    requires other { 0 < router }
    requires within { router < finished.now.tree.net.routers }
    ensures value { result ≡ lambda finished.now.tree.net 0 router }
    ensures most { result ≤ MOST_VALUE }
{
    prove!(router < finished.net().routers());
    least_on_path_uncounted(ladder, finished, 0, router).width
}

/// What the least cuts of router 0 and each other router cost, together.
fn sum_values(finished: &Finished, ladder: &Ladder) -> u64
    requires { IsLadderOf finished.now.tree ladder.now }
    ensures { result ≡ sum_from_first finished.now.tree.net (finished.now.tree.net.routers - 1) }
{
    let mut sum = 0;
    for router in 1..finished.net().routers() {
        sum += value_from_first(finished, ladder, router);
    }
    sum
}
