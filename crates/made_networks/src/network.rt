//! The network that a seed makes.
ghost use Rattle.std.specs.Prelude.{◌≡◌, ◌<◌, ◌≤◌, IfOk};
ghost use Rattle.cut_model.specs.declared.network.TheConstants.{MOST_LINKS, MOST_ROUTERS};
ghost use Rattle.made_networks.specs.declared.draws.TheConstants.{MOST_SEED};
ghost use Rattle.made_networks.specs.Draws.{made_links, made_net};

use crate::draws::{Draws, MOST_SEED};
use cut_model::{Link, MOST_LINKS, MOST_ROUTERS, Network, NoMemory};
use std::alloc::Global;

/// The network that a seed of at most [`MOST_SEED`] makes: 2 to [`MOST_ROUTERS`] routers, and at most
/// [`MOST_LINKS`] links, each by three draws. The first draw, divided by the number of routers, leaves the
/// first end, the second one the second end, and the third one, divided by 1000, leaves one less than the
/// capacity. So a link may join a router to itself, and links may join the same two.
///
/// With the seed 7, `make_network(alloc, 7, 3, 3)` has the links 2 to 2 of 613, 0 to 2 of 743 and 1 to 0 of
/// 355. It takes time proportional to the number of links.
///
/// # Errors
/// [`NoMemory`] where the memory of the links can't be had.
pub fn make_network(alloc: Global, seed: u32, routers: u32, links: u32) -> Result<Network, NoMemory>
    requires seed { seed ≤ MOST_SEED }
    requires two { 2 ≤ routers }
    requires few_routers { routers ≤ MOST_ROUTERS }
    requires few_links { links ≤ MOST_LINKS }
    ensures { IfOk result (λ net. net ≡ made_net seed routers links) }
{
    let made = make_links(alloc, seed, routers, links)?;
    let Ok(net) = Network::make(routers, made) else {
        unreachable!()
    };
    Ok(net)
}

/// The links that a seed makes, in their order.
fn make_links(alloc: Global, seed: u32, routers: u32, count: u32) -> Result<Vec<Link>, NoMemory>
    requires seed { seed ≤ MOST_SEED }
    requires some { 0 < routers }
    ensures { IfOk result (λ links. links.items ≡ made_links seed routers count) }
{
    let mut draws = Draws::of_seed(seed);
    let mut links = Vec::with_capacity(alloc, count as usize)?;
    for _number in 0..count {
        links.push(draws.draw_link(routers))?;
    }
    Ok(links)
}
