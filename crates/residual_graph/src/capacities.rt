//! What is left on the two arcs of each link.
ghost use Rattle.std.specs.Prelude.{◌≡◌, ◌≢◌, ℕ, ◌+◌, ◌-◌, ◌*◌, ◌^◌, ◌<◌, ◌≤◌, ◌++◌, ◌-ℤ◌};
ghost use Rattle.std.specs.Prelude.{All, drop, false, length, pos, slice_index};
ghost use Rattle.cut_model.specs.declared.network.TheConstants.{MOST_CAPACITY};
ghost use Rattle.residual_graph.specs.Fills.{HasCaps, HasCapsBut, after};

use crate::touched::Touched;
use cut_model::Link;

/// Copies the links to the front of a list, and leaves the rest of it.
pub fn keep(links: &[Link], kept: &mut [Link])
    requires { length links.now ≤ length kept.old }
    ensures { kept.new ≡ links.now ++ drop (length links.now) kept.old }
{
    kept[..links.len()].copy_from_slice(links);
}

/// Leaves the whole capacity of each link on its two arcs.
pub fn set_left(links: &[Link], left: &mut [u64])
    requires { 2 * length links.now ≤ length left.old }
    ensures { HasCaps links.now left.new }
{
    for (i, link) in links.iter().enumerate() {
        left[2 * i] = link.cap;
        left[2 * i + 1] = link.cap;
    }
}

/// Leaves the whole capacity of each link on its two arcs, where that is so already for all links
/// but the touched ones.
pub fn reset(touched: &[u32], links: &[Link], left: &mut [u64])
    requires room { 2 * length links.now ≤ length left.old }
    requires touched { All (λ i. i < length links.now) touched.now }
    requires others { HasCapsBut links.now left.old touched.now }
    ensures { HasCaps links.now left.new }
{
    for link in touched {
        let link = *link as usize;
        let cap = links[link].cap;
        left[2 * link] = cap;
        left[2 * link + 1] = cap;
    }
}

/// Leaves the whole capacity of each link on its two arcs, where all that may lack it are touched.
pub fn restore(touched: &Touched, links: &[Link], left: &mut [u64])
    requires room { 2 * length links.now ≤ length left.old }
    requires touched { All (λ i. i < length links.now) touched.now.links }
    requires others { touched.now.all ≡ false → HasCapsBut links.now left.old touched.now.links }
    ensures { HasCaps links.now left.new }
{
    if touched.is_all() {
        set_left(links, left);
    } else {
        reset(touched.links(), links, left);
    }
}

/// Takes an amount from what is left on one arc, and adds it to what is left on another.
#[inline(always)]
pub fn move_amount(left: &mut [u64], from: u32, to: u32, amount: u64)
    requires apart { from ≢ to }
    requires from { from < length left.old }
    requires to { to < length left.old }
    requires enough { amount ≤ slice_index left.old from }
    requires room { slice_index left.old to + amount < 2 ^ 64 }
    ensures { left.new ≡ after left.old from to amount }
{
    left[from as usize] -= amount;
    left[to as usize] += amount;
}

/// The flow on a link: its capacity less what is left on its first arc.
#[inline(always)]
pub fn flow_of(cap: u64, left: u64) -> i64
    requires cap { cap ≤ MOST_CAPACITY }
    requires left { left ≤ 2 * MOST_CAPACITY }
    ensures { result ≡ pos cap -ℤ pos left }
{
    cap as i64 - left as i64
}
