//! Calls on sides.
ghost use Rattle.std.specs.Prelude.{◌≡◌, ◌<◌, ◌↔◌, IsTrue, length, map, not, slice_set};
ghost use Rattle.cut_model.specs.Cuts.{across, cut_value, differ, set_of};
ghost use Rattle.cut_sides.specs.Parts.{IsPartOf};

use cut_model::{Link, Network, Side};

/// Whether exactly one of two routers is in the side. With a side that holds router 0 alone,
/// `separates(&side, 0, 1)` is true and `separates(&side, 1, 2)` is false.
#[inline]
pub fn separates(side: &Side, a: u32, b: u32) -> bool
    requires a { a < length side.now }
    requires b { b < length side.now }
    ensures { result ≡ differ (set_of side.now a) (set_of side.now b) }
{
    side.has(a) != side.has(b)
}

/// What a link adds to the value of a side: its capacity if it has exactly one end in the side.
#[inline]
fn crossing(side: &Side, link: Link) -> u64
    requires a { link.a < length side.now }
    requires b { link.b < length side.now }
    ensures { result ≡ across (set_of side.now) link }
{
    if separates(side, link.a, link.b) {
        link.cap
    } else {
        0
    }
}

/// The value of a side: the capacities of all links with exactly one end in it, together. It looks at
/// each link once. It is 2 for the side that holds router 0 alone, in the network of three routers with
/// the links `{ a: 0, b: 1, cap: 2 }` and `{ a: 1, b: 2, cap: 3 }`.
pub fn value_of(net: &Network, side: &Side) -> u64
    requires { length side.now ≡ net.now.routers }
    ensures { result ≡ cut_value net.now (set_of side.now) }
{
    let mut sum = 0;
    for link in net.links() {
        sum += crossing(side, *link);
    }
    sum
}

/// Takes each router that is in out, and puts each other one in. It looks at each router once. A side
/// of three routers that holds router 0 alone then holds routers 1 and 2.
pub fn turn_over(side: &mut Side)
    ensures { side.new ≡ map not side.old }
{
    for router in 0..side.size() {
        turn(side, router);
    }
}

/// Takes a router out where it is in, and puts it in where it is not.
fn turn(side: &mut Side, router: u32)
    requires { router < length side.old }
    ensures { side.new ≡ slice_set side.old router (not (set_of side.old router)) }
{
    if side.has(router) {
        side.take_out(router);
    } else {
        side.put(router);
    }
}

/// Whether each router of the one side is in the other side too. It looks at each router at most
/// once. A side that holds router 0 alone is a part of one that holds routers 0 and 1.
pub fn is_part_of(small: &Side, large: &Side) -> bool
    requires { length small.now ≡ length large.now }
    ensures { IsTrue result ↔ IsPartOf (set_of small.now) (set_of large.now) }
{
    for router in 0..small.size() {
        if small.has(router) && !large.has(router) {
            return false;
        }
    }
    true
}
