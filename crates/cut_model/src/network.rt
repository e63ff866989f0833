//! Networks of routers and links, within their limits.
ghost use Rattle.std.specs.Prelude.{◌≡◌, ℕ, ◌<◌, ◌≤◌, ◌↔◌, All, IfErr, IfOk};
ghost use Rattle.std.specs.Prelude.{IfSome, OnOk, IsTrue, Some, None, length, position};
ghost use Rattle.cut_model.specs.Net.{IsInLimits, IsLink, has_end_outside, has_large_cap, net_fault};
ghost use Rattle.cut_model.specs.declared.network.TheConstants.{MOST_ROUTERS, MOST_LINKS};
ghost use Rattle.cut_model.specs.Terminals.{is_terminal, IsTerminal, terminal_count, root_of};

use std::marker::Model;
use thiserror::Error;

/// The greatest number of routers in a network.
pub const MOST_ROUTERS: u32 = 1024;

/// The greatest number of links in a network.
pub const MOST_LINKS: usize = 8192;

/// The greatest capacity of a link.
pub const MOST_CAPACITY: u64 = 1_000_000_000_000;

/// The greatest value of a cut: that of all links that a network may have, each of the greatest capacity.
pub const MOST_VALUE: u64 = MOST_LINKS as u64 * MOST_CAPACITY;

/// A link between two routers, which carries up to `cap` units in either direction. A link may join
/// a router to itself, and several links may join the same two routers.
#[derive(Clone, Copy, PartialEq, Eq, Debug)]
pub struct Link {
    /// The end from which a positive flow comes.
    pub a: u32,
    /// The end to which a positive flow goes.
    pub b: u32,
    /// The capacity, at most [`MOST_CAPACITY`] in a network.
    pub cap: u64,
}

/// Why a number of routers and a list of links are no network, the first cause that applies.
#[derive(Clone, Copy, PartialEq, Eq, Debug, Error)]
pub enum NetFault {
    #[error("a network has at least one router")]
    NoRouter,
    #[error("there are too many routers")]
    TooManyRouters,
    #[error("there are too many links")]
    TooManyLinks,
    /// The place in the list, counted from 0, of the first link with an end that is no router.
    #[error("link {0} has an end outside the network")]
    EndOutside(u32),
    /// The place in the list, counted from 0, of the first link of more than [`MOST_CAPACITY`].
    #[error("link {0} has too large a capacity")]
    CapTooLarge(u32),
}

/// A network within its limits: 1 to [`MOST_ROUTERS`] routers, numbered from 0, and at most
/// [`MOST_LINKS`] links, each between two of the routers and of a capacity of at most [`MOST_CAPACITY`].
/// Contracts see a `Net`.
#[derive(Drop)]
pub struct Network {
    routers: u32,
    links: Vec<Link>,
}

impl Model for Network {
    ghost use Rattle.cut_model.specs.Net.{Net, IsInLimits};

    ghost Value = { Net };

    ghost view = { λ n. record { routers = n.routers; links = n.links.items } };

    ghost invariant = { λ n. IsInLimits (record { routers = n.routers; links = n.links.items }) };
}

/// The place of the first link with an end that is no router.
fn first_outside(routers: u32, links: &[Link]) -> Option<usize>
    ensures place { result ≡ position (has_end_outside routers) links.now }
    ensures within { IfSome result (λ i. i < length links.now) }
{
    links
        .iter()
        .position(|link| link.a >= routers || link.b >= routers)
}

/// The place of the first link with too large a capacity.
fn first_large(links: &[Link]) -> Option<usize>
    ensures place { result ≡ position has_large_cap links.now }
    ensures within { IfSome result (λ i. i < length links.now) }
{
    links.iter().position(|link| link.cap > MOST_CAPACITY)
}

/// The first fault of a number of routers and a list of links, in two passes over the links.
fn find_fault(routers: u32, links: &[Link]) -> Option<NetFault>
    ensures { result ≡ net_fault routers links.now }
{
    if routers == 0 {
        return Some(NetFault::NoRouter);
    }
    if routers > MOST_ROUTERS {
        return Some(NetFault::TooManyRouters);
    }
    if links.len() > MOST_LINKS {
        return Some(NetFault::TooManyLinks);
    }
    match (first_outside(routers, links), first_large(links)) {
        (Some(i), _) => Some(NetFault::EndOutside(i as u32)),
        (None, Some(i)) => Some(NetFault::CapTooLarge(i as u32)),
        (None, None) => None,
    }
}

impl Network {
    /// The network of these routers and links, or its first fault with the links handed back. It never
    /// fails for want of memory, and looks at each link at most twice.
    ///
    /// # Errors
    /// A [`NetFault`], the first that applies in the order in which they stand there. Two routers with the
    /// links `{ a: 0, b: 1, cap: 1_000_000_000_001 }` and `{ a: 0, b: 5, cap: 1 }` get `EndOutside(1)`.
    pub fn make(routers: u32, links: Vec<Link>) -> Result<Network, (NetFault, Vec<Link>)>
        ensures fault { IfErr result (λ e. net_fault routers links.items ≡ Some e.0) }
        ensures links_back { IfErr result (λ e. e.1.items ≡ links.items) }
        ensures faultless { OnOk result (net_fault routers links.items ≡ None) }
        ensures value { IfOk result (λ n. n ≡ record { routers = routers; links = links.items }) }
    {
        match find_fault(routers, &links) {
            Some(fault) => Err((fault, links)),
            None => Ok(Network { routers, links }),
        }
    }

    /// The number of routers, from 1 to [`MOST_ROUTERS`].
    #[inline]
    pub fn routers(&self) -> u32
        ensures value { result ≡ self.now.routers }
        ensures some { 0 < result }
        ensures most { result ≤ MOST_ROUTERS }
        ensures limits { IsInLimits self.now }
    {
        self.routers
    }

    /// The links in their order, at most [`MOST_LINKS`].
    #[inline]
    pub fn links(&self) -> &[Link]
        ensures value { result.now ≡ self.now.links }
        ensures most { length result.now ≤ MOST_LINKS }
        ensures within { All (IsLink self.now.routers) result.now }
        ensures limits { IsInLimits self.now }
    {
        self.links.as_slice()
    }

    /// Whether both are the same network: the same number of routers, and the same links in the same
    /// order. It looks at each link at most once. A network with the same links in another order is
    /// another network.
    pub fn same_as(&self, other: &Network) -> bool
        ensures { IsTrue result ↔ (self.now ≡ other.now) }
    {
        self.routers == other.routers && self.links == other.links
    }

    /// Whether a router is a terminal: one between which and others cuts may be asked for. Every
    /// router is.
    #[inline]
    #[tactic(auto, unfolding(crate::specs::Terminals::is_terminal))]
    pub fn is_terminal(&self, router: u32) -> bool
        requires { router < self.now.routers }
        ensures { result ≡ is_terminal self.now router }
    {
        router < self.routers
    }

    /// How many terminals there are, from 1 to [`MOST_ROUTERS`].
    #[inline]
    pub fn terminals(&self) -> u32
        ensures value { result ≡ terminal_count self.now }
        ensures some { 0 < result }
        ensures most { result ≤ self.now.routers }
    {
        self.routers
    }

    /// The root of all trees: the terminal of smallest number.
    #[inline]
    #[tactic(auto, unfolding(crate::specs::Terminals::root_of))]
    pub fn root(&self) -> u32
        ensures value { result ≡ root_of self.now }
        ensures within { result < self.now.routers }
        ensures terminal { IsTerminal self.now result }
        ensures first { (r : ℕ) → IsTerminal self.now r → result ≤ r }
    {
        // That a field is looked at shows what the type keeps: there is a router, so 0 is one.
        let _ = &self.routers;
        0
    }
}
