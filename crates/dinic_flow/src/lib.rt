//! The least cut of two routers, by Dinic's method.
//!
//! A `FlowDesk` answers, in room that it took once, for any network that fits and any two routers:
//! the value of a least cut, the least side of one, and a flow of that value.
#![tactic(auto)]

mod blocking;
mod cut;
mod desk;
mod flow;
mod labels;
mod search;
#[cfg(test)]
mod tests;

pub use desk::FlowDesk;
