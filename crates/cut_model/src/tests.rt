//! Networks that are made, and those that are refused.
use crate::{Link, NetFault, Network};
use std::test::Fail;

/// What a call of `make` found fault with.
fn fault_of(made: Result<Network, (NetFault, Vec<Link>)>) -> Option<NetFault> {
    match made {
        Ok(_) => None,
        Err((fault, _)) => Some(fault),
    }
}

#[test]
fn networks_by_call(rt: HostRuntime) -> Result<(), Fail> {
    let own = Link { a: 0, b: 0, cap: 3 };
    let outside = Link { a: 0, b: 5, cap: 1 };
    let large = Link {
        a: 0,
        b: 1,
        cap: 1_000_000_000_001,
    };
    let none = Network::make(0, Vec::new(rt.alloc()));
    assert_eq!(rt; fault_of(none), Some(NetFault::NoRouter));
    let both = Network::make(2, vec![in rt.alloc(); large, outside]?);
    assert_eq!(rt; fault_of(both), Some(NetFault::EndOutside(1)));
    let one = Network::make(2, vec![in rt.alloc(); large]?);
    assert_eq!(rt; fault_of(one), Some(NetFault::CapTooLarge(0)));
    let lone = Network::make(1, vec![in rt.alloc(); own]?);
    assert_eq!(rt; fault_of(lone), None);
    Ok(())
}
