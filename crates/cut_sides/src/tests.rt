//! Sides of a network of six routers, worked by hand.
use crate::{is_part_of, separates, turn_over, value_of};
use cut_model::{Link, Network, Side};
use std::test::Fail;

fn link(a: u32, b: u32, cap: u64) -> Link {
    Link { a, b, cap }
}

#[test]
fn sides_of_six_routers(rt: HostRuntime) -> Result<(), Fail> {
    let links = vec![in rt.alloc();
        link(0, 1, 1),
        link(0, 2, 7),
        link(1, 2, 1),
        link(1, 3, 3),
        link(1, 4, 2),
        link(2, 4, 4),
        link(3, 4, 1),
        link(3, 5, 6),
        link(4, 5, 2),
    ]?;
    let net = Network::make(6, links).ok().ok_or("no network")?;
    let mut side = Side::empty(6);
    side.put(0);
    side.put(2);
    assert!(&rt; net.routers() == 6);
    assert_eq!(rt; value_of(&net, &side), 6);
    assert_eq!(rt; separates(&side, 0, 5), true);
    assert_eq!(rt; separates(&side, 0, 2), false);
    let mut other = side;
    turn_over(&mut other);
    assert_eq!(rt; other.has(5), true);
    assert_eq!(rt; other.has(2), false);
    assert_eq!(rt; value_of(&net, &other), 6);
    assert_eq!(rt; is_part_of(&side, &other), false);
    other.put(0);
    other.put(2);
    assert_eq!(rt; is_part_of(&side, &other), true);
    Ok(())
}
