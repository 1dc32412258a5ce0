//! Networks: the least bounds, the earliest dates, and the cycles of bounds that no dates meet.
ghost use Rattle.std.specs.Prelude.{◌≡◌, Some, IfOk};
ghost use Rattle.crs_stn.specs.Bound.{IsWithin};

use crs_stn::{Bound, Network, StnRefused};
use std::alloc::{AllocError, Global};
use std::test::Fail;

const SIZE: i64 = 1 << 40;

fn at_most(from: u8, to: u8, most: i64) -> Bound
    ensures { result ≡ record { from = from; to = to; most = Some most } }
{
    Bound {
        from,
        to,
        most: Some(most),
    }
}

/// The bound from one point to another, where there is one.
fn between(bounds: &[Bound], from: Option<u8>, to: Option<u8>) -> Option<i64> {
    let bound = bounds
        .iter()
        .find(|b| Some(b.from) == from && Some(b.to) == to)?;
    bound.most
}

/// The bounds along a cycle of three points, summed.
fn length_of(bounds: &[Bound], cycle: &[Option<u8>; 3]) -> Option<i64> {
    let first = between(bounds, cycle[0], cycle[1])?;
    let second = between(bounds, cycle[1], cycle[2])?;
    let third = between(bounds, cycle[2], cycle[0])?;
    first.checked_add(second)?.checked_add(third)
}

#[test]
fn three_points_in_a_cycle(rt: HostRuntime) -> Result<(), Fail> {
    let alloc = rt.alloc();
    // t2 - t1 in [5, 10], t3 - t2 in [5, 10], t3 - t1 in [0, 8]
    let bounds = [
        at_most(0, 1, 10),
        at_most(1, 0, -5),
        at_most(1, 2, 10),
        at_most(2, 1, -5),
        at_most(0, 2, 8),
        at_most(2, 0, 0),
    ];
    // from t1 to t3 8, to t2 -5, to t1 -5: -2
    let turns = [[0, 2, 1], [2, 1, 0], [1, 0, 2]];
    let refused = Network::close(alloc, 3, &bounds).err().ok_or("closed")?;
    assert_eq!(rt; format!(in alloc; "{refused}")?.as_str(), "Inconsistent");
    let StnRefused::Inconsistent { cycle } = refused else {
        return Err("out of memory".into());
    };
    assert_eq!(rt; cycle.len(), 3);
    assert_eq!(rt; cycle.get(3), None);
    let got = [cycle.get(0), cycle.get(1), cycle.get(2)];
    assert!(rt; turns.iter().any(|turn| got == [Some(turn[0]), Some(turn[1]), Some(turn[2])]));
    assert_eq!(rt; length_of(&bounds, &got), Some(-2));
    Ok(())
}

#[test]
fn short_cycles(rt: HostRuntime) -> Result<(), Fail> {
    // t2 - t1 in [1, 5], t1 - t2 in [0, 9]: from t1 to t2 0, to t1 -1: -1
    let bounds = [
        at_most(0, 1, 5),
        at_most(1, 0, -1),
        at_most(1, 0, 9),
        at_most(0, 1, 0),
    ];
    let refused = Network::close(rt.alloc(), 2, &bounds)
        .err()
        .ok_or("closed")?;
    let StnRefused::Inconsistent { cycle } = refused else {
        return Err("out of memory".into());
    };
    let got = (cycle.len(), cycle.get(0), cycle.get(1));
    assert!(rt; got == (2, Some(0), Some(1)) || got == (2, Some(1), Some(0)));
    let bounds = [at_most(1, 1, -1)];
    let refused = Network::close(rt.alloc(), 2, &bounds)
        .err()
        .ok_or("closed")?;
    let StnRefused::Inconsistent { cycle } = refused else {
        return Err("out of memory".into());
    };
    assert_eq!(rt; (cycle.len(), cycle.get(0)), (1, Some(1)));
    Ok(())
}

#[test]
fn two_events_near_a_free_point(rt: HostRuntime) -> Result<(), Fail> {
    // t1 - z in [0, 3], t2 - z in [0, 3]
    let bounds = [
        at_most(2, 0, 3),
        at_most(0, 2, 0),
        at_most(2, 1, 3),
        at_most(1, 2, 0),
    ];
    let network = Network::close(rt.alloc(), 3, &bounds)?;
    assert_eq!(rt; network.most(0, 1), Some(3));
    assert_eq!(rt; network.most(1, 0), Some(3));
    assert_eq!(rt; network.most(0, 2), Some(0));
    assert_eq!(rt; network.most(2, 0), Some(3));
    let earliest = network.earliest();
    assert_eq!(rt; earliest.len(), 3);
    assert_eq!(rt; earliest.get(2), Some(0));
    assert_eq!(rt; earliest.get(3), None);
    Ok(())
}

#[test]
fn few_bounds_and_none(rt: HostRuntime) -> Result<(), Fail> {
    let empty = Network::close(rt.alloc(), 0, &[])?;
    assert_eq!(rt; empty.earliest().len(), 0);
    let nothing = Bound {
        from: 1,
        to: 0,
        most: None,
    };
    let network = Network::close(rt.alloc(), 2, &[nothing, at_most(0, 1, -4)])?;
    assert_eq!(rt; network.most(0, 1), Some(-4));
    assert_eq!(rt; network.most(1, 0), None);
    assert_eq!(rt; network.earliest().get(0), Some(4));
    assert_eq!(rt; network.earliest().get(1), Some(0));
    Ok(())
}

// Each point of 24 is 2^40 or more after the one before it.
fn long_chain(alloc: Global) -> Result<Vec<Bound>, AllocError>
    ensures { IfOk result (λ bounds. IsWithin 24 bounds.items) }
{
    let mut bounds = Vec::new(alloc);
    for point in 0..23 {
        bounds.push(at_most(point + 1, point, -SIZE))?;
    }
    Ok(bounds)
}

#[test]
fn many_points_far_apart(rt: HostRuntime) -> Result<(), Fail> {
    let alloc = rt.alloc();
    let bounds = long_chain(alloc)?;
    let network = Network::close(alloc, 24, &bounds)?;
    assert_eq!(rt; network.most(23, 0), Some(-23 * SIZE));
    assert_eq!(rt; network.most(0, 23), None);
    let earliest = network.earliest();
    assert_eq!(rt; earliest.len(), 24);
    assert_eq!(rt; earliest.get(0), Some(0));
    assert_eq!(rt; earliest.get(23), Some(23 * SIZE));
    Ok(())
}
