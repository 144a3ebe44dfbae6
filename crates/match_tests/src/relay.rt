//! A relay that is full.
use live_pipeline::{Part, Relay};
use std::test::Fail;

// A relay with room for one part.
#[test]
fn a_full_relay_hands_a_part_back(rt: HostRuntime) -> Result<(), Fail> {
    let (relay, mut put, mut take) = Relay::open(rt.alloc(), 1)?;
    assert!(rt; relay.try_take(&rt, &mut take).is_none());
    assert!(rt; relay.try_put(&rt, &mut put, Part::End).is_ok());
    let back = relay.try_put(&rt, &mut put, Part::NoMemory);
    assert!(rt; matches!(back, Err(Part::NoMemory)));
    let taken = relay.try_take(&rt, &mut take);
    assert!(rt; matches!(taken, Some(Part::End)));
    assert!(rt; relay.try_take(&rt, &mut take).is_none());
    relay.put(&rt, &mut put, Part::ReadFailed);
    let taken = relay.take(&rt, &mut take);
    assert!(rt; matches!(taken, Part::ReadFailed));
    relay.close(put, take);
    Ok(())
}
