//! A least point by listing.

use ct_instance::Instance;
use ct_slow::least_by_listing;
use std::test::Fail;

#[test]
fn two_rows(rt: HostRuntime) -> Result<(), Fail> {
    let alloc = rt.alloc();
    let inst = Instance::new(alloc, 2, 3, &[1, 1, 0, 0, 1, 1], &[1, 1, 1])?;
    let least = least_by_listing(alloc, &inst, &[2, 2])?;
    assert!(rt; least.as_slice() == [0, 2, 0, 0, 0].as_slice());
    Ok(())
}
