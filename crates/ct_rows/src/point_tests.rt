//! Sums and least common multiples of points.

use ct_point::Point;
use std::test::Fail;

#[test]
fn sum_and_lcm(rt: HostRuntime) -> Result<(), Fail> {
    let alloc = rt.alloc();
    let p = Point::from_slice(alloc, &[1, 0, 2])?;
    let q = Point::from_slice(alloc, &[0, 1, 1])?;
    let sum = p.add(alloc, &q)?;
    assert!(rt; sum.as_slice() == [1, 1, 3].as_slice());
    let lcm = p.lcm(alloc, &q)?;
    assert!(rt; lcm.as_slice() == [1, 1, 2].as_slice());
    Ok(())
}
