//! Two coins of 3 and 5 with the costs 2 and 3, and an instance at the limits of its numbers.
ghost use Rattle.std.specs.Prelude.{◌≡◌, ◌≤◌, length, All, IfOk};
ghost use Rattle.ct_vectors.specs.declared.limits.TheConstants.{ENTRY_LIMIT};

use ct_instance::Instance;
use ct_point::Point;
use std::alloc::{AllocError, Global};
use std::test::Fail;

#[test]
fn points_of_an_instance(rt: HostRuntime) -> Result<(), Fail> {
    let alloc = rt.alloc();
    let coins = Instance::from_limited(alloc, 1, 2, &[3, 5], &[2, 3])?;
    let start = coins.start(alloc, &[15])?;
    assert!(rt; start.as_slice() == [0, 0, 15].as_slice());
    let unit = coins.unit(alloc, 2)?;
    assert!(rt; unit.as_slice() == [0, 1, 0].as_slice());
    let column = coins.column_point(alloc, 2)?;
    assert!(rt; column.as_slice() == [0, 0, 5].as_slice());
    Ok(())
}

// The columns of one row with these two entries.
fn two_columns(alloc: Global, first: u64, second: u64) -> Result<Vec<Point>, AllocError>
    requires first { first ≤ ENTRY_LIMIT }
    requires second { second ≤ ENTRY_LIMIT }
    ensures count { IfOk result (λ cs. length cs.items ≡ 2) }
    ensures entries { IfOk result (λ cs. All (λ c. (length c ≡ 1) × All (λ a. a ≤ ENTRY_LIMIT) c) cs.items) }
{
    let mut columns = Vec::new(alloc);
    columns.push(Point::from_slice(alloc, &[first])?)?;
    columns.push(Point::from_slice(alloc, &[second])?)?;
    Ok(columns)
}

#[test]
fn instances_by_columns_and_by_entries(rt: HostRuntime) -> Result<(), Fail> {
    let alloc = rt.alloc();
    let coins = Instance::from_columns(alloc, 1, two_columns(alloc, 3, 5)?, &[2, 3])?;
    assert!(rt; coins.sums() == [3, 5].as_slice());
    let limits = Instance::new(alloc, 1, 2, &[3, 1_000_000], &[2, -1_000_000_000_000, 0, 0])?;
    assert!(rt; limits.sums() == [3, 1_000_000].as_slice());
    Ok(())
}
