//! The least solutions above a version's level.

use ct_best::{BestStop, best};
use ct_book::Book;
use ct_instance::Instance;
use std::sync::Arc;
use std::test::Fail;

#[test]
fn not_yet_above_the_level(rt: HostRuntime) -> Result<(), Fail> {
    let alloc = rt.alloc();
    let inst = Instance::new(alloc, 1, 2, &[3, 5], &[2, 3])?;
    let book = Book::open(alloc, Arc::new(alloc, inst)?, 4096, 1)?;
    let refused = best(alloc, book.version(), &[3], 1).err();
    assert!(rt; refused == Some(BestStop::NotYet { finished: 2 }));
    Ok(())
}
