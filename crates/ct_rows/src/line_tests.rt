//! The words of a line.

use ct_lines::Words;
use std::test::Fail;

#[test]
fn words_of_a_line(rt: HostRuntime) -> Result<(), Fail> {
    let alloc = rt.alloc();
    let mut words = Words::new(b"pair 3 5*2 1*1 | - 7 8");
    words.word(b"pair")?;
    assert!(rt; words.number(1, 4) == Ok(3));
    let steps = words.walk(alloc)?;
    assert!(rt; steps.as_slice() == [(5, 2), (1, 1)].as_slice());
    assert!(rt; !words.goes(b"-") && words.goes(b"|"));
    let nothing = words.walk(alloc)?;
    assert!(rt; nothing.is_empty());
    let numbers = words.numbers(alloc, 2, 8)?;
    assert!(rt; numbers.as_slice() == [7, 8].as_slice());
    words.end()?;
    Ok(())
}
