//! Lists of numbers.

ghost use Rattle.std.specs.Prelude.{◌≡◌, ◌<◌, ◌≤◌, ◌^◌, nat_abs, All, IfOk, vec_len};
ghost use Rattle.ct_input.specs.Sheet.{Gives};
ghost use Rattle.ct_input.specs.Grammar.{read, numbers, signeds};

use crate::fault::InputStop;
use crate::reader::Reader;
use std::alloc::Global;

/// So many natural numbers up to a limit. The memory that it takes is theirs, 8 bytes each, asked for at once.
pub fn numbers(
    alloc: Global,
    reader: &mut Reader,
    count: usize,
    high: u64,
) -> Result<Vec<u64>, InputStop>
    ensures gives { Gives (λ v. (v.items, reader.new)) result (read (numbers count high) reader.old) }
    ensures count { IfOk result (λ v. vec_len v ≡ count) }
    ensures limit { IfOk result (λ v. All (λ n. n ≤ high) v.items) }
{
    let mut found = Vec::with_capacity(alloc, count)?;
    for _ in 0..count {
        let n = reader.number(0, high)?;
        found.push(n)?;
    }
    Ok(found)
}

/// So many signed numbers up to a size, as [`numbers`].
pub fn signeds(
    alloc: Global,
    reader: &mut Reader,
    count: usize,
    size: u64,
) -> Result<Vec<i64>, InputStop>
    requires { size < 2 ^ 63 }
    ensures gives { Gives (λ v. (v.items, reader.new)) result (read (signeds count size) reader.old) }
    ensures count { IfOk result (λ v. vec_len v ≡ count) }
    ensures limit { IfOk result (λ v. All (λ n. nat_abs n ≤ size) v.items) }
{
    let mut found = Vec::with_capacity(alloc, count)?;
    for _ in 0..count {
        let n = reader.signed(size)?;
        found.push(n)?;
    }
    Ok(found)
}
