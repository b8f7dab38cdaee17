//! Two threads that count under one lock.
ghost use Rattle.std.specs.Prelude.{◌≡◌, ◌^◌, ◌<◌, [], ◌∷◌, length, slice_index, None};
ghost use Rattle.count_lock.specs.Pairs.{GrowsAt, first_number};
ghost use Rattle.count_lock.specs.Sight.{IsOfLock};

use count_lock::{CountLock, Counted, LockPass};
use std::sync::Wait;
use std::test::Fail;
use std::thread;

const ROUNDS: u64 = 1000;

// One counter for each of two passes.
#[derive(Drop)]
struct Pair {
    first: u64,
    second: u64,
}

impl Counted for Pair {
    ghost use Rattle.std.specs.Prelude.{[], ◌∷◌};

    type Name = ();

    ghost name_of = { λ _. tt };

    ghost counts_of = { λ p. p.first ∷ p.second ∷ [] };

    ghost shows = { λ p. p.first ∷ p.second ∷ [] };

    fn count(&self, number: u32) -> u64 {
        if number == 0 { self.first } else { self.second }
    }
}

// One more for this pass.
fn counted(pair: Pair, number: u32) -> Pair
    requires { number < 2 }
    ensures grows { GrowsAt number (pair.first ∷ pair.second ∷ []) (result.first ∷ result.second ∷ []) }
    ensures fits { slice_index (result.first ∷ result.second ∷ []) number < 2 ^ 64 }
{
    let Pair { first, second } = pair;
    if number == 0 {
        Pair {
            first: first.saturating_add(1),
            second,
        }
    } else {
        Pair {
            first,
            second: second.saturating_add(1),
        }
    }
}

fn count_up<R: Wait>(rt: &R, lock: &CountLock<Pair>, mut pass: LockPass<Pair>) -> LockPass<Pair>
    requires own { IsOfLock lock.now pass × (pass.held ≡ None) }
    requires one_pair { (length pass.pairs ≡ 1) × (first_number pass.pairs < 2) }
    ensures own { IsOfLock lock.now result × (result.held ≡ None) }
    ensures one_pair { (length result.pairs ≡ 1) × (first_number result.pairs ≡ first_number pass.pairs) }
{
    for _ in 0..ROUNDS {
        let pair = lock.lock(rt, &mut pass);
        let more = counted(pair, pass.number());
        lock.unlock(&mut pass, more);
    }
    pass
}

#[test]
fn two_passes_count_to_a_thousand(rt: HostRuntime) -> Result<(), Fail> {
    let none_yet = Pair {
        first: 0,
        second: 0,
    };
    let (lock, mut passes) = CountLock::open(rt.alloc(), none_yet, 2)?;
    assert_eq!(rt; passes.len(), 2);
    let (Some(second), Some(first)) = (passes.pop(), passes.pop()) else {
        panic!(rt; "there are two passes")
    };
    let shared = &lock;
    let (mut first, second) = thread::join(
        &rt,
        move || count_up(&rt, shared, first),
        move || count_up(&rt, shared, second),
    );
    assert_eq!(rt; (first.number(), first.count()), (0, ROUNDS));
    assert_eq!(rt; (second.number(), second.count()), (1, ROUNDS));
    lock.join(&mut first, second);
    let pair = lock.close(first);
    assert_eq!(rt; (pair.first, pair.second), (ROUNDS, ROUNDS));
    Ok(())
}
