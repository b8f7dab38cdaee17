//! One pass and two threads with numbers as values.
ghost use Rattle.std.specs.Prelude.{◌≡◌, None};
ghost use Rattle.turn_cell.specs.Sight.{IsOfCell};

use std::alloc::AllocError;
use std::sync::Wait;
use std::test::Fail;
use std::thread;
use turn_cell::{Busy, Numbered, Pass, ReadStop, TurnCell};

const ROUNDS: u64 = 1000;

// A number, which can be shared or not.
#[derive(Drop)]
struct Reading {
    number: u64,
    shared: bool,
}

impl Numbered for Reading {
    ghost use Rattle.std.specs.Prelude.{ℕ};

    type Name = ();

    ghost number_of = { λ r. r.number };

    ghost name_of = { λ _. tt };

    fn number(&self) -> u64 {
        self.number
    }

    fn share(&self) -> Result<Reading, AllocError> {
        if !self.shared {
            return Err(AllocError);
        }
        Ok(Reading {
            number: self.number,
            shared: true,
        })
    }
}

fn shareable(number: u64) -> Reading
    ensures { result.number ≡ number }
{
    Reading {
        number,
        shared: true,
    }
}

#[test]
fn a_held_turn_is_busy(rt: HostRuntime) -> Result<(), Fail> {
    let (cell, mut pass) = TurnCell::open(rt.alloc(), shareable(0))?;
    let mut other = cell.split(&mut pass);
    match cell.take(&mut pass) {
        Ok(held) => {
            let busy = cell.try_read(&mut other);
            let taken = cell.take(&mut other);
            let number = held.value().number();
            cell.give(&mut pass, held);
            assert!(rt; matches!(busy, Err(ReadStop::Busy { word: 1 })));
            assert_eq!(rt; number, 0);
            match taken {
                Ok(held) => cell.give(&mut other, held),
                Err(busy) => assert_eq!(rt; busy, Busy { word: 1 }),
            }
        }
        Err(busy) => assert_eq!(rt; busy.word, 0),
    }
    let free = cell.try_read(&mut other);
    assert!(rt; free.is_ok());
    Ok(())
}

// Puts rising numbers and reads between them. It tells whether no read fell.
fn rises<R: Wait>(
    rt: &R,
    cell: &TurnCell<Reading>,
    mut pass: Pass<Reading>,
) -> (Pass<Reading>, bool)
    requires { IsOfCell cell.now pass × (pass.held ≡ None) }
    ensures { IsOfCell cell.now result.0 × (result.0.held ≡ None) }
{
    let mut last = pass.seen();
    let mut rose = true;
    for number in 0..ROUNDS {
        cell.put(rt, &mut pass, shareable(number));
        if let Ok(read) = cell.try_read(&mut pass) {
            rose = rose && read.number() >= last && read.number() >= number;
            last = read.number();
        }
    }
    (pass, rose)
}

#[test]
fn no_thread_sees_a_number_fall(rt: HostRuntime) -> Result<(), Fail> {
    let (cell, mut pass) = TurnCell::open(rt.alloc(), shareable(0))?;
    let other = cell.split(&mut pass);
    let shared = &cell;
    let ((mut pass, first), (other, second)) = thread::join(
        &rt,
        move || rises(&rt, shared, pass),
        move || rises(&rt, shared, other),
    );
    assert!(rt; first && second);
    cell.join(&mut pass, other);
    assert_eq!(rt; cell.newest(&mut pass), ROUNDS - 1);
    Ok(())
}
