//! A gate that counts who passes it, and holds some of them until others have come.

use anyhow::{Context, Result};
use ct_version::Gate;
use serde_json::Value;
use std::alloc::Global;
use std::sync::Wait;
use std::sync::atomic::{AtomicU64, Ordering};
use std::thread;

// How often one that is held looks whether the other has come.
const LOOKS: u64 = 100_000_000;

// More than the numbers of 16 workers and 16 sessions.
const NUMBERS: usize = 40;

// Who passes as `who` is held before its pass `turn` until `other` has come to its pass `until`. Passes are counted from 0
// over all phases.
#[derive(Clone, Copy)]
struct Hold {
    who: u32,
    turn: u64,
    other: usize,
    until: u64,
}

/// Counts how often each number passes, and how often one that was held saw the other come.
#[derive(Drop)]
pub struct Gatekeeper {
    holds: Vec<Hold>,
    passed: Vec<AtomicU64>,
    met: AtomicU64,
}

impl Gatekeeper {
    /// One that holds those of a list of four numbers each.
    pub fn new(alloc: Global, holds: Option<&Value>) -> Result<Gatekeeper> {
        let mut keeper = Gatekeeper {
            holds: Vec::new(alloc),
            passed: Vec::new(alloc),
            met: AtomicU64::new(0),
        };
        for _ in 0..NUMBERS {
            keeper.passed.push(AtomicU64::new(0))?;
        }
        if let Some(Value::Array(holds)) = holds {
            for hold in holds {
                keeper.holds.push(hold_of(hold).context("no hold")?)?;
            }
        }
        Ok(keeper)
    }

    /// How often one that was held saw the other come.
    pub fn met(&self) -> u64 {
        self.met.load(Ordering::SeqCst)
    }

    /// Whether the numbers from 0 on passed so often, and no other number did.
    pub fn has_passed(&self, times: &[Value]) -> bool {
        for (who, passed) in self.passed.iter().enumerate() {
            let expected = times.get(who).and_then(Value::as_u64).unwrap_or(0);
            if passed.load(Ordering::SeqCst) != expected {
                return false;
            }
        }
        true
    }

    // Waits until the other has come.
    fn keep(&self, hold: Hold) {
        let Some(passed) = self.passed.get(hold.other) else {
            return;
        };
        for _ in 0..LOOKS {
            if passed.load(Ordering::SeqCst) > hold.until {
                self.met.fetch_add(1, Ordering::SeqCst);
                return;
            }
            thread::yield_now();
        }
    }
}

fn hold_of(value: &Value) -> Option<Hold> {
    let number = |at: usize| value.get(at).and_then(Value::as_u64);
    Some(Hold {
        who: u32::try_from(number(0)?).ok()?,
        turn: number(1)?,
        other: usize::try_from(number(2)?).ok()?,
        until: number(3)?,
    })
}

impl Gate for Gatekeeper {
    fn before<R: Wait>(&self, _: &R, who: u32, _: u64) {
        let Some(passed) = self.passed.get(who as usize) else {
            return;
        };
        let turn = passed.fetch_add(1, Ordering::SeqCst);
        for hold in &self.holds {
            if hold.who == who && hold.turn == turn {
                self.keep(*hold);
            }
        }
    }
}
