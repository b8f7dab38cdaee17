//! Sums of times.
use std::time::{Clock, Duration, Instant};
use std::{fmt, io};

/// How long, as a number of nanoseconds.
pub fn nanoseconds(time: Duration) -> u64 {
    u64::try_from(time.as_nanos()).unwrap_or(u64::MAX)
}

/// How often one kind of call was made, how long all of them took, and the longest.
#[derive(Clone, Copy, Default)]
pub struct Clocked {
    pub calls: u64,
    pub total: u64,
    pub most: u64,
}

impl Clocked {
    /// Adds a call that began then.
    pub fn add(&mut self, clock: &impl Clock, began: Instant) -> io::Result<()> {
        let time = nanoseconds(began.elapsed(clock)?);
        self.calls = self.calls.saturating_add(1);
        self.total = self.total.saturating_add(time);
        self.most = self.most.max(time);
        Ok(())
    }
}

impl fmt::Display for Clocked {
    fn fmt<W: fmt::Write>(&self, f: &mut fmt::Formatter<W>) -> fmt::Result {
        write!(
            f,
            "calls {} total_ns {} most_ns {}",
            self.calls, self.total, self.most
        )
    }
}

/// How long it takes to read the clock, of a thousand readings.
pub fn clock_reading(clock: &impl Clock) -> io::Result<u64> {
    let began = Instant::now(clock)?;
    for _ in 0..1000 {
        let _ = Instant::now(clock)?;
    }
    Ok(nanoseconds(began.elapsed(clock)?) / 1000)
}
