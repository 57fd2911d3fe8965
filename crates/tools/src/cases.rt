//! The times of the rounds of a case.

use bp_run::{Calls, Tap};
use std::io;
use std::time::{Clock, Duration, Instant};

/// The number of asks that fill the ring.
pub const RING: u32 = 1_024;

/// The number of asks, and the times of these and of the looks at the tap.
#[derive(Drop)]
pub struct Case {
    pub name: &'static str,
    pub asks: u32,
    pub asking: Duration,
    pub taking: Duration,
}

/// Makes a case before any round.
pub fn unmeasured(name: &'static str) -> Case {
    Case {
        name,
        asks: 0,
        asking: Duration::from_secs(0),
        taking: Duration::from_secs(0),
    }
}

/// Returns the error of an impossible result.
pub fn unexpected() -> io::Error {
    io::Error::from(io::ErrorKind::InvalidData)
}

/// Takes the attempts of the ring, and returns whether these were as many as it holds.
fn is_emptied<C: Calls>(tap: &mut Tap<C>) -> bool {
    for _ in 0..RING {
        if tap.next().is_none() {
            return false;
        }
    }
    tap.next().is_none()
}

impl Case {
    /// Counts a fill that began at this moment, if each of its asks was a step.
    pub fn asked<R: Clock>(
        &mut self,
        rt: &R,
        start: Instant,
        are_steps: bool,
    ) -> io::Result<Instant> {
        let full = Instant::now(rt)?;
        if !are_steps {
            return Err(unexpected());
        }
        self.asks = self.asks.saturating_add(RING);
        self.asking = self.asking.saturating_add(full.duration_since(start));
        Ok(full)
    }

    /// Empties the ring that is full since this moment, and counts the looks at the tap.
    pub fn took<R: Clock, C: Calls>(
        &mut self,
        rt: &R,
        full: Instant,
        tap: &mut Tap<C>,
    ) -> io::Result<()> {
        if !is_emptied(tap) {
            return Err(unexpected());
        }
        let empty = Instant::now(rt)?;
        self.taking = self.taking.saturating_add(empty.duration_since(full));
        Ok(())
    }
}
