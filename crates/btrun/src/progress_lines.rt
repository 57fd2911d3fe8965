//! The line of progress of a test or an exploration, on a terminal.

use bp_explore::Watcher;
use bp_messages::{clear_progress, put_exploration_progress, put_progress};
use bp_test::Progress;
use std::time::Instant;

/// The line of progress on standard error, and the time that is left.
#[derive(Drop)]
pub struct ProgressLine<'a> {
    pub rt: &'a HostRuntime,
    /// Whether the line is shown: standard error is a terminal, NO_PROGRESS is not set to a text,
    /// and no JSON was asked for.
    pub is_shown: bool,
    /// The time at which the task began, if the clock tells it.
    pub start: Option<Instant>,
    /// The seconds that the task has, if they are limited.
    pub seconds: Option<u64>,
}

impl ProgressLine<'_> {
    /// Returns the number of milliseconds that have passed, if the clock tells it.
    fn passed(&self) -> Option<u64> {
        let Some(start) = &self.start else {
            return None;
        };
        let Ok(passed) = start.elapsed(self.rt) else {
            return None;
        };
        Some(u64::try_from(passed.as_millis()).unwrap_or(u64::MAX))
    }
}

impl Progress for ProgressLine<'_> {
    fn tell(&self, done: u64, runs: u64) {
        let (true, Some(millis)) = (self.is_shown, self.passed()) else {
            return;
        };
        // If standard error fails, the test continues.
        let _ = put_progress(done, runs, millis, self.seconds, &mut self.rt.stderr());
    }

    fn end(&self) {
        if self.is_shown {
            let _ = clear_progress(&mut self.rt.stderr());
        }
    }
}

impl Watcher for ProgressLine<'_> {
    fn goes_on(&self, contexts: u32, states: usize) -> bool {
        // A clock that cannot be read leaves no time.
        let millis = self.passed().unwrap_or(u64::MAX);
        if self.is_shown {
            let _ = put_exploration_progress(
                u64::from(contexts),
                states as u64,
                millis,
                &mut self.rt.stderr(),
            );
        }
        match self.seconds {
            Some(seconds) => millis / 1000 < seconds,
            None => true,
        }
    }

    fn ends(&self) {
        Progress::end(self);
    }
}
