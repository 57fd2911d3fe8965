//! The attempts of a history that are asked for, and the number of attempts in each line. Equal
//! waits in succession.
ghost use Rattle.std.specs.Prelude.{◌≡◌, drop, take, min, reverse};
ghost use Rattle.bp_view.specs.Filters.{before_last, calls_at, is_asked, is_between, is_late, is_of_thread, last_number, skipped, calls_in_line, is_same_wait, waits_like};

use bp_machine::{Call, Reply};

/// Returns the first `count` attempts, or all if there are fewer.
pub fn calls_to(calls: &[Call], count: u64) -> &[Call]
    ensures { result.now ≡ take count calls.now }
{
    let end = count.min(calls.len() as u64) as usize;
    &calls[..end]
}

/// Returns the attempts after the first `count`.
fn calls_from(calls: &[Call], count: u64) -> &[Call]
    ensures { result.now ≡ drop count calls.now }
{
    let start = count.min(calls.len() as u64) as usize;
    &calls[start..]
}

/// The attempts of a history that are asked for.
#[derive(Clone, Copy)]
pub struct CallFilter {
    /// Only those of this thread.
    pub thread: Option<u32>,
    /// The number of the last attempts.
    pub last: Option<u64>,
    /// The number of the first attempt, from 1.
    pub from: Option<u64>,
    /// The number of the last attempt, from 1.
    pub to: Option<u64>,
    /// Whether more than three equal waits of a thread in succession have one line.
    pub folds: bool,
}

impl CallFilter {
    /// Returns whether the attempts of the thread are asked for.
    fn has_thread(&self, thread: u32) -> bool
        ensures { result ≡ is_of_thread self.now.thread thread }
    {
        match self.thread {
            Some(only) => thread == only,
            None => true,
        }
    }

    /// Returns whether the attempt of this number is among the last that are asked for.
    fn is_late(&self, number: u64, count: u64) -> bool
        ensures { result ≡ is_late self.now.last count number }
    {
        match self.last {
            Some(last) => count.saturating_sub(number) < last,
            None => true,
        }
    }

    /// Returns whether the attempt of this number is between the first and last ones asked for.
    fn is_between(&self, number: u64) -> bool
        ensures { result ≡ is_between self.now.from self.now.to number }
    {
        self.from.unwrap_or(0) <= number && number <= self.to.unwrap_or(number)
    }

    /// Returns the number of the `count` attempts before the last ones that are asked for.
    fn before_last(&self, count: u64) -> u64
        ensures { result ≡ before_last self.now.last count }
    {
        match self.last {
            Some(last) => count.saturating_sub(last),
            None => 0,
        }
    }

    /// Returns the number of the `count` attempts before all those whose numbers are asked for.
    pub fn skipped(&self, count: u64) -> u64
        ensures { result ≡ skipped self.now count }
    {
        let before_first = self.from.unwrap_or(0).saturating_sub(1);
        before_first.max(self.before_last(count))
    }

    /// Returns the number of the last of `count` attempts that is asked for.
    fn last_number(&self, count: u64) -> u64
        ensures { result ≡ last_number self.now count }
    {
        self.to.unwrap_or(count)
    }

    /// Returns whether the attempt of this number, among `count` attempts, is asked for.
    pub fn asks_for(&self, thread: u32, number: u64, count: u64) -> bool
        ensures { result ≡ is_asked self.now count number thread }
    {
        self.has_thread(thread) && self.is_late(number, count) && self.is_between(number)
    }

    /// Returns the number of attempts in the line of the one of this number, in this whole history.
    pub fn calls_in_line(&self, history: &[Call], call: &Call, number: u64) -> usize
        ensures { result ≡ calls_at self.now history.now number call.now }
    {
        if !self.folds {
            return 1;
        }
        let count = history.len() as u64;
        let earlier = calls_to(history, number.saturating_sub(1));
        let before = calls_from(earlier, self.skipped(count));
        let later = calls_from(history, number);
        let after = calls_to(later, self.last_number(count).saturating_sub(number));
        calls_in_line(self.folds, call, before, after)
    }
}

/// The most equal waits in succession with a line each; more than these may be folded into one.
const MAX_WAITS: usize = 3;

/// Returns whether both attempts are waits of one thread with one choice bit.
fn is_same_wait(call: &Call, other: &Call) -> bool
    ensures { result ≡ is_same_wait call.now other.now }
{
    matches!(call.reply, Reply::Blocked)
        && matches!(other.reply, Reply::Blocked)
        && call.thread == other.thread
        && call.bit == other.bit
}

/// Returns how many of these attempts, from the first on, are the same wait, up to the limit.
fn waits_after(call: &Call, calls: &[Call], limit: usize) -> usize
    ensures { result ≡ min limit (waits_like call.now calls.now) }
{
    let mut rest = calls;
    let mut count: usize = 0;
    while count < limit {
        let Some((first, others)) = rest.split_first() else {
            return count;
        };
        if !is_same_wait(call, first) {
            return count;
        }
        rest = others;
        count += 1;
    }
    count
}

/// Returns how many of these attempts, from the last on, are the same wait, up to the limit.
fn waits_before(call: &Call, calls: &[Call], limit: usize) -> usize
    ensures { result ≡ min limit (waits_like call.now (reverse calls.now)) }
{
    let mut rest = calls;
    let mut count: usize = 0;
    while count < limit {
        let Some((last, others)) = rest.split_last() else {
            return count;
        };
        if !is_same_wait(call, last) {
            return count;
        }
        rest = others;
        count += 1;
    }
    count
}

/// Returns the number of attempts in the line of an attempt, among these before and after it.
pub(crate) fn calls_in_line(folds: bool, call: &Call, before: &[Call], after: &[Call]) -> usize
    ensures { result ≡ calls_in_line folds call.now (reverse before.now) after.now }
{
    if !folds {
        return 1;
    }
    let more = waits_after(call, after, MAX_WAITS);
    if waits_before(call, before, MAX_WAITS) + more < MAX_WAITS {
        return 1;
    }
    if more > 0 {
        return 0;
    }
    waits_before(call, before, before.len()) + 1
}
