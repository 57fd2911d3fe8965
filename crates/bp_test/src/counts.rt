//! The counts of a tally that people read. The number of different runs of a test.
ghost use Rattle.std.specs.Prelude.{◌≡◌, ◌<◌, ◌^◌, List, length};
ghost use Rattle.std.specs.Ordering.{nat_cmp};
ghost use Rattle.std.specs.List.Sorted.{IsPermutation, IsSorted};
ghost use Rattle.bp_machine.specs.Setups.{SetupOf};
ghost use Rattle.bp_test.specs.Tallies.{share_of_marks, AreCounts, MadeRun, IsCounted, alone_before, is_alone, AreDistinct};

use crate::tallies::{ContextsUsed, Ends, Tally};
use crate::waits::is_of_kind;
use bp_flat::{Code, Kind};
use rayon::prelude::par_sort_unstable;
use std::thread::Threads;

/// The number of things reached, among all of a kind.
#[derive(Clone, Copy, Debug, PartialEq, Eq)]
pub struct Share {
    pub reached: u64,
    pub all: u64,
}

/// The counts of a tally, and the things that its runs reached.
#[derive(Clone, Copy, Debug, PartialEq, Eq)]
pub struct Counts {
    /// The number of runs.
    pub runs: u64,
    /// The number of their attempts.
    pub calls: u64,
    /// The most attempts of one run.
    pub longest: u64,
    /// The number of runs that ended in each way.
    pub ends: Ends,
    /// The number of contexts that the runs used.
    pub contexts: ContextsUsed,
    /// The statements of the program: those that a thread tried, or at which it waited.
    pub statements: Share,
    /// Those of them that are assertions.
    pub assertions: Share,
    /// The threads: those that made a step in some run are reached.
    pub threads: Share,
}

impl Share {
    /// No thing.
    const NONE: Share = Share { reached: 0, all: 0 };

    /// Counts a thing.
    fn add(&mut self, is_reached: bool) {
        self.all = self.all.saturating_add(1);
        if is_reached {
            self.reached = self.reached.saturating_add(1);
        }
    }
}

/// Returns the share of these marks.
fn share_of(marks: &[bool]) -> Share
    ensures { result ≡ share_of_marks marks.now }
{
    let reached = marks.iter().filter(|is_reached| **is_reached).count();
    Share {
        reached: reached as u64,
        all: marks.len() as u64,
    }
}

/// Returns the number after that of the last instruction of a procedure. The last instruction is
/// its end, which no statement has.
fn after_procedure(code: &Code, procedure: usize) -> usize {
    match code.headings().get(procedure.saturating_add(1)) {
        Some(heading) => heading.entry() as usize,
        None => code.len(),
    }
}

/// Returns the shares of statements and assertions of a code, by the marks of instructions.
fn statements_of(code: &Code, reached: &[bool]) -> (Share, Share) {
    let mut statements = Share::NONE;
    let mut assertions = Share::NONE;
    let mut procedure = 0;
    for (number, is_reached) in reached.iter().enumerate() {
        if number.saturating_add(1) == after_procedure(code, procedure) {
            procedure = procedure.saturating_add(1);
            continue;
        }
        statements.add(*is_reached);
        if is_of_kind(code, u32::try_from(number).ok(), Kind::Assert) {
            assertions.add(*is_reached);
        }
    }
    (statements, assertions)
}

impl Tally {
    /// Returns the counts of this tally of runs of a code.
    pub fn counts(&self, code: &Code) -> Counts
        ensures { (s : SetupOf) (runs : List MadeRun)
            → length runs < 2 ^ 64
            → IsCounted s runs self.now
            → AreCounts s runs result }
    {
        let (statements, assertions) = statements_of(code, self.reached.as_slice());
        Counts {
            runs: self.runs,
            calls: self.calls,
            longest: self.longest,
            ends: self.ends,
            contexts: self.contexts_used(),
            statements,
            assertions,
            threads: share_of(self.stepped.as_slice()),
        }
    }
}

/// The number of different runs. Runs are the same if they have the same steps: the same threads
/// make the same statements in the same order.
#[derive(Clone, Copy, Debug, PartialEq, Eq)]
pub struct Distinct {
    /// The number of runs, without those that are like an earlier one.
    pub runs: u64,
    /// The number of runs that were compared: all, or the first 2^20.
    pub of: u64,
    /// The number of them that are like no other one.
    pub once: u64,
}

/// Returns whether the key at this place of ascending keys occurs once.
fn is_alone(keys: &[u64], place: usize) -> bool
    requires { place < length keys.now }
    ensures { result ≡ is_alone keys.now place }
{
    let key = keys[place];
    let is_first = place == 0 || keys[place - 1] != key;
    let is_last = place + 1 == keys.len() || keys[place + 1] != key;
    is_first && is_last
}

/// Returns the number of these ascending keys that occur once.
fn count_alone(keys: &[u64]) -> u64
    ensures { result ≡ alone_before keys.now (length keys.now) }
{
    let mut count = 0;
    for place in 0..keys.len() {
        if is_alone(keys, place) {
            count += 1;
        }
    }
    count
}

/// Sorts keys, with several jobs on several threads.
fn sort_keys<R: Threads + Sync>(threads: &R, jobs: u32, keys: &mut Vec<u64>)
    ensures permutation { IsPermutation keys.old.items keys.new.items }
    ensures sorted { IsSorted nat_cmp keys.new.items }
{
    if jobs > 1 {
        par_sort_unstable(threads, keys);
    } else {
        keys.sort_unstable();
    }
}

/// Returns the number of different runs with these keys, which a test with this number of jobs
/// made.
pub fn distinct_of<R: Threads + Sync>(threads: &R, jobs: u32, keys: Vec<u64>) -> Distinct
    ensures { AreDistinct keys.items result }
{
    let mut keys = keys;
    sort_keys(threads, jobs, &mut keys);
    let of = keys.len() as u64;
    let once = count_alone(keys.as_slice());
    keys.dedup();
    let runs = keys.len() as u64;
    Distinct { runs, of, once }
}
