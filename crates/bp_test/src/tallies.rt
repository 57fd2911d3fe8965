//! Statistics of the runs of a test.
ghost use Rattle.std.specs.Prelude.{◌≡◌, ◌<◌, ◌^◌, ◌++◌, ◌∷◌, [], ℕ, true, false, List, length, take, slice_set, slice_index_or, IfOk, OnOk};
ghost use Rattle.bp_syntax.specs.Ast.{Program};
ghost use Rattle.bp_machine.specs.Histories.{is_granted};
ghost use Rattle.bp_machine.specs.Setups.{SetupOf};
ghost use Rattle.bp_test.specs.Tallies.{contexts_with, AreContextsUsed, MadeRun, made, ends_of, ends_sum, count_with, has_full_stack, with_lack, IsCounted, IsTally};
ghost use Rattle.bp_test.specs.declared.limits.TheConstants.{MAX_KEYS};
ghost use Rattle.bp_test.specs.Reach.{has_refusal, is_marked, HasStep, MarksGrow};

use crate::runs::{FollowedRun, push_key, push_keys};
use bp_flat::Code;
use bp_machine::{Call, Outcome, Reply, Report, Setup};
use std::alloc::{AllocError, Global};

/// The number of runs that ended in each way, and the lacks of those that ended too early: those
/// that were out of contexts, cut off or starved. A run with a failed assertion is not counted.
#[derive(Clone, Copy, Debug, PartialEq, Eq)]
pub struct Ends {
    /// Each thread reached the end of its program.
    pub finished: u64,
    /// A thread was refused a context.
    pub out_of_contexts: u64,
    /// A thread made all attempts that it may make, or its stack was full.
    pub cut_off: u64,
    /// Some threads were live, and each of them waits for one that could step, but was refused a
    /// context, made all its attempts or has a full stack.
    pub starved: u64,
    /// Some threads had not ended, and each of those waits for ever.
    pub deadlocked: u64,
    /// Of the runs that ended too early: a thread was refused a context.
    pub lacking_contexts: u64,
    /// Of the others of them: a stack was full.
    pub lacking_frames: u64,
    /// The rest of them: a thread made all attempts that it may make.
    pub lacking_calls: u64,
}

/// Statistics of the runs of a test. No count is greater than the greatest number of 64 bits.
#[derive(Drop)]
pub struct Tally {
    /// The number of runs.
    pub runs: u64,
    /// The number of their attempts.
    pub calls: u64,
    /// The most attempts of one run.
    pub longest: u64,
    /// The number of runs that ended in each way.
    pub ends: Ends,
    /// For each number of contexts, the number of runs that used it.
    pub contexts: Vec<u64>,
    /// For each instruction of the code, whether a thread tried its step, or had to wait at it:
    /// when it came there, or when a run ended.
    pub reached: Vec<bool>,
    /// For each thread, whether it ever made a step.
    pub stepped: Vec<bool>,
    /// For each of the first 2^20 runs, the key of its steps: runs with the same steps have the
    /// same key.
    pub keys: Vec<u64>,
}

/// The least, the middle and the greatest number of contexts that runs used.
#[derive(Clone, Copy, Debug, PartialEq, Eq)]
pub struct ContextsUsed {
    pub least: u64,
    /// The least number that at least half of the runs did not exceed.
    pub middle: u64,
    pub most: u64,
}

/// Returns `count` false values.
pub(crate) fn none_of(alloc: Global, count: usize) -> Result<Vec<bool>, AllocError>
    ensures size { IfOk result (λ v. length v.items ≡ count) }
    ensures none { IfOk result (λ v. (n : ℕ) → is_marked v.items n ≡ false) }
{
    vec![in alloc; false; count]
}

/// Marks a place, if it exists.
pub(crate) fn mark(marks: &mut Vec<bool>, place: usize)
    ensures { marks.new.items ≡ slice_set marks.old.items place true }
{
    if let Some(mark) = marks.get_mut(place) {
        *mark = true;
    }
}

/// Marks the places that are marked in the other marks.
#[tactic(auto, using(crate::proofs::MarkLemmas::if_marked, crate::proofs::MarkLemmas::if_unmarked))]
fn mark_all(marks: &mut Vec<bool>, others: &[bool])
    ensures { MarksGrow (λ i. Some i) (λ n. is_marked others.now n ≡ true)
        marks.old.items marks.new.items }
{
    for (place, is_marked) in others.iter().enumerate() {
        if *is_marked {
            mark(marks, place);
        }
    }
}

/// Adds a number of runs that used this number of contexts.
fn count_contexts(counts: &mut Vec<u64>, used: usize, runs: u64) -> Result<(), AllocError>
    ensures { OnOk result
        ((k : ℕ)
        → slice_index_or counts.new.items k 0 ≡ count_with used runs counts.old.items k) }
{
    while counts.len() <= used {
        counts.push(0)?;
    }
    if let Some(count) = counts.get_mut(used) {
        *count = count.saturating_add(runs);
    }
    Ok(())
}

/// Returns whether the attempt made a step.
pub(crate) fn is_step(call: &Call) -> bool
    ensures { result ≡ is_granted call.now.reply }
{
    matches!(call.reply, Reply::Stepped | Reply::Failed)
}

/// Returns whether the stack of a thread was full.
fn has_full_stack(history: &[Call]) -> bool
    ensures { result ≡ has_full_stack history.now }
{
    history.iter().any(|call| matches!(call.reply, Reply::Full))
}

/// Returns whether all places are marked.
fn are_all_marked(marks: &[bool]) -> bool
    ensures { result ≡ true → (n : ℕ) → n < length marks.now → is_marked marks.now n ≡ true }
{
    for is_marked in marks {
        if !*is_marked {
            return false;
        }
    }
    true
}

/// Marks the threads that made a step. After the first runs each of them is marked.
#[tactic(auto, using(crate::proofs::MarkLemmas::step_at, crate::proofs::MarkLemmas::no_step_at))]
fn note_steps(stepped: &mut Vec<bool>, history: &[Call])
    ensures { MarksGrow (λ i. Some i) (HasStep history.now) stepped.old.items stepped.new.items }
{
    if are_all_marked(stepped.as_slice()) {
        return;
    }
    for call in history {
        if is_step(call) {
            mark(stepped, call.thread as usize);
        }
    }
}

impl Ends {
    /// The counts of zero runs.
    const NONE: Ends = Ends {
        finished: 0,
        out_of_contexts: 0,
        cut_off: 0,
        starved: 0,
        deadlocked: 0,
        lacking_contexts: 0,
        lacking_frames: 0,
        lacking_calls: 0,
    };

    /// Counts the resource that a run lacked which ended too early. `was_refused` tells whether an
    /// attempt was refused a context.
    fn add_lack(&mut self, history: &[Call], was_refused: bool)
        ensures { self.new ≡ with_lack was_refused (has_full_stack history.now) self.old }
    {
        if was_refused {
            self.lacking_contexts = self.lacking_contexts.saturating_add(1);
        } else if has_full_stack(history) {
            self.lacking_frames = self.lacking_frames.saturating_add(1);
        } else {
            self.lacking_calls = self.lacking_calls.saturating_add(1);
        }
    }

    /// Counts a run, if no assertion failed in it. The flags tell whether each thread reached the
    /// end of its program, and whether an attempt was refused a context.
    fn add_run(
        &mut self,
        history: &[Call],
        report: &Report,
        is_deadlocked: bool,
        has_returned: bool,
        was_refused: bool,
    )
        requires { was_refused ≡ has_refusal history.now }
        ensures { (runs : List MadeRun)
            → self.old ≡ ends_of runs
            → let run = made history.now report.now is_deadlocked has_returned in
            self.new ≡ ends_of (runs ++ run ∷ []) }
    {
        if matches!(report.outcome, Outcome::Failed { .. }) {
            return;
        }
        if is_deadlocked {
            self.deadlocked = self.deadlocked.saturating_add(1);
        } else if report.left_live > 0 {
            self.starved = self.starved.saturating_add(1);
            self.add_lack(history, was_refused);
        } else if was_refused {
            self.out_of_contexts = self.out_of_contexts.saturating_add(1);
            self.add_lack(history, was_refused);
        } else if has_returned {
            self.finished = self.finished.saturating_add(1);
        } else {
            self.cut_off = self.cut_off.saturating_add(1);
            self.add_lack(history, was_refused);
        }
    }

    /// Adds other counts.
    fn add(&mut self, other: &Ends)
        ensures { self.new ≡ ends_sum self.old other.now }
    {
        self.finished = self.finished.saturating_add(other.finished);
        self.out_of_contexts = self.out_of_contexts.saturating_add(other.out_of_contexts);
        self.cut_off = self.cut_off.saturating_add(other.cut_off);
        self.starved = self.starved.saturating_add(other.starved);
        self.deadlocked = self.deadlocked.saturating_add(other.deadlocked);
        self.lacking_contexts = self.lacking_contexts.saturating_add(other.lacking_contexts);
        self.lacking_frames = self.lacking_frames.saturating_add(other.lacking_frames);
        self.lacking_calls = self.lacking_calls.saturating_add(other.lacking_calls);
    }
}

impl ContextsUsed {
    /// Statistics of zero runs.
    const NONE: ContextsUsed = ContextsUsed {
        least: 0,
        middle: 0,
        most: 0,
    };

    /// Adds the runs that used this number of contexts. `before` runs used fewer, and `half` is
    /// half of the number of all runs.
    fn add(&mut self, contexts: u64, before: u64, half: u64)
        ensures { self.new ≡ contexts_with contexts before half self.old }
    {
        if before == 0 {
            self.least = contexts;
        }
        if before < half {
            self.middle = contexts;
        }
        self.most = contexts;
    }
}

impl Tally {
    /// Makes the tally of zero runs.
    pub(crate) fn new(alloc: Global, code: &Code, setup: &Setup) -> Result<Tally, AllocError>
        ensures { IfOk result (IsTally code.now.tree setup.now []) }
    {
        code.is_of_a_program();
        Ok(Tally {
            runs: 0,
            calls: 0,
            longest: 0,
            ends: Ends::NONE,
            contexts: Vec::new(alloc),
            reached: none_of(alloc, code.len())?,
            stepped: none_of(alloc, setup.threads() as usize)?,
            keys: Vec::new(alloc),
        })
    }

    /// Adds a run.
    pub(crate) fn add_run(
        &mut self,
        history: &[Call],
        report: &Report,
        is_deadlocked: bool,
        has_returned: bool,
        followed: &FollowedRun,
    ) -> Result<(), AllocError>
        requires { followed.now.was_refused ≡ has_refusal history.now }
        ensures counted { let run = made history.now report.now is_deadlocked has_returned in
            OnOk result
            ((s : SetupOf) (runs : List MadeRun)
            → IsCounted s runs self.old
            → IsCounted s (runs ++ run ∷ []) self.new) }
        ensures reached { OnOk result (self.new.reached.items ≡ self.old.reached.items) }
        ensures keys { OnOk result
            (self.new.keys.items
            ≡ take MAX_KEYS (self.old.keys.items ++ followed.now.key ∷ [])) }
    {
        self.runs = self.runs.saturating_add(1);
        self.calls = self.calls.saturating_add(report.calls);
        self.longest = self.longest.max(report.calls);
        let was_refused = followed.was_refused;
        self.ends
            .add_run(history, report, is_deadlocked, has_returned, was_refused);
        note_steps(&mut self.stepped, history);
        push_key(&mut self.keys, followed.key)?;
        count_contexts(&mut self.contexts, report.contexts as usize, 1)
    }

    /// Adds the runs of another tally of the same code and setup.
    pub(crate) fn add(&mut self, other: &Tally) -> Result<(), AllocError>
        ensures { OnOk result
            ((t : Program) (s : SetupOf) (runs more : List MadeRun)
            → IsTally t s runs self.old
            → IsTally t s more other.now
            → IsTally t s (runs ++ more) self.new) }
    {
        self.runs = self.runs.saturating_add(other.runs);
        self.calls = self.calls.saturating_add(other.calls);
        self.longest = self.longest.max(other.longest);
        self.ends.add(&other.ends);
        mark_all(&mut self.reached, other.reached.as_slice());
        mark_all(&mut self.stepped, other.stepped.as_slice());
        push_keys(&mut self.keys, other.keys.as_slice())?;
        for (used, runs) in other.contexts.iter().enumerate() {
            count_contexts(&mut self.contexts, used, *runs)?;
        }
        Ok(())
    }

    /// Returns the least, the middle and the greatest number of contexts that the runs used; 0 if
    /// there is no run.
    pub fn contexts_used(&self) -> ContextsUsed
        ensures { (s : SetupOf) (runs : List MadeRun)
            → length runs < 2 ^ 64
            → IsCounted s runs self.now
            → AreContextsUsed runs result }
    {
        let half = self.runs.div_ceil(2);
        let mut used = ContextsUsed::NONE;
        let mut before = 0u64;
        for (contexts, runs) in self.contexts.iter().enumerate() {
            if *runs > 0 {
                used.add(contexts as u64, before, half);
                before = before.saturating_add(*runs);
            }
        }
        used
    }
}
