//! Batches: blocks of runs that are made side by side.
//! Blocks of runs.
ghost use Rattle.std.specs.Prelude.{if◌then◌else◌, ◌≡◌, ◌<◌, ◌≤◌, ◌+◌, ◌*◌, min, ℕ, All, None, IfOk, IfSome};
ghost use Rattle.bp_syntax.specs.Ast.{Program};
ghost use Rattle.bp_machine.specs.Setups.{SetupOf, Fits};
ghost use Rattle.bp_test.specs.declared.plans.Plan.{Plan as PlanOf};
ghost use Rattle.bp_test.specs.Tests.{AreBlocks, IsBlock, IsEnd, IsTallied, is_sought};

use crate::limits::{BLOCKS_OF_JOB, FIRST_SHARE, LARGEST_SHARE, QUICK_BATCH};
use crate::plans::Plan;
use crate::runs::run_once;
use crate::tallies::Tally;
use crate::tests::{Progress, Runtimes, is_over, is_within, millis};
use crate::waits::{Waiting, failed_instruction, have_returned, waiting_threads};
use bp_flat::Code;
use bp_machine::{Call, Outcome, Report, Session, Setup};
use std::alloc::{AllocError, Global};
use std::collections::VecDeque;
use std::sync::atomic::{AtomicU64, Ordering};
use std::thread;
use std::thread::Threads;
use std::time::Clock;

/// Blocks of runs that are made side by side.
#[derive(Clone, Copy)]
struct Batch {
    /// The number of its first run.
    from: u64,
    /// The number of the run after its last.
    to: u64,
    /// The number of runs of a block. The last block may be shorter.
    size: u64,
}

impl Batch {
    /// Returns the batch that begins with this run, and in which each job makes about `share` runs.
    /// A single job makes them as one block. Several make small ones, so none waits long for the
    /// last.
    fn new(from: u64, share: u64, jobs: usize, runs: u64) -> Batch
        requires runs { from < runs }
        requires share { 0 < share }
        requires jobs { 0 < jobs }
        ensures from { result.from ≡ from }
        ensures some { from < result.to }
        ensures within { result.to ≤ runs }
        ensures size { 0 < result.size }
    {
        let all = share.saturating_mul(jobs as u64);
        let blocks = if jobs == 1 { 1 } else { BLOCKS_OF_JOB };
        Batch {
            from,
            to: from.saturating_add(all).min(runs),
            size: share.div_ceil(blocks),
        }
    }

    /// Returns the end of the block that begins with this run.
    fn end_of(&self, start: u64) -> u64
        ensures { result ≡ min (start + self.now.size) self.now.to }
    {
        start.saturating_add(self.size).min(self.to)
    }
}

/// Makes blocks of a batch, each from the run `next` on, which is the first that no job has taken.
/// After a block that found a run or met the deadline no job begins another. A job that is refused
/// memory ends early.
fn blocks_of_job<C: Clock>(
    clock: &C,
    alloc: Global,
    code: &Code,
    setup: &Setup,
    plan: &Plan,
    batch: Batch,
    next: &AtomicU64,
) -> VecDeque<Block>
    requires { Fits code.now.tree setup.now }
    ensures { let t = code.now.tree in
        All (IsBlock t setup.now plan.now batch.size batch.to) result.items }
{
    let mut blocks = VecDeque::new(alloc);
    for _ in batch.from..batch.to {
        let start = next.fetch_add(batch.size, Ordering::SeqCst);
        if start >= batch.to {
            return blocks;
        }
        let end = batch.end_of(start);
        let Ok(block) = first_found(clock, alloc, code, setup, plan, start, end) else {
            return blocks;
        };
        if block.found.is_some() || block.end != end {
            next.store(batch.to, Ordering::SeqCst);
        }
        if blocks.push_back(block).is_err() {
            return blocks;
        }
    }
    blocks
}

/// Makes the blocks of a batch side by side. Returns those of each job, in ascending order.
fn blocks_of<R: Threads + Sync, C: Clock + Sync>(
    rt: &Runtimes<'_, R, C>,
    alloc: Global,
    code: &Code,
    setup: &Setup,
    plan: &Plan,
    batch: Batch,
    jobs: usize,
) -> Result<Vec<VecDeque<Block>>, AllocError>
    requires { Fits code.now.tree setup.now }
    ensures { IfOk result (λ made.
        AreBlocks code.now.tree setup.now plan.now batch.size batch.to made.items) }
{
    let (clock, next) = (rt.clock, AtomicU64::new(batch.from));
    thread::map_indices(
        rt.threads,
        alloc,
        jobs,
        &|_job: usize| -> VecDeque<Block>
            requires { Fits code.now.tree setup.now }
            ensures { let t = code.entry.now.tree in
                let s = setup.entry.now in
                All (IsBlock t s plan.entry.now batch.size batch.to) result.items }
        { blocks_of_job(clock, alloc, code, setup, plan, batch, &next) },
    )
}

/// Takes the block that begins with this run, if a job made it.
fn take_block(made: &mut Vec<VecDeque<Block>>, from: u64) -> Option<Block>
    ensures { (t : Program) (s : SetupOf) (p : PlanOf) (size to : ℕ)
        → AreBlocks t s p size to made.old.items
        → IfSome result (λ block. (block.from ≡ from) × IsBlock t s p size to block)
        × AreBlocks t s p size to made.new.items }
{
    for job in 0..made.len() {
        match made[job].front() {
            Some(block) if block.from == from => return made[job].pop_front(),
            _ => {}
        }
    }
    None
}

/// Adds the blocks of a batch to the runs before it, in order, up to the first block that found a
/// run or met the deadline. A block that no job made, because one was refused memory, is made here.
fn with_blocks<C: Clock>(
    clock: &C,
    alloc: Global,
    code: &Code,
    setup: &Setup,
    plan: &Plan,
    batch: Batch,
    made: Vec<VecDeque<Block>>,
    before: Block,
) -> Result<Block, AllocError>
    requires fits { Fits code.now.tree setup.now }
    requires some { 0 < batch.size }
    requires from { before.end ≡ batch.from }
    requires to { batch.from ≤ batch.to }
    requires none { before.found ≡ None }
    requires tallied { let p = plan.now in
        IsTallied code.now.tree setup.now p.with_deadlock p.seed 0 before.end None before.tally }
    requires blocks { AreBlocks code.now.tree setup.now plan.now batch.size batch.to made.items }
    ensures end { IfOk result (λ all.
        IsEnd plan.now.deadline batch.from batch.to all.found all.end) }
    ensures tallied { IfOk result (λ all.
        let t = code.now.tree in let p = plan.now in
        IsTallied t setup.now p.with_deadlock p.seed 0 all.end all.found all.tally) }
{
    let (mut made, mut all) = (made, before);
    while all.end < batch.to {
        let end = batch.end_of(all.end);
        let block = match take_block(&mut made, all.end) {
            Some(block) => block,
            None => first_found(clock, alloc, code, setup, plan, all.end, end)?,
        };
        all.tally.add(&block.tally)?;
        all.end = block.end;
        all.found = block.found;
        if all.found.is_some() || all.end != end {
            return Ok(all);
        }
    }
    Ok(all)
}

/// Returns the number of runs of a job in the next batch, after one with this number. After a quick
/// batch it doubles, so jobs seldom wait for each other. After a slow one it is the same, so that a
/// failure is reported soon.
fn next_share(share: u64, is_quick: bool) -> u64
    requires { share ≤ LARGEST_SHARE }
    ensures is { result ≡ (if is_quick then min (share * 2) LARGEST_SHARE else share) }
    ensures some { 0 < share → 0 < result }
    ensures most { result ≤ LARGEST_SHARE }
{
    if is_quick {
        (share * 2).min(LARGEST_SHARE)
    } else {
        share
    }
}

/// Makes this number of runs of a plan, in batches, until one is found or the time is over. After
/// each batch that found none, `progress` is told.
pub(crate) fn search<R: Threads + Sync, C: Clock + Sync, P: Progress>(
    rt: &Runtimes<'_, R, C>,
    alloc: Global,
    code: &Code,
    setup: &Setup,
    plan: &Plan,
    runs: u64,
    jobs: usize,
    progress: &P,
) -> Result<Block, AllocError>
    requires fits { Fits code.now.tree setup.now }
    requires some { 0 < jobs }
    ensures { IfOk result (λ block.
        let t = code.now.tree in let p = plan.now in
        IsEnd p.deadline 0 runs block.found block.end
        × IsTallied t setup.now p.with_deadlock p.seed 0 block.end block.found block.tally) }
{
    let mut all = Block {
        from: 0,
        end: 0,
        found: None,
        tally: Tally::new(alloc, code, setup)?,
    };
    let mut share = FIRST_SHARE;
    while all.end < runs {
        let began = millis(rt.clock);
        let batch = Batch::new(all.end, share, jobs, runs);
        let made = blocks_of(rt, alloc, code, setup, plan, batch, jobs)?;
        all = with_blocks(rt.clock, alloc, code, setup, plan, batch, made, all)?;
        if all.found.is_some() || all.end != batch.to {
            return Ok(all);
        }
        share = next_share(share, is_within(rt.clock, began, QUICK_BATCH));
        progress.tell(all.end, runs);
    }
    Ok(all)
}

/// A run that a test searches for.
#[derive(Drop)]
pub struct FoundRun {
    /// The number of the run, from 0.
    pub run: u64,
    /// Its attempts, up to its end.
    pub history: Vec<Call>,
    /// The report of that history.
    pub report: Report,
    /// The number of the instruction whose assertion failed, if one did.
    pub number: Option<u32>,
    /// The threads that wait in the end, in ascending order.
    pub waiting: Vec<Waiting>,
}

/// The result of a block of runs.
#[derive(Drop)]
pub struct Block {
    /// The number of its first run.
    pub from: u64,
    /// The number of the run after its last.
    pub end: u64,
    /// The first run that was searched for. It is the last of the block.
    pub found: Option<FoundRun>,
    pub tally: Tally,
}

/// Returns whether a test searches for a run with this report: one in which an assertion failed, or
/// one that ended in a deadlock, if deadlocks are searched for.
fn is_sought(report: &Report, is_deadlocked: bool, with_deadlock: bool) -> bool
    ensures { result ≡ is_sought with_deadlock report.now is_deadlocked }
{
    match report.outcome {
        Outcome::Failed { .. } => true,
        Outcome::Clean => with_deadlock && is_deadlocked,
    }
}

/// Makes the runs of a plan from `from` to before `to`, until one is found or the time is over.
/// Blocks of runs are independent: none needs another one's memory or result.
pub fn first_found<C: Clock>(
    clock: &C,
    alloc: Global,
    code: &Code,
    setup: &Setup,
    plan: &Plan,
    from: u64,
    to: u64,
) -> Result<Block, AllocError>
    requires { Fits code.now.tree setup.now }
    ensures from { IfOk result (λ block. block.from ≡ from) }
    ensures end { IfOk result (λ block. IsEnd plan.now.deadline from to block.found block.end) }
    ensures tallied { IfOk result (λ block.
        let t = code.now.tree in let p = plan.now in
        IsTallied t setup.now p.with_deadlock p.seed from block.end block.found block.tally) }
{
    let mut session = Session::new(alloc, code, setup)?;
    let mut history = Vec::new(alloc);
    let mut tally = Tally::new(alloc, code, setup)?;
    for run in from..to {
        if is_over(clock, plan.deadline) {
            return Ok(Block {
                from,
                end: run,
                found: None,
                tally,
            });
        }
        let seed = plan.seed.wrapping_add(run);
        let (visible, pilots) = (&plan.visible, &plan.pilots);
        let reached = &mut tally.reached;
        let followed = run_once(&mut session, seed, visible, pilots, &mut history, reached)?;
        let report = session.report();
        let is_deadlocked = session.is_deadlocked();
        let has_returned = have_returned(&session);
        tally.add_run(
            history.as_slice(),
            &report,
            is_deadlocked,
            has_returned,
            &followed,
        )?;
        if is_sought(&report, is_deadlocked, plan.with_deadlock) {
            let number = failed_instruction(&session);
            let waiting = waiting_threads(alloc, &session)?;
            let found = Some(FoundRun {
                run,
                history,
                report,
                number,
                waiting,
            });
            return Ok(Block {
                from,
                end: run + 1,
                found,
                tally,
            });
        }
    }
    Ok(Block {
        from,
        end: from.max(to),
        found: None,
        tally,
    })
}
