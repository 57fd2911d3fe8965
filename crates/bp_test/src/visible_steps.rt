//! Steps before which a switch may matter.
use crate::runs::is_marked;
use crate::tallies::{mark, none_of};
use bp_flat::{Code, Touched};
use bp_machine::Setup;
use bp_machine::limits::MAX_THREADS;
use std::alloc::{AllocError, Global};

/// For each instruction the threads for which it is visible: its step touches a global that the
/// other threads write, or writes one that they read. Other steps of two threads give the same in
/// either order, so a switch before one of them may as well come before the next visible one.
#[derive(Drop)]
pub struct VisibleSteps {
    /// The bit of thread t has the weight 2 to the t. Empty if no step is visible: then each counts
    /// as visible.
    masks: Vec<u64>,
    /// The globals that each instruction accesses, also empty if no step is visible.
    globals: Vec<u128>,
}

/// Adds an instruction to those that are left, unless it was seen before.
fn add_unseen(
    left: &mut Vec<u32>,
    seen: &mut Vec<bool>,
    number: Option<u32>,
) -> Result<(), AllocError> {
    let Some(number) = number else {
        return Ok(());
    };
    if is_marked(seen, number as usize) {
        return Ok(());
    }
    mark(seen, number as usize);
    left.push(number)?;
    Ok(())
}

/// Returns the globals that a thread with this entry may touch, by the instructions it can reach.
fn touched_from(alloc: Global, code: &Code, entry: Option<u32>) -> Result<Touched, AllocError> {
    let mut touched = Touched {
        read: 0,
        written: 0,
    };
    let mut seen = none_of(alloc, code.len())?;
    let mut left = Vec::new(alloc);
    add_unseen(&mut left, &mut seen, entry)?;
    for _ in 0..code.len() {
        let Some(number) = left.pop() else {
            return Ok(touched);
        };
        if let Some(instr) = code.get(number) {
            touched = touched.with(instr.touched());
            add_unseen(&mut left, &mut seen, instr.next())?;
            add_unseen(&mut left, &mut seen, instr.other())?;
            add_unseen(&mut left, &mut seen, instr.callee())?;
        }
    }
    Ok(touched)
}

/// Returns the globals that each thread may touch.
fn touched_by_threads(
    alloc: Global,
    code: &Code,
    setup: &Setup,
) -> Result<Vec<Touched>, AllocError> {
    let mut touched = Vec::new(alloc);
    for thread in 0..setup.threads() {
        let entry = match setup.entry(thread) {
            Some(name) => code.entry(name),
            None => None,
        };
        touched.push(touched_from(alloc, code, entry)?)?;
    }
    Ok(touched)
}

/// Returns the globals that the threads other than this one may touch.
fn touched_by_others(touched: &[Touched], thread: usize) -> Touched {
    let mut others = Touched {
        read: 0,
        written: 0,
    };
    for (n, each) in touched.iter().enumerate() {
        if n != thread {
            others = others.with(*each);
        }
    }
    others
}

/// Returns the bit of a thread in a mask of threads.
pub(crate) fn bit(thread: usize) -> u64 {
    1 << (thread % MAX_THREADS)
}

/// Returns the threads for which a step that touches these globals is visible, from the globals
/// that others access.
fn seeing(step: Touched, others: &[Touched]) -> u64 {
    let mut mask = 0;
    for (thread, touched) in others.iter().enumerate() {
        if !step.is_apart(*touched) {
            mask |= bit(thread);
        }
    }
    mask
}

/// Returns for each thread the globals that others access.
fn others_of(alloc: Global, touched: &[Touched]) -> Result<Vec<Touched>, AllocError> {
    let mut others = Vec::new(alloc);
    for thread in 0..touched.len() {
        others.push(touched_by_others(touched, thread))?;
    }
    Ok(others)
}

impl VisibleSteps {
    /// Returns the visible steps of a code in a setup.
    pub(crate) fn new(
        alloc: Global,
        code: &Code,
        setup: &Setup,
    ) -> Result<VisibleSteps, AllocError> {
        let touched = touched_by_threads(alloc, code, setup)?;
        let others = others_of(alloc, touched.as_slice())?;
        let (mut masks, mut globals) = (Vec::new(alloc), Vec::new(alloc));
        let mut all = 0;
        for number in 0..u32::MAX {
            let Some(instr) = code.get(number) else {
                break;
            };
            let touched = instr.touched();
            let mask = seeing(touched, others.as_slice());
            all |= mask;
            masks.push(mask)?;
            globals.push(touched.read | touched.written)?;
        }
        if all == 0 {
            masks.clear();
            globals.clear();
        }
        Ok(VisibleSteps { masks, globals })
    }

    /// Returns whether the step of a thread at the instruction of this number is visible.
    #[inline(always)]
    pub(crate) fn is_visible(&self, thread: u32, number: Option<u32>) -> bool {
        let Some(number) = number else {
            return false;
        };
        match self.masks.get(number as usize) {
            Some(mask) => mask & bit(thread as usize) != 0,
            None => true,
        }
    }

    /// Returns whether the instruction of this number accesses any of these globals.
    pub(crate) fn accesses(&self, number: Option<u32>, globals: u128) -> bool {
        let Some(number) = number else {
            return false;
        };
        match self.globals.get(number as usize) {
            Some(accessed) => accessed & globals != 0,
            None => true,
        }
    }

    /// Returns how many steps access any of these globals, by the steps of each instruction.
    pub(crate) fn accesses_of(&self, steps: &[u64], globals: u128) -> u64 {
        let mut count: u64 = 0;
        for (accessed, made) in self.globals.iter().zip(steps) {
            if accessed & globals != 0 {
                count = count.saturating_add(*made);
            }
        }
        count
    }
}
