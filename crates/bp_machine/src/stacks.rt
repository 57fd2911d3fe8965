//! Stacks of frames.
ghost use Rattle.std.specs.Prelude.{◌≡◌, [], ◌∷◌, ◌<◌, drop, length, reverse, vec_len, vec_capacity, IfOk, OnOk, OnErr};
ghost use Rattle.bp_machine.specs.Sessions.{top_of, with_top, entered_top};

use bp_flat::Effect;
use std::alloc::{AllocError, Global};
use std::marker::Model;

/// A call that has not returned: the number of its next instruction, and the word of its locals.
#[derive(Clone, Copy)]
pub struct ActivationRecord {
    pub number: u32,
    pub locals: u128,
}

/// The calls of a thread that have not returned, the topmost last in memory and first in a
/// contract. There is always memory for one of them, so a restart allocates nothing.
#[derive(Drop)]
pub struct Stack {
    frames: Vec<ActivationRecord>,
}

impl Model for Stack {
    ghost use Rattle.std.specs.Prelude.{◌-◌, ◌≤◌, reverse, vec_len, vec_capacity};
    ghost use Rattle.bp_machine.specs.Sessions.{StackOf};

    ghost Value = { StackOf };

    ghost view = { λ s. record {
      frames = reverse s.frames.items;
      room = vec_capacity s.frames - vec_len s.frames;
    } };

    ghost invariant = { λ s. 1 ≤ vec_capacity s.frames };
}

/// Replaces the frame at the top, if there is one.
fn replace_top(frames: &mut Vec<ActivationRecord>, frame: ActivationRecord)
    ensures items { reverse frames.new.items ≡ with_top frame (reverse frames.old.items) }
    ensures capacity { vec_capacity frames.new ≡ vec_capacity frames.old }
{
    let count = frames.len();
    if count > 0 {
        // The whole record would be written with the bytes between its fields.
        let top = &mut frames[count - 1];
        top.number = frame.number;
        top.locals = frame.locals;
    }
}

/// Leaves the topmost frame at the instruction `next`, and pushes another one, for which there is
/// room.
fn enter(frames: &mut Vec<ActivationRecord>, frame: ActivationRecord, next: u32)
    requires { vec_len frames.old < vec_capacity frames.old }
    ensures items { reverse frames.new.items ≡ entered_top frame next (reverse frames.old.items) }
    ensures capacity { vec_capacity frames.new ≡ vec_capacity frames.old }
{
    let Some(caller) = frames.last().copied() else {
        return;
    };
    frames.push_reserved(frame);
    let count = frames.len();
    if count > 1 {
        frames[count - 2] = ActivationRecord {
            number: next,
            ..caller
        };
    }
}

impl Stack {
    ghost use Rattle.bp_machine.specs.Transitions.{stack_after, FitsIn, IsEntering};

    /// Makes the stack of a thread that begins at this instruction, with its locals 0.
    pub fn start(alloc: Global, number: u32) -> Result<Stack, AllocError>
        ensures { IfOk result (λ s. s.frames ≡ record { number = number; locals = 0 } ∷ []) }
    {
        let mut frames = Vec::new(alloc);
        frames.push(ActivationRecord { number, locals: 0 })?;
        Ok(Stack { frames })
    }

    /// Returns a deep copy, with as much memory.
    pub fn try_copy(&self) -> Result<Stack, AllocError>
        ensures { IfOk result (λ s. s.frames ≡ self.now.frames) }
    {
        let alloc = *self.frames.allocator();
        let mut frames = Vec::with_capacity(alloc, self.frames.capacity())?;
        frames.extend_from_slice(self.frames.as_slice())?;
        Ok(Stack { frames })
    }

    /// Restarts the stack as that of a thread that begins at this instruction, with its locals 0.
    /// Allocates nothing.
    pub(crate) fn restart(&mut self, number: u32)
        ensures { self.new.frames ≡ record { number = number; locals = 0 } ∷ [] }
    {
        self.frames.clear();
        self.frames
            .push_reserved(ActivationRecord { number, locals: 0 });
    }

    pub(crate) fn top(&self) -> Option<ActivationRecord>
        ensures { result ≡ top_of self.now.frames }
    {
        self.frames.last().copied()
    }

    /// Returns the frame that is at the top once `returned` calls have returned.
    pub(crate) fn below(&self, returned: usize) -> Option<ActivationRecord>
        ensures { result ≡ top_of (drop returned self.now.frames) }
    {
        let count = self.frames.len();
        if returned < count {
            return Some(self.frames[count - 1 - returned]);
        }
        None
    }

    /// Returns the number of frames.
    pub fn len(&self) -> usize
        ensures { result ≡ length self.now.frames }
    {
        self.frames.len()
    }

    /// Reserves memory for the frame of a step; only a call has one. Without it nothing changes.
    #[inline(always)]
    pub(crate) fn reserve(&mut self, effect: Effect) -> Result<(), AllocError>
        ensures frames { self.new.frames ≡ self.old.frames }
        ensures ok { OnOk result (FitsIn self.new.room effect) }
        ensures err { OnErr result (self.new ≡ self.old) }
        ensures entering { OnErr result (IsEntering effect) }
    {
        if let Effect::Enters { .. } = effect {
            self.frames.reserve(1)?;
        }
        Ok(())
    }

    /// Makes a step, for whose frame there is room.
    #[inline(always)]
    pub(crate) fn make(&mut self, effect: Effect)
        requires { FitsIn self.old.room effect }
        ensures { self.new.frames ≡ stack_after effect self.old.frames }
    {
        match effect {
            Effect::Continues { store, next } => replace_top(
                &mut self.frames,
                ActivationRecord {
                    number: next,
                    locals: store.locals,
                },
            ),
            Effect::Returns => {
                let _ = self.frames.pop();
            }
            Effect::Enters {
                callee,
                next,
                locals,
            } => enter(
                &mut self.frames,
                ActivationRecord {
                    number: callee,
                    locals,
                },
                next,
            ),
            Effect::Fails | Effect::Blocks => {}
        }
    }

    /// Makes a step. Without memory for its frame the stack is unchanged.
    pub fn take_step(&mut self, effect: Effect) -> Result<(), AllocError>
        ensures ok { OnOk result (self.new.frames ≡ stack_after effect self.old.frames) }
        ensures same { OnErr result (self.new ≡ self.old) }
    {
        self.reserve(effect)?;
        self.make(effect);
        Ok(())
    }

    /// Removes all frames, and keeps the memory.
    pub fn clear(&mut self)
        ensures { self.new.frames ≡ [] }
    {
        self.frames.clear();
    }

    /// Pushes a frame.
    pub fn push(&mut self, frame: ActivationRecord) -> Result<(), AllocError>
        ensures { OnOk result (self.new.frames ≡ frame ∷ self.old.frames) }
    {
        self.frames.push(frame)?;
        Ok(())
    }

    /// Returns the frames, the topmost last.
    pub fn frames(&self) -> &[ActivationRecord]
        ensures { reverse result.now ≡ self.now.frames }
    {
        self.frames.as_slice()
    }
}
