//! The guest threads of a session, and the effects of attempts on them.
ghost use Rattle.std.specs.Prelude.{◌≡◌, ◌||◌, ◌+◌, ◌<◌, ◌^◌, length, map, nat_le, string_bytes, vec_len, IfOk, OnOk, OnErr};
ghost use Rattle.bp_machine.specs.Sessions.{thread_at, first_thread, guests};
ghost use Rattle.bp_machine.specs.Transitions.{thread_after, reply_of_transition, TransitionFitsIn, IsCallTransition};

use crate::calls::Reply;
use crate::stacks::Stack;
use bp_flat::{Code, Effect};
use std::alloc::{AllocError, Global};
use std::marker::Model;

/// The result of an attempt, before it is made.
#[derive(Clone, Copy)]
pub enum Transition {
    /// No step: the machine is unchanged, with this reply.
    Stays(Reply),
    /// A failed assertion.
    Fails,
    /// A granted step, with its effect on the thread.
    Steps(Effect),
}

impl Transition {
    pub(crate) fn reply(&self) -> Reply
        ensures { result ≡ reply_of_transition self.now }
    {
        match self {
            Transition::Stays(reply) => *reply,
            Transition::Fails => Reply::Failed,
            Transition::Steps(_) => Reply::Stepped,
        }
    }
}

/// A guest thread: its stack, its number of attempts, and whether the last one had a last reply.
#[derive(Drop)]
pub(crate) struct GuestThread {
    stack: Stack,
    calls: u32,
    ended: bool,
}

impl Model for GuestThread {
    ghost use Rattle.bp_machine.specs.Sessions.{KeptThread};

    ghost Value = { KeptThread };

    ghost view = { λ g. record {
      guest = record { stack = g.stack.frames; calls = g.calls; ended = g.ended };
      room = g.stack.room;
    } };
}

impl GuestThread {
    ghost use Rattle.std.specs.Prelude.{false};

    /// Makes a thread that has made no attempt.
    fn start(stack: Stack) -> GuestThread
        ensures { result.guest ≡ record { stack = stack.frames; calls = 0; ended = false } }
    {
        GuestThread {
            stack,
            calls: 0,
            ended: false,
        }
    }

    /// Returns a deep copy.
    fn try_copy(&self) -> Result<GuestThread, AllocError>
        ensures { IfOk result (λ g. g.guest ≡ self.now.guest) }
    {
        Ok(GuestThread {
            stack: self.stack.try_copy()?,
            calls: self.calls,
            ended: self.ended,
        })
    }

    /// Restarts the thread at this instruction, before any attempt.
    pub(crate) fn restart(&mut self, number: u32)
        ensures { self.new.guest ≡ thread_at number }
    {
        self.stack.restart(number);
        self.calls = 0;
        self.ended = false;
    }

    pub(crate) fn stack(&self) -> &Stack
        ensures { result.now.frames ≡ self.now.guest.stack }
    {
        &self.stack
    }

    /// Returns whether the thread makes no more attempts, if it may make `calls` attempts.
    pub(crate) fn is_terminated(&self, calls: u32) -> bool
        ensures { result ≡ (self.now.guest.ended || nat_le calls self.now.guest.calls) }
    {
        self.ended || calls <= self.calls
    }

    pub(crate) fn calls(&self) -> u32
        ensures { result ≡ self.now.guest.calls }
    {
        self.calls
    }

    /// Reserves memory for the frame of an attempt's step; without it the thread is unchanged.
    #[inline(always)]
    pub(crate) fn reserve(&mut self, transition: Transition) -> Result<(), AllocError>
        ensures guest { self.new.guest ≡ self.old.guest }
        ensures ok { OnOk result (TransitionFitsIn self.new.room transition) }
        ensures err { OnErr result (self.new ≡ self.old) }
        ensures entering { OnErr result (IsCallTransition transition) }
    {
        if let Transition::Steps(effect) = transition {
            self.stack.reserve(effect)?;
        }
        Ok(())
    }

    /// Makes an attempt, for whose frame there is room.
    #[inline(always)]
    pub(crate) fn make(&mut self, transition: Transition)
        requires calls { self.old.guest.calls + 1 < 2 ^ 32 }
        requires room { TransitionFitsIn self.old.room transition }
        ensures { self.new.guest ≡ thread_after self.old.guest transition }
    {
        if let Transition::Steps(effect) = transition {
            self.stack.make(effect);
        }
        self.calls += 1;
        self.ended = transition.reply().is_last();
    }
}

/// Makes a thread that begins at this instruction.
fn first_thread(alloc: Global, number: u32) -> Result<GuestThread, AllocError>
    ensures { IfOk result (λ g. g.guest ≡ thread_at number) }
{
    let stack = Stack::start(alloc, number)?;
    Ok(GuestThread::start(stack))
}

/// Makes threads that begin with these procedures.
pub(crate) fn first_threads(
    alloc: Global,
    code: &Code,
    entries: &[String],
) -> Result<Vec<GuestThread>, AllocError>
    ensures { IfOk result
        (λ v. guests v.items ≡ map (first_thread code.now) (map string_bytes entries.now)) }
{
    let mut threads = Vec::with_capacity(alloc, entries.len())?;
    for name in entries {
        let number = code.entry(name.as_str()).unwrap_or(0);
        threads.push(first_thread(alloc, number)?)?;
    }
    Ok(threads)
}

/// Returns a deep copy of threads.
pub(crate) fn copied_threads(
    alloc: Global,
    threads: &[GuestThread],
) -> Result<Vec<GuestThread>, AllocError>
    ensures { IfOk result (λ v. guests v.items ≡ guests threads.now) }
{
    let mut copies = Vec::with_capacity(alloc, threads.len())?;
    for thread in threads {
        copies.push(thread.try_copy()?)?;
    }
    Ok(copies)
}

/// Restarts the threads, so that they begin with these procedures.
pub(crate) fn restart_threads(threads: &mut Vec<GuestThread>, code: &Code, entries: &[String])
    requires { vec_len threads.old ≡ length entries.now }
    ensures { guests threads.new.items
        ≡ map (first_thread code.now) (map string_bytes entries.now) }
{
    for i in 0..entries.len() {
        let number = code.entry(entries[i].as_str()).unwrap_or(0);
        threads[i].restart(number);
    }
}
