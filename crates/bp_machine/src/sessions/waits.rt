//! Whether a thread waits in a session, and whether all that are left do.
ghost use Rattle.std.specs.Prelude.{◌≡◌, ◌↔◌, IsTrue, ℕ, List, Some, slice_get};
ghost use Rattle.bp_machine.specs.declared.calls.Call.{Call as Answered};
ghost use Rattle.bp_machine.specs.Runs.{has_frames, IsDeadlocked, finds_zero, is_blocked, waits};
ghost use Rattle.bp_machine.specs.Histories.{configuration_after};
ghost use Rattle.bp_machine.specs.Sessions.{Stands, AfterEach};

use crate::calls::Reply;
use crate::sessions::Session;
use crate::threads::GuestThread;
use bp_flat::steps_alike;

/// Returns whether a reply is that to an assumption of 0.
fn is_blocked(reply: Reply) -> bool
    ensures { result ≡ is_blocked (Some reply) }
{
    matches!(reply, Reply::Blocked)
}

impl Session {
    /// Returns whether the next statement of a thread is an assumption of 0 with this choice bit.
    fn finds_zero(&self, guest: &GuestThread, bit: bool) -> bool
        ensures { let t = self.now.code.tree in (h : List Answered) (i : ℕ)
            → Stands t self.now h
            → slice_get self.now.machine.state.threads i ≡ Some guest.now.guest
            → let now = configuration_after t self.now.setup h in
            result ≡ finds_zero t now i bit }
    {
        steps_alike(&self.code);
        let transition = self.machine.judge_step(&self.code, guest, bit);
        is_blocked(transition.reply())
    }

    /// Returns whether a thread waits: its next statement is an assumption of 0 with either choice
    /// bit. The thread need not have a further attempt. One look is enough: an assumption of `?`
    /// lets its thread continue if its bit is 1, and no other test depends on the bit.
    pub fn waits(&self, thread: u32) -> bool
        ensures { AfterEach self.now (λ t h. let now = configuration_after t self.now.setup h in
            result ≡ waits t now thread) }
    {
        let Some(guest) = self.machine.thread(thread) else {
            return false;
        };
        self.finds_zero(guest, true)
    }

    /// Returns whether a thread has frames left: it did not reach the end of its program.
    fn has_frames(&self, thread: u32) -> bool
        ensures { AfterEach self.now (λ t h. let now = configuration_after t self.now.setup h in
            result ≡ has_frames now thread) }
    {
        self.top(thread).is_some()
    }

    /// Returns whether the threads are deadlocked: some have frames left, and each of those waits.
    /// It does not matter whether a thread may make a further attempt, or was refused a context.
    pub fn is_deadlocked(&self) -> bool
        ensures { AfterEach self.now (λ t h. let now = configuration_after t self.now.setup h in
            IsTrue result ↔ IsDeadlocked t now) }
    {
        let mut is_any_left = false;
        for thread in 0..self.setup.threads() {
            if self.has_frames(thread) {
                if !self.waits(thread) {
                    return false;
                }
                is_any_left = true;
            }
        }
        is_any_left
    }
}
