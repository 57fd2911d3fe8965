//! Counting contexts.
ghost use Rattle.std.specs.Prelude.{◌≡◌, ◌↔◌, ◌<◌, ◌^◌, ◌++◌, ◌∷◌, [], IsTrue, List, ℕ, nat_le};
ghost use Rattle.bp_machine.specs.Histories.{IsWithin};
ghost use Rattle.bp_machine.specs.Sessions.{used_with, count_with, IsCountOf};

/// The number of contexts of the steps so far, and the last step's thread.
#[derive(Clone, Copy)]
pub(crate) struct ContextCount {
    pub(crate) used: u32,
    pub(crate) last: Option<u32>,
}

impl ContextCount {
    ghost use Rattle.std.specs.Prelude.{None};

    /// Returns the count before any step.
    pub(crate) fn start() -> ContextCount
        ensures value { result ≡ record { used = 0; last = None } }
        ensures law { IsCountOf result [] }
    {
        ContextCount {
            used: 0,
            last: None,
        }
    }

    /// Returns the number of contexts used with one more step of the thread.
    pub(crate) fn used_with(&self, thread: u32) -> u64
        ensures { result ≡ used_with self.now thread }
    {
        let opened = if self.last == Some(thread) { 0 } else { 1 };
        u64::from(self.used) + opened
    }

    /// Returns whether one more step of the thread is within `contexts` contexts.
    pub(crate) fn allows(&self, contexts: u32, thread: u32) -> bool
        ensures value { result ≡ nat_le (used_with self.now thread) contexts }
        ensures law { (threads : List ℕ)
            → IsCountOf self.now threads
            → IsTrue result ↔ IsWithin contexts (threads ++ thread ∷ []) }
    {
        self.used_with(thread) <= u64::from(contexts)
    }

    /// Counts one more step of the thread.
    pub(crate) fn add(&mut self, thread: u32)
        requires { used_with self.old thread < 2 ^ 32 }
        ensures value { self.new ≡ count_with self.old thread }
        ensures law { (threads : List ℕ)
            → IsCountOf self.old threads
            → IsCountOf self.new (threads ++ thread ∷ []) }
    {
        // Most steps are of the thread of the last one.
        if self.last == Some(thread) {
            return;
        }
        self.used += 1;
        self.last = Some(thread);
    }
}
