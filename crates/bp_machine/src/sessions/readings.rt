//! The state of a session's machine after the attempts that it answered.
ghost use Rattle.std.specs.Prelude.{◌≡◌, ◌<◌, [], List, drop, slice_get, option_map, is_some, length, MatchOption, MatchResult};
ghost use Rattle.bp_syntax.specs.Ast.{Program};
ghost use Rattle.bp_flat.specs.InstrEffects.{bits_of};
ghost use Rattle.bp_flat.specs.StandsFor.{valuation_of};
ghost use Rattle.bp_machine.specs.declared.calls.Call.{Call as Answered};
ghost use Rattle.bp_machine.specs.Histories.{IsLeastWithin, stack_of, calls_of_thread, granted_threads, configuration_after, is_terminated, live_threads, IsReport};
ghost use Rattle.bp_machine.specs.Runs.{values_printed, IsTop, IsTopOf};
ghost use Rattle.bp_machine.specs.Setups.{threads};
ghost use Rattle.bp_machine.specs.Sessions.{Stands, IsPrintRefusal, AfterEach};

use crate::calls::{AskError, Report};
use crate::sessions::Session;
use crate::tops::Top;
use bp_flat::{Kind, Store};

impl Session {
    /// Returns whether a thread makes no more attempts.
    pub fn is_terminated(&self, thread: u32) -> bool
        requires { thread < threads self.now.setup }
        ensures { (t : Program) (h : List Answered)
            → Stands t self.now h
            → result ≡ is_terminated self.now.setup h thread }
    {
        match self.machine.thread(thread) {
            None => true,
            Some(guest) => guest.is_terminated(self.setup.calls()),
        }
    }

    /// Returns the number of attempts that a thread has made.
    pub fn calls_of(&self, thread: u32) -> u32
        ensures { (t : Program) (h : List Answered)
            → Stands t self.now h
            → thread < threads self.now.setup
            → result ≡ length (calls_of_thread thread h) }
    {
        match self.machine.thread(thread) {
            None => 0,
            Some(guest) => guest.calls(),
        }
    }

    /// Returns the bit of a global, by its index in the declarations from 0.
    pub fn global(&self, n: u32) -> Option<bool>
        ensures { AfterEach self.now (λ t h.
            let globals = (configuration_after t self.now.setup h).globals in
            result ≡ option_map (λ e. e.1) (slice_get globals n)) }
    {
        self.code().is_of_a_program();
        if n >= self.code.globals() {
            return None;
        }
        Some(self.machine.global(n as u8))
    }

    /// Returns the globals, that of slot n in the bit of weight 2 to the n.
    pub fn globals(&self) -> u128
        ensures { (t : Program) (h : List Answered)
            → Stands t self.now h
            → let globals = (configuration_after t self.now.setup h).globals in
            globals ≡ valuation_of t.globals (bits_of result) }
    {
        self.machine.globals()
    }

    /// Returns the least number of contexts within which the steps so far are.
    pub fn contexts_used(&self) -> u32
        ensures { (t : Program) (h : List Answered)
            → Stands t self.now h
            → IsLeastWithin result (granted_threads h) }
    {
        self.machine.contexts_used()
    }

    /// Returns whether an assertion failed.
    pub fn is_failed(&self) -> bool
        ensures { (t : Program) (h : List Answered)
            → Stands t self.now h
            → result ≡ (configuration_after t self.now.setup h).failed }
    {
        self.machine.is_failed()
    }

    /// Returns the number of threads that may continue.
    pub fn live_threads(&self) -> u32
        ensures { (t : Program) (h : List Answered)
            → Stands t self.now h
            → result ≡ live_threads self.now.setup h }
    {
        self.machine.live_threads(self.setup.calls())
    }

    /// Returns the report of the attempts so far.
    pub fn report(&self) -> Report
        ensures { (t : Program) (h : List Answered)
            → Stands t self.now h
            → IsReport self.now.setup h result }
    {
        Report {
            outcome: self.machine.outcome(),
            calls: self.machine.calls(),
            left_live: self.live_threads(),
            contexts: self.contexts_used(),
        }
    }

    /// Returns whether the next statement of a thread is a `print`.
    pub fn is_at_print(&self, thread: u32) -> bool
        ensures { AfterEach self.now (λ t h. let now = configuration_after t self.now.setup h in
            result ≡ is_some (values_printed now.globals (stack_of now thread))) }
    {
        self.code().is_of_a_program();
        let Some(guest) = self.machine.thread(thread) else {
            return false;
        };
        let Some(top) = guest.stack().top() else {
            return false;
        };
        let Some(instr) = self.code.get(top.number) else {
            return false;
        };
        matches!(instr.kind(), Kind::Print)
    }

    /// Returns the values that the next statement of a thread prints, if it is a `print`.
    pub fn next_print(&self, thread: u32) -> Result<Option<Vec<bool>>, AskError>
        ensures { AfterEach self.now (λ t h. let now = configuration_after t self.now.setup h in
            let printed = values_printed now.globals (stack_of now thread) in
            MatchResult result
            (λ values.
            (thread < threads self.now.setup) × (option_map (λ v. v.items) values ≡ printed))
            (IsPrintRefusal self.now.setup thread printed)) }
    {
        self.code().is_of_a_program();
        let Some(guest) = self.machine.thread(thread) else {
            return Err(AskError::NoThread);
        };
        let Some(top) = guest.stack().top() else {
            return Ok(None);
        };
        let Some(instr) = self.code.get(top.number) else {
            return Ok(None);
        };
        let store = Store {
            globals: self.machine.globals(),
            locals: top.locals,
        };
        let printed = instr.printed(*self.choices.allocator(), store)?;
        Ok(printed)
    }

    /// Returns the place at which a thread continues after its topmost `returned` calls have
    /// returned. Returns None if its stack has no more frames, or there is no such thread.
    pub fn top_below(&self, thread: u32, returned: usize) -> Option<Top>
        ensures { AfterEach self.now (λ t h. let now = configuration_after t self.now.setup h in
            let left = drop returned (stack_of now thread) in
            MatchOption result (left ≡ []) (IsTopOf t now left)) }
    {
        let Some(guest) = self.machine.thread(thread) else {
            return None;
        };
        let Some(top) = guest.stack().below(returned) else {
            return None;
        };
        let store = Store {
            globals: self.machine.globals(),
            locals: top.locals,
        };
        Some(Top {
            number: top.number,
            store,
            depth: guest.stack().len().saturating_sub(returned),
        })
    }

    /// Returns the place at which a thread continues, or None without a frame or such a thread.
    pub fn top(&self, thread: u32) -> Option<Top>
        ensures { AfterEach self.now (λ t h. let now = configuration_after t self.now.setup h in
            MatchOption result (stack_of now thread ≡ []) (IsTop t now thread)) }
    {
        self.top_below(thread, 0)
    }
}
