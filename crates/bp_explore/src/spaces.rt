//! The space of an exploration: the nodes that were found, in order of their contexts.
ghost use Rattle.std.specs.Prelude.{◌≡◌, ◌⊎◌, ◌<◌, ◌≤◌, ◌+◌, ◌++◌, ◌∷◌, [], ℕ, IsTrue, IsSome, None, Some, IfOk, OnOk, length, slice_get};
ghost use Rattle.bp_explore.specs.States.{HasKey, NodeOf, node_of, AreLiveFrom};
ghost use Rattle.bp_machine.specs.Setups.{Fits};
ghost use Rattle.bp_explore.specs.Searches.{AreAtMost, AreLayered, AreOthers, BeginsAt, Expands, Has, IsClosed, IsExplored, IsFollowed, IsGrown, IsMostMade, IsNextLayer, IsTaken, Step as StepOf, level_with, node_with};

use crate::explorations::Reason;
use crate::limits::{MAX_STATES, STATES_BETWEEN};
use crate::nodes::Nodes;
use crate::observers::{Observer, Watcher, made_with};
use crate::states::State;
use crate::tables::{note, place_of};
use bp_flat::{Code, Effect};
use bp_machine::{Call, Reply, Setup, Transition};
use std::alloc::{AllocError, Global};

/// A step of a thread from a node.
#[derive(Clone, Copy)]
pub(crate) struct Step {
    pub(crate) from: usize,
    thread: u32,
    bit: bool,
}

impl Step {
    /// Returns the attempt of the step, with its reply.
    pub(crate) fn call(&self, reply: Reply) -> Call {
        Call {
            thread: self.thread,
            bit: self.bit,
            reply,
        }
    }
}

/// Why a layer stops.
#[derive(Clone, Copy)]
pub(crate) enum Stop {
    /// This step makes the last of the listed steps.
    Found { step: Step, reply: Reply },
    /// Not all of the layer was explored.
    Short(Reason),
}

impl From<AllocError> for Stop {
    ghost use Rattle.std.specs.Prelude.{◌≡◌};
    ghost use Rattle.bp_explore.specs.declared.explorations.Reason.{Reason};
    ghost use Rattle.bp_explore.specs.declared.spaces.Stop.{Stop};

    ghost from_gives = { λ _ e. e ≡ Stop.Short Reason.Memory };

    fn from(_: AllocError) -> Stop {
        Stop::Short(Reason::Memory)
    }
}

/// Returns the hash of a key.
fn hash_of(key: &[u16]) -> u64 {
    let mut hash: u64 = 0;
    for cell in key {
        hash = (hash ^ u64::from(*cell))
            .wrapping_mul(0x9e37_79b9_7f4a_7c15)
            .rotate_left(29);
    }
    hash ^ (hash >> 32)
}

/// The nodes, and the table of their numbers from 1, with 0 for none. `packed` is the record of a
/// state that may be new.
#[derive(Drop)]
pub(crate) struct Space {
    nodes: Nodes,
    table: Vec<u32>,
    packed: Vec<u16>,
    limit: u32,
    full_stacks: usize,
}

/// Returns whether both are the same step.
fn is_same_step(one: Transition, other: Transition) -> bool
    ensures { IsTrue result → one ≡ other }
{
    match (one, other) {
        (
            Transition::Steps(Effect::Continues { next, store }),
            Transition::Steps(
                Effect::Continues {
                    next: other_next,
                    store: other_store,
                },
            ),
        ) => {
            next == other_next
                && store.globals == other_store.globals
                && store.locals == other_store.locals
        }
        (Transition::Steps(Effect::Returns), Transition::Steps(Effect::Returns)) => true,
        _ => false,
    }
}

/// Makes a table of this size with all nodes.
fn table_of(alloc: Global, nodes: &Nodes, size: usize) -> Result<Vec<u32>, AllocError> {
    let mut table = vec![in alloc; 0u32; size]?;
    let mut entry: u32 = 1;
    for at in 0..nodes.len() {
        note(&mut table, hash_of(nodes.key(at)), entry);
        entry = entry.wrapping_add(1);
    }
    Ok(table)
}

impl Space {
    /// Makes the space of the start of a setup, which keeps at most `limit` states.
    pub(crate) fn new(
        alloc: Global,
        code: &Code,
        setup: &Setup,
        limit: usize,
    ) -> Result<Space, AllocError>
        requires { Fits code.now.tree setup.now }
        ensures begins { IfOk result (λ x. BeginsAt code.now setup.now x.nodes.items) }
        ensures one { IfOk result (λ x. length x.nodes.items ≡ 1) }
    {
        code.is_of_a_program();
        let first = State::first(alloc, code, setup)?;
        let nodes = Nodes::new(alloc, first)?;
        let table = vec![in alloc; 0u32; 1024]?;
        let packed = Vec::new(alloc);
        let limit = limit.min(MAX_STATES as usize) as u32;
        Ok(Space {
            nodes,
            table,
            packed,
            limit,
            full_stacks: 0,
        })
    }

    /// Returns the number of nodes.
    pub(crate) fn len(&self) -> usize
        ensures { result ≡ length self.now.nodes.items }
    {
        self.nodes.len()
    }

    /// Returns the number of nodes at which a thread's next step is a call, and its stack is full.
    pub(crate) fn full_stacks(&self) -> usize {
        self.full_stacks
    }

    /// Returns whether a node has this key.
    fn holds(&self, key: &[u16]) -> bool
        ensures { IsTrue result
            → HasKey (length self.now.nodes.spare.stacks) self.now.nodes.items key.now }
    {
        let mut place = place_of(hash_of(key), self.table.len());
        for _ in 0..self.table.len() {
            if place >= self.table.len() {
                place = 0;
            }
            let entry = self.table.get(place).copied().unwrap_or(0);
            if entry == 0 {
                return false;
            }
            if self.nodes.has_key(entry as usize - 1, key) {
                return true;
            }
            place = place.wrapping_add(1);
        }
        false
    }

    /// Doubles the table, if it is three quarters full.
    fn grow_table(&mut self) -> Result<(), AllocError>
        ensures { (self.new.nodes ≡ self.old.nodes)
            × (self.new.packed.items ≡ self.old.packed.items) }
    {
        let size = self.table.len();
        if self.nodes.len() >= size / 4 * 3 {
            let alloc = *self.table.allocator();
            self.table = table_of(alloc, &self.nodes, size.wrapping_mul(2))?;
        }
        Ok(())
    }

    /// Adds the node of the record, after a step.
    fn add(&mut self, step: Step) -> Result<(), Stop>
        ensures { OnOk result
            (let threads = length self.old.nodes.spare.stacks in
            let node = node_of threads self.old.packed.items in
            (self.new.nodes.items ≡ self.old.nodes.items ++ node ∷ [])
            × (self.new.nodes.spare ≡ self.old.nodes.spare)) }
    {
        let count = self.nodes.len();
        if count >= self.limit as usize {
            return Err(Stop::Short(Reason::States));
        }
        self.grow_table()?;
        self.nodes.add(self.packed.as_slice(), step.from, step.bit)?;
        let hash = hash_of(self.nodes.key(count));
        note(&mut self.table, hash, (count as u32).wrapping_add(1));
        Ok(())
    }

    /// Counts the spare state, if it has a full stack.
    fn count_full_stack(&mut self, code: &Code)
        ensures { self.new.nodes ≡ self.old.nodes }
    {
        if self.nodes.has_full_stack(code) {
            self.full_stacks = self.full_stacks.wrapping_add(1);
        }
    }

    /// Keeps the spare state unless it was found before. A step led to it, with `made` of the
    /// listed steps.
    fn take(&mut self, code: &Code, step: Step, made: u32, level: u32) -> Result<(), Stop>
        requires { AreAtMost self.old.nodes.items level }
        ensures added { let node = node_with self.old.nodes.spare made step.thread level in
            OnOk result
            ((self.new.nodes.items ≡ self.old.nodes.items)
            ⊎ (self.new.nodes.items ≡ self.old.nodes.items ++ node ∷ [])) }
        ensures held { OnOk result
            (Has self.new.nodes.items self.old.nodes.spare step.thread made level) }
    {
        let key = self.nodes.pack(level, step.thread, made, &mut self.packed)?;
        if self.holds(&self.packed[key..]) {
            return Ok(());
        }
        self.add(step)?;
        self.count_full_stack(code);
        Ok(())
    }

    /// Makes a step from a node with `made` of the listed steps. The spare state is that of the
    /// node, and `transition` is that of the step.
    fn follow<O: Observer>(
        &mut self,
        code: &Code,
        observer: &O,
        step: Step,
        made: u32,
        level: u32,
        transition: Transition,
    ) -> Result<(), Stop>
        requires { AreAtMost self.old.nodes.items level }
        ensures { let o = O.listed observer.now in
            OnOk result
            ((y : StepOf)
            × IsFollowed o made self.old.nodes.spare step.thread transition y
            × IsTaken o self.old.nodes.items step.thread level y self.new.nodes.items) }
    {
        match transition {
            Transition::Stays(_) => Ok(()),
            Transition::Fails => {
                let before = self.nodes.top(step.thread);
                let seen = self.nodes.seen(step.thread, before, true);
                if made_with(observer, made, &seen) < observer.count() {
                    return Ok(());
                }
                let reply = Reply::Failed;
                Err(Stop::Found { step, reply })
            }
            Transition::Steps(effect) => {
                let before = self.nodes.top(step.thread);
                self.nodes.take_step(step.thread, effect)?;
                let seen = self.nodes.seen(step.thread, before, false);
                let made = made_with(observer, made, &seen);
                if made >= observer.count() {
                    let reply = Reply::Stepped;
                    return Err(Stop::Found { step, reply });
                }
                self.take(code, step, made, level)?;
                Ok(())
            }
        }
    }

    /// Makes the steps of a thread from a node, with either choice bit.
    fn expand<O: Observer>(
        &mut self,
        code: &Code,
        observer: &O,
        from: usize,
        thread: u32,
        level: u32,
    ) -> Result<(), Stop>
        requires most { AreAtMost self.old.nodes.items level }
        requires here { (node : NodeOf)
            × (slice_get self.old.nodes.items from ≡ Some node)
            × (level_with node thread ≤ level) }
        ensures { let o = O.listed observer.now in
            let expands = Expands o code.now.instructions from level (λ node i. i ≡ thread) in
            OnOk result (expands self.old.nodes.items self.new.nodes.items) }
    {
        let made = self.nodes.load(from)?;
        let first = self.nodes.transition(code, thread, false);
        let second = self.nodes.transition(code, thread, true);
        let bit = false;
        let step = Step { from, thread, bit };
        self.follow(code, observer, step, made, level, first)?;
        if is_same_step(first, second) {
            return Ok(());
        }
        self.nodes.load(from)?;
        let step = Step { bit: true, ..step };
        self.follow(code, observer, step, made, level, second)?;
        Ok(())
    }

    /// Makes the steps of the thread whose step led to a node.
    #[tactic(auto, using(crate::proofs::Growth::grown_none))]
    fn go_on<O: Observer>(
        &mut self,
        code: &Code,
        observer: &O,
        at: usize,
        level: u32,
    ) -> Result<(), Stop>
        requires most { AreAtMost self.old.nodes.items level }
        requires here { at < length self.old.nodes.items }
        ensures { let o = O.listed observer.now in
            let of_last = λ (node : NodeOf) (i : ℕ). node.last ≡ Some i in
            let expands = Expands o code.now.instructions at level of_last in
            OnOk result (expands self.old.nodes.items self.new.nodes.items) }
    {
        let Some(thread) = self.nodes.last(at) else {
            return Ok(());
        };
        self.expand(code, observer, at, thread, level)?;
        Ok(())
    }

    /// Makes the steps of all other threads from a node.
    #[tactic(auto, using(crate::proofs::Growth::grown_none))]
    fn switch<O: Observer>(
        &mut self,
        code: &Code,
        observer: &O,
        at: usize,
        level: u32,
        threads: u32,
    ) -> Result<(), Stop>
        requires most { AreAtMost self.old.nodes.items level }
        requires here { (node : NodeOf)
            × (slice_get self.old.nodes.items at ≡ Some node)
            × (node.level < level) }
        ensures { let o = O.listed observer.now in
            let expands = Expands o code.now.instructions at level (AreOthers threads) in
            OnOk result (expands self.old.nodes.items self.new.nodes.items) }
    {
        for thread in 0..threads {
            if self.nodes.last(at) == Some(thread) {
                continue;
            }
            self.expand(code, observer, at, thread, level)?;
        }
        Ok(())
    }

    /// Asks the watcher, if the steps of enough states were made since.
    fn ask<P: Watcher>(&self, watcher: &P, at: usize, level: u32) -> Result<(), Stop> {
        if at % STATES_BETWEEN == STATES_BETWEEN - 1 && !watcher.goes_on(level, self.len()) {
            return Err(Stop::Short(Reason::Stopped));
        }
        Ok(())
    }

    /// Begins a layer: makes the steps of other threads from all nodes of the layer before, which
    /// are those from this number on.
    fn begin_layer<O: Observer, P: Watcher>(
        &mut self,
        code: &Code,
        observer: &O,
        from: usize,
        level: u32,
        threads: u32,
        watcher: &P,
    ) -> Result<(), Stop>
        requires { let o = O.listed observer.now in (k : ℕ)
            × (level ≡ k + 1)
            × IsExplored o code.now.instructions threads self.old.nodes.items from k }
        ensures grown { let o = O.listed observer.now in
            let grown = IsGrown o code.now.instructions level in
            OnOk result (grown self.old.nodes.items self.new.nodes.items) }
        ensures closed { let o = O.listed observer.now in
            let closed = IsClosed o code.now.instructions threads self.new.nodes.items in
            OnOk result (closed (length self.old.nodes.items) level) }
    {
        for at in from..self.nodes.len() {
            self.ask(watcher, at, level)?;
            self.switch(code, observer, at, level, threads)?;
        }
        Ok(())
    }

    /// Closes a layer, which has the nodes from this number on, under the steps of the threads
    /// whose steps led to them.
    #[tactic(auto, using(crate::proofs::Growth::grown_none))]
    fn close_layer<O: Observer, P: Watcher>(
        &mut self,
        code: &Code,
        observer: &O,
        from: usize,
        level: u32,
        watcher: &P,
    ) -> Result<(), Stop>
        requires layered { AreLayered self.old.nodes.items from level }
        requires few { from ≤ length self.old.nodes.items }
        ensures grown { let o = O.listed observer.now in
            let grown = IsGrown o code.now.instructions level in
            OnOk result (grown self.old.nodes.items self.new.nodes.items) }
        ensures closed { let o = O.listed observer.now in
            let closed = IsClosed o code.now.instructions in
            OnOk result
            ((threads : ℕ)
            → closed threads self.old.nodes.items from level
            → closed threads self.new.nodes.items (length self.new.nodes.items) level) }
    {
        let limit = self.limit as usize;
        for at in from..limit {
            if at >= self.nodes.len() {
                return Ok(());
            }
            self.ask(watcher, at, level)?;
            self.go_on(code, observer, at, level)?;
        }
        if self.nodes.len() <= limit {
            return Ok(());
        }
        Err(Stop::Short(Reason::States))
    }

    /// Explores the next layer, and returns the number of its first node.
    pub(crate) fn next_layer<O: Observer, P: Watcher>(
        &mut self,
        code: &Code,
        observer: &O,
        from: usize,
        level: u32,
        threads: u32,
        watcher: &P,
    ) -> Result<usize, Stop>
        requires { let o = O.listed observer.now in (k : ℕ)
            × (level ≡ k + 1)
            × IsExplored o code.now.instructions threads self.old.nodes.items from k }
        ensures { let o = O.listed observer.now in
            let is_next = IsNextLayer o code.now.instructions threads level in
            IfOk result (is_next self.old.nodes.items self.new.nodes.items) }
    {
        let next = self.nodes.len();
        self.begin_layer(code, observer, from, level, threads, watcher)?;
        self.close_layer(code, observer, next, level, watcher)?;
        Ok(next)
    }

    /// Returns the first node from this number on that is deadlocked, if deadlocks are searched
    /// for.
    pub(crate) fn first_dead(
        &mut self,
        code: &Code,
        from: usize,
        with_deadlock: bool,
    ) -> Result<Option<usize>, AllocError>
        ensures live { IfOk result (λ dead.
            dead ≡ None
            → IsTrue with_deadlock
            → AreLiveFrom code.now.tree self.old.nodes.items from) }
        ensures looked { IfOk result (λ dead. IsSome dead → IsTrue with_deadlock) }
        ensures nodes { self.new.nodes.items ≡ self.old.nodes.items }
    {
        if !with_deadlock {
            return Ok(None);
        }
        for at in from..self.nodes.len() {
            self.nodes.load(at)?;
            if !self.nodes.is_live(code) {
                return Ok(Some(at));
            }
        }
        Ok(None)
    }

    /// Returns the most listed steps that were made at a node.
    #[tactic(auto, using(std::proofs::lemmas::Option::slice_get_within))]
    pub(crate) fn most_made(&self) -> u32
        ensures { IsMostMade self.now.nodes.items result }
    {
        let mut most: u32 = 0;
        for at in 0..self.nodes.len() {
            most = most.max(self.nodes.made(at));
        }
        most
    }

    /// Returns the attempts of the run that leads to a node, in order.
    pub(crate) fn calls_to(&self, alloc: Global, at: usize) -> Result<Vec<Call>, AllocError> {
        let mut calls = Vec::new(alloc);
        let mut at = at;
        for _ in 0..self.nodes.len() {
            let Some(call) = self.nodes.call(at) else {
                break;
            };
            calls.push(call)?;
            at = self.nodes.from(at);
        }
        calls.reverse();
        Ok(calls)
    }
}
