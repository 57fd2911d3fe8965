//! The nodes of an exploration, in cells.
ghost use Rattle.std.specs.Prelude.{◌≡◌, ◌<◌, ◌/◌, ◌%◌, ◌^◌, ◌++◌, ◌∷◌, [], true, IsTrue, List, Option, None, Some, IfOk, OnOk, length, slice_get};
ghost use Rattle.bp_syntax.specs.Ast.{Program};
ghost use Rattle.bp_flat.specs.Moves.{Configuration};
ghost use Rattle.bp_machine.specs.declared.stacks.ActivationRecord.{ActivationRecord};
ghost use Rattle.bp_explore.specs.States.{IsLive, NodeOf, IsRecordOf, node_of, record_at, take_key, Shows, state_after, IsNext};
ghost use Rattle.bp_explore.specs.Searches.{IsTopOrNone, ShowsStep};

use crate::cells::{push_number, read_number};
use crate::observers::SeenStep;
use crate::states::State;
use bp_flat::{Code, Effect};
use bp_machine::{Call, Reply, Top, Transition};
use std::alloc::{AllocError, Global};
use std::marker::Model;

/// The records of the nodes one after the other, the end of each, and the node and the choice bit
/// of its step, as twice the one plus the other. A record has the number of contexts within which
/// its node was reached, and then its key: the number of listed steps made, the thread of the step
/// that led to it, and its state. `spare` is the state to work on.
#[derive(Drop)]
pub(crate) struct Nodes {
    cells: Vec<u16>,
    ends: Vec<u32>,
    steps: Vec<u32>,
    spare: State,
}

impl Model for Nodes {
    ghost use Rattle.std.specs.Prelude.{◌≡◌, ◌≤◌, All, length};
    ghost use Rattle.bp_explore.specs.States.{NodesOf, end_of, nodes_from};

    ghost Value = { NodesOf };

    ghost view = { λ s. record {
      items = nodes_from (length s.spare.stacks) s.cells.items 0 s.ends.items;
      spare = s.spare;
    } };

    ghost invariant = { λ s.
        All (λ e. e ≤ length s.cells.items) s.ends.items
        × (end_of 0 s.ends.items ≡ length s.cells.items) };
}

/// Returns the number of listed steps made, by the head of a key.
fn made_of(head: u128) -> u32
    ensures { result ≡ head / 2 ^ 33 % 2 ^ 32 }
{
    ((head / (1 << 33)) % (1 << 32)) as u32
}

/// Returns the record of this number.
fn record_of<'a>(cells: &'a [u16], ends: &[u32], at: usize) -> &'a [u16]
    ensures { result.now ≡ record_at cells.now ends.now at }
{
    if at >= ends.len() {
        return &cells[..0];
    }
    let start = if at == 0 { 0 } else { ends[at - 1] as usize };
    let end = (ends[at] as usize).min(cells.len());
    if start >= end {
        return &cells[..0];
    }
    &cells[start..end]
}

impl Nodes {
    /// Makes the node of this first state.
    pub(crate) fn new(alloc: Global, first: State) -> Result<Nodes, AllocError>
        ensures { IfOk result (λ x.
            x.items ≡ record { state = first; made = 0; last = None; level = 0 } ∷ []) }
    {
        let mut record = Vec::new(alloc);
        push_number(&mut record, 0)?;
        push_number(&mut record, 0)?;
        first.pack(&mut record)?;
        let mut nodes = Nodes {
            cells: Vec::new(alloc),
            ends: Vec::new(alloc),
            steps: Vec::new(alloc),
            spare: first,
        };
        nodes.add(record.as_slice(), 0, false)?;
        Ok(nodes)
    }

    /// Returns the number of nodes.
    #[tactic(auto, using(crate::proofs::PackedNodes::nodes_length))]
    pub(crate) fn len(&self) -> usize
        ensures { result ≡ length self.now.items }
    {
        self.ends.len()
    }

    /// Makes the spare state that of a node, and returns the number of listed steps made.
    #[tactic(auto, using(crate::proofs::PackedNodes::node_is))]
    pub(crate) fn load(&mut self, at: usize) -> Result<u32, AllocError>
        ensures items { self.new.items ≡ self.old.items }
        ensures loaded { OnOk result
            ((node : NodeOf)
            → slice_get self.old.items at ≡ Some node
            → self.new.spare ≡ node.state) }
        ensures made { IfOk result (λ made.
            (node : NodeOf) → slice_get self.old.items at ≡ Some node → made ≡ node.made) }
    {
        let record = record_of(self.cells.as_slice(), self.ends.as_slice(), at);
        let mut place = 0;
        let _level = read_number(record, &mut place);
        let head = read_number(record, &mut place);
        self.spare.load(record, &mut place)?;
        Ok(made_of(head))
    }

    /// Returns the number of listed steps made at a node.
    #[tactic(auto, using(crate::proofs::PackedNodes::node_is))]
    pub(crate) fn made(&self, at: usize) -> u32
        ensures { (node : NodeOf) → slice_get self.now.items at ≡ Some node → result ≡ node.made }
    {
        let record = record_of(self.cells.as_slice(), self.ends.as_slice(), at);
        let mut place = 0;
        let _level = read_number(record, &mut place);
        made_of(read_number(record, &mut place))
    }

    /// Returns the thread of the step that led to a node, or None if no step did.
    #[tactic(auto, using(crate::proofs::PackedNodes::node_is))]
    pub(crate) fn last(&self, at: usize) -> Option<u32>
        ensures { (node : NodeOf) → slice_get self.now.items at ≡ Some node → result ≡ node.last }
    {
        let record = record_of(self.cells.as_slice(), self.ends.as_slice(), at);
        let mut place = 0;
        let _level = read_number(record, &mut place);
        let head = read_number(record, &mut place);
        let last = head % (1 << 33);
        if last == 0 {
            return None;
        }
        Some(((last - 1) % (1 << 32)) as u32)
    }

    /// Returns whether a node has this key.
    pub(crate) fn has_key(&self, at: usize, key: &[u16]) -> bool
        ensures { IsTrue result
            → (node : NodeOf)
            × (slice_get self.now.items at ≡ Some node)
            × ((node.made, node.last, node.state)
            ≡ (take_key (length self.now.spare.stacks) key.now).0) }
    {
        if at >= self.ends.len() {
            return false;
        }
        let record = record_of(self.cells.as_slice(), self.ends.as_slice(), at);
        let mut place = 0;
        let _level = read_number(record, &mut place);
        place <= record.len() && &record[place..] == key
    }

    /// Writes the record of the spare state, to which a step of this thread led: within `level`
    /// contexts, with `made` of the listed steps. Returns the place at which its key begins.
    pub(crate) fn pack(
        &self,
        level: u32,
        thread: u32,
        made: u32,
        packed: &mut Vec<u16>,
    ) -> Result<usize, AllocError>
        ensures { let threads = length self.now.spare.stacks in
            IfOk result (λ key.
            IsRecordOf threads packed.new.items key level thread made self.now.spare) }
    {
        packed.clear();
        push_number(packed, u128::from(level))?;
        let key = packed.len();
        push_number(
            packed,
            u128::from(made) * (1 << 33) + u128::from(thread) + 1,
        )?;
        self.spare.pack(packed)?;
        Ok(key)
    }

    /// Adds the node of this record, after a step from the node `from` with this choice bit.
    pub(crate) fn add(&mut self, packed: &[u16], from: usize, bit: bool) -> Result<(), AllocError>
        ensures { OnOk result
            (let threads = length self.old.spare.stacks in
            (self.new.items ≡ self.old.items ++ node_of threads packed.now ∷ [])
            × (self.new.spare ≡ self.old.spare)) }
    {
        if self.cells.len() + packed.len() > u32::MAX as usize {
            return Err(AllocError);
        }
        self.ends.reserve(1)?;
        self.steps.reserve(1)?;
        self.cells.extend_from_slice(packed)?;
        self.ends.push_reserved(self.cells.len() as u32);
        self.steps
            .push_reserved((from % (1 << 31)) as u32 * 2 + u32::from(bit));
        Ok(())
    }

    /// Returns the key of a node.
    pub(crate) fn key(&self, at: usize) -> &[u16] {
        let record = record_of(self.cells.as_slice(), self.ends.as_slice(), at);
        let mut place = 0;
        let _level = read_number(record, &mut place);
        if place > record.len() {
            return record;
        }
        &record[place..]
    }

    /// Returns the top of the stack of a thread in the spare state, or None if it is empty.
    pub(crate) fn top(&self, thread: u32) -> Option<Top>
        ensures { (t : Program) (c : Configuration)
            → Shows t self.now.spare c
            → IsTopOrNone t c thread result }
    {
        self.spare.top(thread)
    }

    /// Returns the seen part of a step of a thread that led to the spare state.
    pub(crate) fn seen(&self, thread: u32, before: Option<Top>, failed: bool) -> SeenStep
        ensures shows { (t : Program) (c d : Configuration)
            → IsTopOrNone t c thread before
            → Shows t self.now.spare d
            → d.failed ≡ failed
            → ShowsStep t result c d }
        ensures thread { result.thread ≡ thread }
    {
        self.spare.seen(thread, before, failed)
    }

    /// Returns the transition for a thread's next step from the spare state, with this choice bit.
    pub(crate) fn transition(&self, code: &Code, thread: u32, bit: bool) -> Transition
        ensures { IsNext code.now.instructions self.now.spare thread bit result }
    {
        self.spare.transition(code, thread, bit)
    }

    /// Makes a step of a thread in the spare state.
    pub(crate) fn take_step(&mut self, thread: u32, effect: Effect) -> Result<(), AllocError>
        ensures items { self.new.items ≡ self.old.items }
        ensures spare { OnOk result
            ((stack : List ActivationRecord)
            → slice_get self.old.spare.stacks thread ≡ Some stack
            → self.new.spare ≡ state_after self.old.spare thread stack effect) }
    {
        self.spare.take_step(thread, effect)
    }

    /// Returns whether the threads are not deadlocked in the spare state.
    pub(crate) fn is_live(&self, code: &Code) -> bool
        ensures { IsTrue result → IsLive code.now.tree self.now.spare }
    {
        self.spare.is_live(code)
    }

    /// Returns whether a thread's next step from the spare state is a call, and its stack is full.
    pub(crate) fn has_full_stack(&self, code: &Code) -> bool {
        self.spare.has_full_stack(code)
    }

    /// Returns the attempt of the step that led to a node, or None if no step did.
    pub(crate) fn call(&self, at: usize) -> Option<Call> {
        let thread = self.last(at)?;
        let step = self.steps.get(at).copied().unwrap_or(0);
        Some(Call {
            thread,
            bit: step % 2 == 1,
            reply: Reply::Stepped,
        })
    }

    /// Returns the node before that step.
    pub(crate) fn from(&self, at: usize) -> usize {
        (self.steps.get(at).copied().unwrap_or(0) / 2) as usize
    }
}
