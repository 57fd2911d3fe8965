//! Instructions of flat code.
ghost use Rattle.std.specs.Prelude.{◌≡◌};
ghost use Rattle.bp_flat.specs.Instructions.{instruction_of};
ghost use Rattle.bp_flat.specs.Flat.{instruction_kind, next_of, other_of, callee_of};

use crate::actions::Action;
use std::alloc::AllocError;
use std::marker::Model;

/// One instruction of a code, which names its successors by their numbers.
#[derive(Drop)]
pub struct Instr {
    action: Action,
}

impl Model for Instr {
    ghost use Rattle.bp_flat.specs.Flat.{Instruction};
    ghost use Rattle.bp_flat.specs.Codes.{coded_instruction};

    ghost Value = { Instruction };

    ghost coded = { coded_instruction };

    ghost use Rattle.bp_flat.specs.Instructions.{instruction_of};

    ghost view = { λ i. instruction_of i.action };
}

/// The kind of an instruction.
#[derive(Clone, Copy, Debug, PartialEq, Eq)]
pub enum Kind {
    Skip,
    Goto,
    Return,
    Assign,
    If,
    While,
    Assert,
    Assume,
    Print,
    Call,
}

impl Instr {
    /// Makes the instruction with this action.
    pub fn new(action: Action) -> Instr
        ensures { result ≡ instruction_of action }
    {
        Instr { action }
    }

    /// Returns the kind of this instruction.
    pub fn kind(&self) -> Kind
        ensures { result ≡ instruction_kind self.now }
    {
        match &self.action {
            Action::Skip { .. } => Kind::Skip,
            Action::Goto { .. } => Kind::Goto,
            Action::Return => Kind::Return,
            Action::Assign(_) => Kind::Assign,
            Action::If(_) => Kind::If,
            Action::While(_) => Kind::While,
            Action::Assert { .. } => Kind::Assert,
            Action::Assume { .. } => Kind::Assume,
            Action::Print { .. } => Kind::Print,
            Action::Call(_) => Kind::Call,
        }
    }

    /// Returns the number of the instruction that follows this one, after its return if it is a
    /// call. It is the first of the `then` part of an `if`, and of the body of a `while`. A return
    /// has none.
    pub fn next(&self) -> Option<u32>
        ensures { result ≡ next_of self.now }
    {
        match &self.action {
            Action::Return => None,
            Action::Skip { next }
            | Action::Goto { next }
            | Action::Assert { next, .. }
            | Action::Assume { next, .. }
            | Action::Print { next, .. } => Some(*next),
            Action::Assign(assignment) => Some(assignment.next),
            Action::If(branch) | Action::While(branch) => Some(branch.next),
            Action::Call(call) => Some(call.next),
        }
    }

    /// Returns the number of the first instruction of the `else` part of an `if`, or of the
    /// instruction after a `while` loop.
    pub fn other(&self) -> Option<u32>
        ensures { result ≡ other_of self.now }
    {
        match &self.action {
            Action::If(branch) | Action::While(branch) => Some(branch.other),
            _ => None,
        }
    }

    /// Returns the number of the callee's first instruction, for a call.
    pub fn callee(&self) -> Option<u32>
        ensures { result ≡ callee_of self.now }
    {
        match &self.action {
            Action::Call(call) => Some(call.callee),
            _ => None,
        }
    }

    /// Returns the action of this instruction.
    pub fn action(&self) -> &Action
        ensures { instruction_of result.now ≡ self.now }
    {
        &self.action
    }
}
