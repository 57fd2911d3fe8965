//! The globals that instructions read and write.
use crate::actions::Action;
use crate::exprs::SlotExpr;
use crate::instrs::Instr;
use crate::slots::Slot;

/// Globals that are read and written, each as a word of bits: that of slot k has the weight 2 to
/// the k.
#[derive(Clone, Copy)]
pub struct Touched {
    pub read: u128,
    pub written: u128,
}

impl Touched {
    /// Returns the globals that either of the two reads or writes.
    pub fn with(self, other: Touched) -> Touched {
        Touched {
            read: self.read | other.read,
            written: self.written | other.written,
        }
    }

    /// Returns whether neither writes a global that the other one reads or writes.
    pub fn is_apart(self, other: Touched) -> bool {
        self.written & (other.read | other.written) == 0 && self.read & other.written == 0
    }
}

/// Returns the globals in any of the expressions.
fn globals_of_exprs(exprs: &[SlotExpr]) -> u128 {
    let mut globals = 0;
    for e in exprs {
        globals |= e.globals();
    }
    globals
}

/// Returns the globals among variables.
fn globals_of_slots(slots: &[Slot]) -> u128 {
    let mut globals = 0;
    for slot in slots {
        globals |= slot.globals();
    }
    globals
}

/// Returns the globals that an action reads.
fn globals_read(action: &Action) -> u128 {
    match action {
        Action::Skip { .. } | Action::Goto { .. } | Action::Return => 0,
        Action::Assign(assignment) => globals_of_exprs(assignment.values.as_slice()),
        Action::If(branch) | Action::While(branch) => branch.test.globals(),
        Action::Assert { test, .. } | Action::Assume { test, .. } => test.globals(),
        Action::Print { values, .. } => globals_of_exprs(values.as_slice()),
        Action::Call(call) => globals_of_exprs(call.arguments.values().as_slice()),
    }
}

/// Returns the globals that an action writes.
fn globals_written(action: &Action) -> u128 {
    match action {
        Action::Assign(assignment) => globals_of_slots(assignment.targets.as_slice()),
        _ => 0,
    }
}

impl Instr {
    /// Returns the globals that a step of this instruction touches.
    pub fn touched(&self) -> Touched {
        let action = self.action();
        Touched {
            read: globals_read(action),
            written: globals_written(action),
        }
    }
}
