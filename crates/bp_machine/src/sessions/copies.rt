//! Copying a session.
ghost use Rattle.std.specs.Prelude.{◌≡◌, List, IfOk};
ghost use Rattle.bp_syntax.specs.Ast.{Program};
ghost use Rattle.bp_machine.specs.declared.calls.Call.{Call as Answered};
ghost use Rattle.bp_machine.specs.Sessions.{Stands};

use crate::choices::Choices;
use crate::sessions::Session;
use std::alloc::{AllocError, Global};

/// Returns a deep copy of choices.
fn copied_choices(alloc: Global, choices: &[Choices]) -> Result<Vec<Choices>, AllocError>
    ensures { IfOk result (λ v. v.items ≡ choices.now) }
{
    let mut copies = Vec::with_capacity(alloc, choices.len())?;
    for choice in choices {
        copies.push(choice.try_copy()?)?;
    }
    Ok(copies)
}

impl Session {
    /// Returns a deep copy, which stands after the same attempts.
    pub fn try_copy(&self) -> Result<Session, AllocError>
        ensures stands { (t : Program) (h : List Answered)
            → Stands t self.now h
            → IfOk result (λ x. Stands t x h) }
        ensures kept { IfOk result (λ x. (x.code ≡ self.now.code) × (x.setup ≡ self.now.setup)) }
    {
        let code = self.code.try_copy()?;
        let setup = self.setup.try_copy()?;
        let machine = self.machine.try_copy()?;
        let choices = copied_choices(*self.choices.allocator(), self.choices.as_slice())?;
        Ok(Session {
            code,
            setup,
            machine,
            choices,
        })
    }
}
