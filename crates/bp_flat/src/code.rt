//! Flat code.
ghost use Rattle.std.specs.Prelude.{◌≡◌, None, IfOk, length, option_map, slice_get, MatchOption};
ghost use Rattle.std.specs.Option.{option_copied};
ghost use Rattle.bp_flat.specs.Moves.{procedure_named};
ghost use Rattle.bp_flat.specs.Flat.{flat, heading_named};
ghost use Rattle.bp_flat.specs.StandsFor.{IsEntryOf, IsOfProgram};

use crate::headings::{Heading, find_heading};
use crate::instrs::Instr;
use bp_syntax::Checked;
use std::alloc::{AllocError, Global};
use std::marker::Model;
use std::sync::Arc;

/// A program as flat code: one instruction for each statement, numbered from 0 in text order over
/// all procedures, and one return after each procedure's statements. Each instruction names its
/// successors. A code has the well-formed program that it stands for. Copies of a code share it.
pub struct Code {
    parts: Arc<Parts, Global>,
}

// Written out, so that elsewhere a way out has one call, and not the drop of each part.
impl Drop for Code {
    fn drop(self) {
        let Code { parts: _ } = self;
    }
}

/// The parts of a code.
#[derive(Drop)]
struct Parts {
    headings: Vec<Heading>,
    globals: u32,
    instrs: Vec<Instr>,
    checked: Checked,
}

impl Model for Code {
    ghost use Rattle.bp_flat.specs.Flat.{Flat, flat};
    ghost use Rattle.bp_flat.specs.Codes.{coded_flat};

    ghost Value = { Flat };

    ghost coded = { coded_flat };

    ghost use Rattle.bp_flat.specs.StandsFor.{IsOfProgram};
    ghost use Rattle.std.specs.Arc.{arc_value};

    ghost view = { λ c. let p = arc_value c.parts in
        flat p.headings.items p.globals p.instrs.items p.checked };

    ghost invariant = { λ c. let p = arc_value c.parts in
        IsOfProgram (flat p.headings.items p.globals p.instrs.items p.checked) };
}

impl Code {
    /// Makes the code of a program from headings, globals and instructions. Fails only on
    /// allocation.
    pub fn new(
        alloc: Global,
        headings: Vec<Heading>,
        globals: u32,
        instrs: Vec<Instr>,
        checked: Checked,
    ) -> Result<Code, AllocError>
        requires { IsOfProgram (flat headings.items globals instrs.items checked) }
        ensures { IfOk result (λ c. c ≡ flat headings.items globals instrs.items checked) }
    {
        let parts = Parts {
            headings,
            globals,
            instrs,
            checked,
        };
        let parts = Arc::new(alloc, parts)?;
        Ok(Code { parts })
    }

    #[inline(always)]
    fn parts(&self) -> &Parts
        ensures { let p = result.now in
            self.now ≡ flat p.headings.items p.globals p.instrs.items p.checked }
    {
        &self.parts
    }

    /// Returns the number of instructions. Each has a number below that.
    pub fn len(&self) -> usize
        ensures { result ≡ length self.now.instructions }
    {
        self.parts().instrs.len()
    }

    /// Returns the instruction of this number.
    pub fn get(&self, number: u32) -> Option<&Instr>
        ensures { option_copied result ≡ slice_get self.now.instructions number }
    {
        self.parts().instrs.get(number as usize)
    }

    /// Returns the heading of the first procedure of this name, which may be any bytes.
    pub fn heading_of(&self, name: &[u8]) -> Option<&Heading>
        ensures heading { option_copied result ≡ heading_named self.now.headings name.now }
        ensures program { let found = procedure_named self.now.tree.procedures name.now in
            option_map (λ h. h.now.formals) result ≡ option_map (λ p. length p.formals) found }
    {
        self.is_of_a_program();
        find_heading(self.parts().headings.as_slice(), name)
    }

    /// Returns the number of the first instruction of the first procedure of this name.
    pub fn entry(&self, name: &str) -> Option<u32>
        ensures heading { result
            ≡ option_map (λ h. h.entry) (heading_named self.now.headings name.now) }
        ensures program { let found = procedure_named self.now.tree.procedures name.now in
            MatchOption result (found ≡ None) (IsEntryOf self.now.tree found) }
    {
        self.is_of_a_program();
        match find_heading(self.parts().headings.as_slice(), name.as_bytes()) {
            Some(heading) => Some(heading.entry()),
            None => None,
        }
    }

    /// Returns the number of formals of the first procedure of this name.
    pub fn formals(&self, name: &str) -> Option<u32>
        ensures heading { result
            ≡ option_map (λ h. h.formals) (heading_named self.now.headings name.now) }
        ensures program { let found = procedure_named self.now.tree.procedures name.now in
            result ≡ option_map (λ p. length p.formals) found }
    {
        self.is_of_a_program();
        match find_heading(self.parts().headings.as_slice(), name.as_bytes()) {
            Some(heading) => Some(heading.formals()),
            None => None,
        }
    }

    /// Returns the number of globals.
    pub fn globals(&self) -> u32
        ensures value { result ≡ self.now.globals }
        ensures program { result ≡ length self.now.tree.globals }
    {
        self.is_of_a_program();
        self.parts().globals
    }

    /// Returns the procedures in text order.
    pub fn headings(&self) -> &[Heading]
        ensures { result.now ≡ self.now.headings }
    {
        self.parts().headings.as_slice()
    }

    /// Returns the instructions in order of number.
    pub fn instrs(&self) -> &[Instr]
        ensures { result.now ≡ self.now.instructions }
    {
        self.parts().instrs.as_slice()
    }

    /// Returns the program that the code stands for.
    pub fn checked(&self) -> &Checked
        ensures { result.now ≡ self.now.tree }
    {
        &self.parts().checked
    }

    /// Proves that a code stands for its program, which is the well-formed program of some text.
    pub fn is_of_a_program(&self)
        ensures { IsOfProgram self.now }
    {
        let _ = &self.parts;
    }

    /// Returns a copy that shares the parts. Fails only if too many copies share them.
    pub fn try_copy(&self) -> Result<Code, AllocError>
        ensures { IfOk result (λ c. c ≡ self.now) }
    {
        let parts = Arc::try_clone(&self.parts)?;
        Ok(Code { parts })
    }
}
