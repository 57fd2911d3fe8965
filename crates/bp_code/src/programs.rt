//! The code of a whole program.
ghost use Rattle.std.specs.Prelude.{◌≡◌, ◌+◌, ◌^◌, ◌<◌, ◌≤◌, ◌++◌, ◌∷◌, [], IfOk, OnOk, length, map};
ghost use Rattle.bp_flat.specs.declared.limits.TheConstants.{SLOTS};
ghost use Rattle.bp_syntax.specs.Ast.{Program};
ghost use Rattle.bp_code.specs.KnownNames.{IsKnown};
ghost use Rattle.bp_code.specs.CompiledCode.{block_size, procedures_size, headings_from, environment_at, procedure_code, flat_of};
ghost use Rattle.bp_syntax.specs.Texts.{HasText};
ghost use Rattle.bp_syntax.specs.Errors.{IsWellFormed};
ghost use Rattle.bp_code.specs.CompilablePrograms.{IsCompilable, HaveFew};

use crate::emit::{emit_block, push};
use crate::environments::Environment;
use crate::layout::{Layout, size_of_block};
use crate::tables::NameTable;
use bp_flat::actions::Action;
use bp_flat::code::Code;
use bp_flat::headings::Heading;
use bp_flat::instrs::Instr;
use bp_syntax::{Checked, Name, Proc};
use std::alloc::{AllocError, Global};

/// Makes the headings of the procedures. The instructions of each begin at the end of those before.
fn headings_of(alloc: Global, procs: &[Proc]) -> Result<Vec<Heading>, AllocError>
    requires size { procedures_size procs.now < 2 ^ 32 }
    requires few { HaveFew procs.now }
    ensures { IfOk result (λ hs. hs.items ≡ headings_from 0 procs.now) }
{
    let mut headings = Vec::new(alloc);
    let mut entry = 0;
    for proc in procs {
        let name = String::from_str(alloc, proc.name().text())?;
        let formals = proc.formals().len() as u32;
        let locals = proc.locals().len() as u32;
        headings.push(Heading::new(name, formals, locals, entry))?;
        entry += size_of_block(proc.body()) + 1;
    }
    Ok(headings)
}

/// Adds the instructions of a procedure, with a return after its statements.
fn emit_proc<'a>(
    out: &mut Vec<Instr>,
    globals: &NameTable<'a>,
    procs: &NameTable<'a>,
    headings: &[Heading],
    proc: &'a Proc,
) -> Result<(), AllocError>
    requires globals { length globals.now ≤ SLOTS }
    requires named { map (λ h. h.name) headings.now ≡ map (λ n. n.text) procs.now }
    requires variables { length (proc.now.formals ++ proc.now.locals) ≤ SLOTS }
    requires room { length out.old.items + block_size proc.now.body + 1 < 2 ^ 32 }
    requires known { let start = length out.old.items in
        IsKnown (environment_at globals.now headings.now proc.now start) proc.now.body }
    ensures code { let start = length out.old.items in
        let environment = environment_at globals.now headings.now proc.now start in
        OnOk result (out.new.items ≡ out.old.items ++ procedure_code environment) }
    ensures grown { let grown = length out.old.items + block_size proc.now.body + 1 in
        OnOk result (length out.new.items ≡ grown) }
{
    let alloc = *out.allocator();
    let start = out.len() as u32;
    let environment = Environment {
        globals,
        procs,
        headings,
        proc,
        own: NameTable::of_variables(alloc, proc)?,
        layout: Layout::new(alloc, proc, start)?,
    };
    let end = start + environment.layout.len() as u32;
    emit_block(out, &environment, proc.body(), end)?;
    push(out, Instr::new(Action::Return))
}

/// Compiles a program. The code keeps the program, which it stands for.
pub fn compile(alloc: Global, checked: &Checked) -> Result<Code, AllocError>
    ensures program { IfOk result (λ c. c.tree ≡ checked.now) }
    ensures compiled { IfOk result (λ c. c ≡ flat_of checked.now) }
{
    let tree = checked.tree();
    checked.has_few_statements();
    checked.has_few_names();
    checked.has_sound_statements();
    let own = checked.try_copy()?;
    compile_program(alloc, own, tree.globals(), tree.procs())
}

/// Compiles a program of these globals and procedures.
fn compile_program(
    alloc: Global,
    checked: Checked,
    globals: &[Name],
    procs: &[Proc],
) -> Result<Code, AllocError>
    requires parts { checked ≡ record { globals = globals.now; procedures = procs.now } }
    requires able { IsCompilable (record { globals = globals.now; procedures = procs.now }) }
    requires well_formed { IsWellFormed (record { globals = globals.now; procedures = procs.now }) }
    requires of_text { HasText (record { globals = globals.now; procedures = procs.now }) }
    ensures { let t : Program = record { globals = globals.now; procedures = procs.now } in
        IfOk result (λ c. c ≡ flat_of t) }
{
    let headings = headings_of(alloc, procs)?;
    let global_names = NameTable::of(alloc, globals)?;
    let proc_names = NameTable::of_procedures(alloc, procs)?;
    let mut instrs = Vec::new(alloc);
    for proc in procs {
        let headings = headings.as_slice();
        emit_proc(&mut instrs, &global_names, &proc_names, headings, proc)?;
    }
    Code::new(alloc, headings, globals.len() as u32, instrs, checked)
}
