//! The command `run`. It is no `ProgramCommand`: the starter of threads and the gate of a run are
//! known in its workers only as a function's own parameters.
ghost use Rattle.bp_commands.specs.Commands.{Answers, text_alone};
ghost use Rattle.bp_commands.specs.ErrorReports.{AreReadOr};
ghost use Rattle.bp_commands.specs.Runs.{runs};

use crate::inputs::{Source, read_text};
use crate::programs::{Opened, open};
use bp_machine::SetupError;
use bp_messages::Error;
use bp_run::{Gate, RunReport, Turns, has_bad_turn_or_ring, run_code};
use bp_source::RunTask;
use std::alloc::Global;
use std::io::{Read, Write};
use std::sync::Wait;
use std::thread::Threads;
use std::time::Clock;

/// A run by real workers, one for each guest thread.
#[derive(Drop)]
pub struct Run<'a, T, G> {
    /// The starter of the workers.
    pub threads: &'a T,
    /// The gate at which they wait.
    pub gate: &'a G,
    pub task: &'a RunTask<'a>,
}

/// Reads a program text, and runs its program under the options. The trace of the history that the
/// workers make is written while it grows. Reads at most 65,537 bytes.
pub fn run_program<T: Threads + Wait + Clock + Sync, G: Gate, R: Read, W: Write>(
    alloc: Global,
    asked: &Run<'_, T, G>,
    program: &mut Source<R>,
    out: &mut W,
) -> Result<RunReport, Error>
    ensures answers { let inputs = text_alone
        (R.remaining program.old.reader) (R.remaining program.new.reader) in
        let task = asked.now.task.now in
        Answers (runs task.options task.named) inputs
        (W.contents out.old) (W.contents out.new) result }
    ensures holds { let inputs = text_alone
        (R.remaining program.old.reader) (R.remaining program.new.reader) in
        AreReadOr inputs program.new.bytes.items result }
{
    read_text(alloc, program)?;
    let (options, named) = (&asked.task.options, &asked.task.named);
    let opened = open(alloc, &program.bytes, &options.start, named)?;
    if has_bad_turn_or_ring(options) {
        return Err(Error::Setup(SetupError::OutOfRange));
    }
    let Opened { code, setup } = opened;
    let setup = setup.with_seed(Some(options.seed));
    let (calls, gate) = (options.turn, asked.gate);
    let turns = Turns { calls, gate };
    let report = run_code(
        asked.threads,
        alloc,
        &code,
        &setup,
        turns,
        options.ring,
        out,
    )?;
    Ok(report)
}
