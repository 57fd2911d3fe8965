//! The command `test`.
ghost use Rattle.std.specs.Prelude.{◌≡◌, map, IfOk};
ghost use Rattle.bp_commands.specs.Tests.{AreListed};

use crate::commands::ProgramCommand;
use crate::error_contexts::OptionNumbers;
use crate::programs::{Opened, open};
use crate::run_ends::CommandAnswer;
use bp_code::Code;
use bp_machine::SetupError;
use bp_messages::{Error, TestReport, exit_status, put_summary, put_summary_objects};
use bp_source::limits::MAX_JOBS;
use bp_source::{
    NamedStart, TestTask, statement_lines, statement_positions, statement_texts, unreached_objects,
};
use bp_test::{Progress, Runtimes, Tally, distinct_of, test};
use bp_text::WriteError;
use std::alloc::{AllocError, Global};
use std::io::Write;
use std::thread::Threads;

/// `test`: runs a program by schedules that are drawn, until an assertion fails, and writes the
/// trace of that run.
#[derive(Drop)]
pub struct Test<'a, R, P> {
    /// The starter of the threads of the test.
    pub threads: &'a R,
    /// The clock.
    pub clock: &'a HostRuntime,
    /// Is told the progress of the test.
    pub progress: &'a P,
    pub task: &'a TestTask<'a>,
}

impl CommandAnswer for TestReport {
    ghost use Rattle.bp_commands.specs.Tests.{of_test};

    ghost rule = { of_test };

    fn status(&self) -> u8 {
        exit_status(self.has_found(), None)
    }

    fn summarize<E: Write>(&self, errors: &mut E) -> Result<(), WriteError> {
        if self.json {
            put_summary_objects(self, errors)
        } else {
            put_summary(self, errors)
        }
    }
}

/// Returns the lines of the statements of a program, if they are to be listed.
fn lines_of(
    alloc: Global,
    task: &TestTask<'_>,
    text: &[u8],
    code: &Code,
) -> Result<Vec<Vec<u8>>, AllocError>
    ensures { IfOk result (λ v.
        AreListed task.now text.now code.now.tree (map (λ line. line.items) v.items)) }
{
    match (task.unreached, task.json) {
        (false, _) => Ok(Vec::new(alloc)),
        (true, false) => statement_lines(alloc, task.program, text, code.checked()),
        (true, true) => unreached_objects(alloc, task.program, text, code.checked()),
    }
}

impl<R: Threads + Sync, P: Progress> ProgramCommand for Test<'_, R, P> {
    ghost use Rattle.std.specs.Thread.{IsSync};
    ghost use Rattle.bp_commands.specs.Tests.{tests};

    type Answer = TestReport;

    ghost command = { λ x. tests x.task.now };

    ghost allowed = { λ _. IsSync R.row };

    fn apply<W: Write>(
        &self,
        alloc: Global,
        text: &[u8],
        out: &mut W,
    ) -> Result<TestReport, Error> {
        let task = self.task;
        let opened = open(alloc, text, &task.start, &task.named)?;
        let options = task.options;
        if options.jobs > MAX_JOBS {
            return Err(Error::Setup(SetupError::OutOfRange));
        }
        let Opened { code, setup } = opened;
        let file = Vec::from_slice(alloc, task.program.as_bytes())?;
        let lines = lines_of(alloc, task, text, &code)?;
        let checked = code.checked();
        let positions = statement_positions(alloc, text, checked)?;
        let statements = statement_texts(alloc, text, checked)?;
        let runtimes = Runtimes {
            threads: self.threads,
            clock: self.clock,
        };
        let progress = self.progress;
        let tested = test(&runtimes, alloc, &code, &setup, &options, progress, out)?;
        let counts = tested.tally.counts(&code);
        let bp_test::Tested {
            found,
            failed,
            waiting,
            tally,
        } = tested;
        let Tally { reached, keys, .. } = tally;
        Ok(TestReport {
            file,
            options,
            setup,
            found,
            failed,
            waiting,
            positions,
            statements,
            counts,
            distinct: distinct_of(self.threads, options.jobs, keys),
            lines,
            reached,
            json: task.json,
        })
    }

    fn named_start(&self) -> Option<NamedStart<'_>> {
        let (start, named) = (&self.task.start, &self.task.named);
        Some(NamedStart { start, named })
    }

    fn numbers(&self) -> OptionNumbers {
        OptionNumbers::of_test(&self.task.options)
    }
}
