//! The commands on a program and a trace of it.
ghost use Rattle.bp_commands.specs.Shows.{trace_command};

use crate::commands::PairCommand;
use crate::explanations::SecondInput;
use crate::replays::{migrate_trace, replay_trace, shrink_trace};
use crate::shows::{Show, show_trace};
use bp_code::code_of;
use bp_machine::Report;
use bp_messages::Error;
use std::alloc::Global;
use std::io::Write;

/// A command on a program and a trace of it.
#[derive(Clone, Copy)]
pub enum TraceCommand<'a> {
    Replay,
    Migrate,
    Shrink,
    Show(Show<'a>),
}

impl PairCommand for TraceCommand<'_> {
    ghost use Rattle.bp_commands.specs.declared.explanations.SecondInput.{SecondInput};

    type Answer = Report;

    ghost command = { trace_command };

    ghost second_input = { λ _. SecondInput.Trace };

    fn apply<W: Write>(
        &self,
        alloc: Global,
        text: &[u8],
        trace: &[u8],
        out: &mut W,
    ) -> Result<Report, Error> {
        let code = code_of(alloc, text)?;
        match self {
            TraceCommand::Replay => replay_trace(alloc, &code, trace, out),
            TraceCommand::Migrate => migrate_trace(alloc, &code, trace, out),
            TraceCommand::Shrink => shrink_trace(alloc, &code, trace, out),
            TraceCommand::Show(asked) => { show_trace(alloc, text, &code, trace, *asked, out) }
        }
    }

    fn second_input(&self) -> SecondInput {
        SecondInput::Trace
    }

    fn watch(&self) -> Option<&str> {
        match self {
            TraceCommand::Show(asked) => asked.task.options.watch,
            TraceCommand::Replay | TraceCommand::Migrate | TraceCommand::Shrink => None,
        }
    }
}
