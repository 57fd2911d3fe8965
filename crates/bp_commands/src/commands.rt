//! Commands on given inputs, and on inputs that they read.
ghost use Rattle.std.specs.Prelude.{◌≡◌, List, ℕ};
ghost use Rattle.bp_commands.specs.Commands.{Answers, AnswersOf, Command, limit_of, text_alone, text_and, Pair};
ghost use Rattle.bp_commands.specs.declared.explanations.SecondInput.{SecondInput};
ghost use Rattle.bp_commands.specs.ErrorReports.{AreReadOr};

use crate::error_contexts::OptionNumbers;
use crate::explanations::SecondInput;
use crate::inputs::{Source, read_pair, read_text};
use crate::run_ends::CommandAnswer;
use bp_messages::Error;
use bp_source::NamedStart;
use std::alloc::Global;
use std::io::{Read, Write};

/// A command on a program.
pub trait ProgramCommand {
    /// Its report after it is done.
    type Answer: CommandAnswer + Drop;

    ghost command: { Self → Command (List ℕ) Self.Answer };

    ghost allowed: { Self → Type 0 };

    /// Does the command on the text of a program.
    fn apply<W: Write>(
        &self,
        alloc: Global,
        text: &[u8],
        out: &mut W,
    ) -> Result<Self::Answer, Error>
        requires { allowed self.now }
        ensures { AnswersOf (command self.now) text.now
            (W.contents out.old) (W.contents out.new) result };

    /// Returns the start of the runs of the program, if it is run.
    fn named_start(&self) -> Option<NamedStart<'_>> {
        None
    }

    /// Returns the numbers among its options that have a range, apart from those of its start.
    fn numbers(&self) -> OptionNumbers {
        OptionNumbers::NONE
    }
}

/// A command on a program and a second input.
pub trait PairCommand {
    /// Its report after it is done.
    type Answer: CommandAnswer + Drop;

    ghost command: { Self → Command Pair Self.Answer };

    ghost second_input: { Self → SecondInput };

    /// Does the command on the text of a program and the second input.
    fn apply<W: Write>(
        &self,
        alloc: Global,
        text: &[u8],
        input: &[u8],
        out: &mut W,
    ) -> Result<Self::Answer, Error>
        ensures { let given : Pair = record { text = text.now; input = input.now } in
            AnswersOf (command self.now) given (W.contents out.old) (W.contents out.new) result };

    /// Returns the kind of the second input.
    fn second_input(&self) -> SecondInput
        ensures { result ≡ second_input self.now };

    /// Returns the start of the run, unless the input has it.
    fn named_start(&self) -> Option<NamedStart<'_>> {
        None
    }

    /// Returns the names of watched variables, with commas between them.
    fn watch(&self) -> Option<&str> {
        None
    }
}

/// Reads a program text, and does a command on it. Reads at most 65,537 bytes.
pub fn do_on_program<C: ProgramCommand, R: Read, W: Write>(
    alloc: Global,
    command: &C,
    program: &mut Source<R>,
    out: &mut W,
) -> Result<C::Answer, Error>
    requires { C.allowed command.now }
    ensures answers { let inputs = text_alone
        (R.remaining program.old.reader) (R.remaining program.new.reader) in
        Answers (C.command command.now) inputs (W.contents out.old) (W.contents out.new) result }
    ensures holds { let inputs = text_alone
        (R.remaining program.old.reader) (R.remaining program.new.reader) in
        AreReadOr inputs program.new.bytes.items result }
{
    read_text(alloc, program)?;
    command.apply(alloc, &program.bytes, out)
}

/// Reads a program text, and then the second input, and does a command on both. Reads at most one
/// byte more than its limit of each.
pub fn do_on_pair<C: PairCommand, R: Read, S: Read, W: Write>(
    alloc: Global,
    command: &C,
    program: &mut Source<R>,
    input: &mut Source<S>,
    out: &mut W,
) -> Result<C::Answer, Error>
    ensures answers { let inputs = text_and (limit_of (C.second_input command.now))
        (R.remaining program.old.reader) (R.remaining program.new.reader)
        (S.remaining input.old.reader) (S.remaining input.new.reader) in
        Answers (C.command command.now) inputs (W.contents out.old) (W.contents out.new) result }
    ensures holds { let inputs = text_and (limit_of (C.second_input command.now))
        (R.remaining program.old.reader) (R.remaining program.new.reader)
        (S.remaining input.old.reader) (S.remaining input.new.reader) in
        let given : Pair = record {
          text = program.new.bytes.items;
          input = input.new.bytes.items;
        } in
        AreReadOr inputs given result }
{
    read_pair(alloc, command.second_input().limit(), program, input)?;
    command.apply(alloc, &program.bytes, &input.bytes, out)
}
