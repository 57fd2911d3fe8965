//! Runs of the commands, from the paths of their files to the exit status.
ghost use Rattle.std.specs.Io.Buffered.{writer_contents};
ghost use Rattle.bp_commands.specs.Commands.{limit_of};
ghost use Rattle.bp_commands.specs.ErrorReports.{of_run, IsObjectIn, IsSaid};
ghost use Rattle.bp_commands.specs.Jobs.{held, on_bundle, on_file, on_files, IsFinished, IsRun};
ghost use Rattle.bp_commands.specs.Runs.{runs};

use crate::commands::{PairCommand, ProgramCommand, do_on_pair, do_on_program};
use crate::drives::{drive_bundle, parts};
use crate::error_contexts::{ErrorContext, Limited, OptionNumbers};
use crate::error_reports::{NamedPair, ReadBundle, Texts, conclude};
use crate::explanations::NamedText;
use crate::inputs::{FailedFile, Files, InputFile, Source};
use crate::limits::MAX_BUNDLE;
use crate::run_ends::{CommandAnswer, RunEnd, flushed};
use crate::worker_runs::{Run, run_program};
use bp_messages::Error;
use bp_run::Gate;
use bp_source::{ErrorFormat, NamedStart};
use std::alloc::Global;
use std::io::{BufWriter, Read, Write};
use std::sync::Wait;
use std::thread::Threads;
use std::time::Clock;

/// The environment of a command: this memory, these files, and this form of errors.
#[derive(Clone, Copy)]
pub struct Io<'a, F> {
    pub alloc: Global,
    pub files: &'a F,
    pub format: ErrorFormat,
}

/// Standard output and standard error.
#[derive(Drop)]
pub struct Streams<O: Write + Drop, E: Write + Drop> {
    pub output: O,
    pub errors: E,
}

/// Flushes the output after a command's result, and ends the run by it.
fn finish<G: Texts, T: CommandAnswer + Drop, W: Write + Drop, E: Write + Drop>(
    alloc: Global,
    format: ErrorFormat,
    given: &G,
    done: Result<T, Error>,
    context: ErrorContext<'_, '_>,
    streams: Streams<BufWriter<W>, E>,
) -> (RunEnd, Streams<W, E>)
    ensures { let before =
        held (writer_contents W.contents streams.output) (E.contents streams.errors) in
        let after = held (W.contents result.1.output) (E.contents result.1.errors) in
        let IsObject =
        IsObjectIn (G.is_in given.now) (G.given given.now) (G.explains given.now) in
        let Explains = G.explains given.now in
        IsFinished T.rule format IsObject (λ f. IsSaid (Explains f)) done before after result.0 }
{
    let Streams { output, mut errors } = streams;
    let (done, output) = flushed(done, output);
    let end = conclude(alloc, format, given, &done, context, &mut errors);
    (end, Streams { output, errors })
}

/// Returns the known facts of the command line of a run on a program alone.
fn context_of<'a>(
    program: NamedText<'a>,
    unread: Option<FailedFile<'a>>,
    numbers: OptionNumbers,
    start: Option<NamedStart<'a>>,
) -> ErrorContext<'a, 'a> {
    ErrorContext {
        unread,
        numbers,
        text: program.text,
        start,
        watch: None,
        program: program.name,
        input: None,
        is_bundle: false,
    }
}

/// Does a command on the program of a file, and returns how it ends and the streams.
pub fn run_on_program<'a, C: ProgramCommand, F: Files, W: Write + Drop, E: Write + Drop>(
    io: Io<'a, F>,
    command: &'a C,
    path: &'a str,
    mut streams: Streams<BufWriter<W>, E>,
) -> (RunEnd, Streams<W, E>)
    requires { C.allowed command.now }
    ensures { let before =
        held (writer_contents W.contents streams.output) (E.contents streams.errors) in
        let after = held (W.contents result.1.output) (E.contents result.1.errors) in
        let job = on_file (F.bytes io.entry.files.now) io.entry.format (C.command command.now)
        C.Answer.rule path.now in
        IsRun job before after result.0 }
{
    let mut program = InputFile::source(io.alloc, io.files, path);
    let done = do_on_program(io.alloc, command, &mut program, &mut streams.output);
    let given = NamedText {
        name: path,
        text: &program.bytes,
    };
    let unread = program.reader.unread;
    let context = context_of(given, unread, command.numbers(), command.named_start());
    finish(io.alloc, io.format, &given, done, context, streams)
}

/// Runs the program of a file by real workers, and returns how it ends and the streams.
pub fn run_by_workers<
    'a,
    F: Files,
    T: Threads + Wait + Clock + Sync,
    G: Gate,
    W: Write + Drop,
    E: Write + Drop,
>(
    io: Io<'a, F>,
    asked: &Run<'a, T, G>,
    path: &'a str,
    mut streams: Streams<BufWriter<W>, E>,
) -> (RunEnd, Streams<W, E>)
    ensures { let before =
        held (writer_contents W.contents streams.output) (E.contents streams.errors) in
        let after = held (W.contents result.1.output) (E.contents result.1.errors) in
        let task = asked.now.task.now in
        let job = on_file (F.bytes io.entry.files.now) io.entry.format
        (runs task.options task.named) of_run path.now in
        IsRun job before after result.0 }
{
    let mut program = InputFile::source(io.alloc, io.files, path);
    let done = run_program(io.alloc, asked, &mut program, &mut streams.output);
    let given = NamedText {
        name: path,
        text: &program.bytes,
    };
    let unread = program.reader.unread;
    let (options, named) = (&asked.task.options, &asked.task.named);
    let start = &options.start;
    let start = Some(NamedStart { start, named });
    let context = context_of(given, unread, OptionNumbers::of_run(options), start);
    finish(io.alloc, io.format, &given, done, context, streams)
}

/// Does a command on the program of a file and the input of another file, and returns how it ends
/// and the streams.
pub fn run_on_pair<'a, C: PairCommand, F: Files, W: Write + Drop, E: Write + Drop>(
    io: Io<'a, F>,
    command: &'a C,
    path: &'a str,
    input_path: &'a str,
    mut streams: Streams<BufWriter<W>, E>,
) -> (RunEnd, Streams<W, E>)
    ensures { let before =
        held (writer_contents W.contents streams.output) (E.contents streams.errors) in
        let after = held (W.contents result.1.output) (E.contents result.1.errors) in
        let job = on_files (F.bytes io.entry.files.now) io.entry.format (C.command command.now)
        C.Answer.rule (limit_of (C.second_input command.now)) (C.second_input command.now)
        path.now input_path.now in
        IsRun job before after result.0 }
{
    let mut program = InputFile::source(io.alloc, io.files, path);
    let mut input = InputFile::source(io.alloc, io.files, input_path);
    let done = do_on_pair(
        io.alloc,
        command,
        &mut program,
        &mut input,
        &mut streams.output,
    );
    let unread = program.reader.unread.or(input.reader.unread);
    let given = NamedPair {
        program: NamedText {
            name: path,
            text: &program.bytes,
        },
        input: NamedText {
            name: input_path,
            text: &input.bytes,
        },
        second_input: command.second_input(),
        start: command.named_start(),
    };
    let context = ErrorContext {
        unread,
        numbers: OptionNumbers::NONE,
        text: given.program.text,
        start: given.start,
        watch: command.watch(),
        program: path,
        input: Some(Limited {
            name: input_path,
            limit: command.second_input().limit(),
        }),
        is_bundle: false,
    };
    finish(io.alloc, io.format, &given, done, context, streams)
}

/// The name of the input of a bundle in a sentence.
const STANDARD_INPUT: &str = "standard input";

/// Drives the bundle of a reader, with a refusal in this format, and returns how it ends and the
/// streams.
pub fn run_on_bundle<R: Read + Drop, W: Write + Drop, E: Write + Drop>(
    alloc: Global,
    format: ErrorFormat,
    reader: R,
    mut streams: Streams<BufWriter<W>, E>,
) -> (RunEnd, Streams<W, E>)
    ensures { let before =
        held (writer_contents W.contents streams.output) (E.contents streams.errors) in
        let after = held (W.contents result.1.output) (E.contents result.1.errors) in
        IsRun (on_bundle format (R.remaining reader)) before after result.0 }
{
    let mut bundle = Source::new(alloc, reader);
    let done = drive_bundle(alloc, &mut bundle, &mut streams.output);
    let given = ReadBundle {
        bytes: &bundle.bytes,
    };
    let context = ErrorContext {
        unread: None,
        numbers: OptionNumbers::NONE,
        text: parts(given.bytes).0,
        start: None,
        watch: None,
        program: STANDARD_INPUT,
        input: Some(Limited {
            name: STANDARD_INPUT,
            limit: MAX_BUNDLE,
        }),
        is_bundle: true,
    };
    finish(alloc, format, &given, done, context, streams)
}
