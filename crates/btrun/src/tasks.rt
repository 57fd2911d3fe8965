//! Carries out tasks, over any files and streams.
ghost use Rattle.std.specs.Io.Buffered.{writer_contents};
ghost use Rattle.std.specs.Prelude.{◌≡◌, is_some};
ghost use Rattle.bp_commands.specs.Jobs.{held, IsRun};
ghost use Rattle.btrun.specs.Tasks.{job_of};

use bp_commands::{
    Explore, Files, Io, Run, RunEnd, Screen, Show, Streams, Test, TraceCommand, run_by_workers,
    run_on_bundle, run_on_pair, run_on_program,
};
use bp_explore::Watcher;
use bp_run::RandomTurns;
use bp_source::{RunTask, Task};
use bp_test::Progress;
use std::alloc::Global;
use std::io::{BufWriter, Read, Write};
use std::sync::Wait;
use std::thread::Threads;
use std::time::Clock;

/// The environment of a task: the memory, the files, the starter of threads, and the streams.
#[derive(Clone, Copy)]
pub struct Host<'a, F, T, P> {
    pub alloc: Global,
    pub files: &'a F,
    pub threads: &'a T,
    /// The clock.
    pub clock: &'a HostRuntime,
    /// Is told the progress of a test or an exploration.
    pub progress: &'a P,
    /// The form of lines on standard output.
    pub screen: Screen,
    /// Whether errors are explained if no option says so, as on a terminal.
    pub on_terminal: bool,
}

/// Returns the gate that draws the thread of each turn, if that is asked for.
fn gate_of(task: &RunTask<'_>) -> Option<RandomTurns>
    ensures { is_some result ≡ task.now.spread }
{
    if task.spread {
        let options = &task.options;
        Some(RandomTurns::new(options.seed, options.start.entries.len()))
    } else {
        None
    }
}

/// Carries out a task, and returns how it ends and the streams.
pub fn carry_out<
    F: Files,
    T: Threads + Wait + Clock + Sync,
    P: Progress + Watcher,
    R: Read + Drop,
    W: Write + Drop,
    E: Write + Drop,
>(
    host: Host<'_, F, T, P>,
    input: R,
    task: &Task<'_>,
    streams: Streams<BufWriter<W>, E>,
) -> (RunEnd, Streams<W, E>)
    ensures { let before =
        held (writer_contents W.contents streams.output) (E.contents streams.errors) in
        let after = held (W.contents result.1.output) (E.contents result.1.errors) in
        let job = job_of (F.bytes host.entry.files.now)
        host.entry.screen host.entry.on_terminal (R.remaining input) task.now in
        IsRun job before after result.0 }
{
    let io = Io {
        alloc: host.alloc,
        files: host.files,
        format: task.error_format(host.on_terminal),
    };
    match task {
        Task::Bundle => run_on_bundle(host.alloc, io.format, input, streams),
        Task::Check(task) => run_on_program(io, task, task.program, streams),
        Task::Code(task) => run_on_program(io, task, task.program, streams),
        Task::Drive(task) => run_on_pair(io, task, task.program, task.schedule, streams),
        Task::Confirm(task) => run_on_pair(io, task, task.program, task.steps, streams),
        Task::Run(task) => {
            let (threads, gate) = (host.threads, &gate_of(task));
            let run = Run {
                threads,
                gate,
                task,
            };
            run_by_workers(io, &run, task.program, streams)
        }
        Task::Test(task) => {
            let test = Test {
                threads: host.threads,
                clock: host.clock,
                progress: host.progress,
                task,
            };
            run_on_program(io, &test, task.program, streams)
        }
        Task::Explore(task) => {
            let watcher = host.progress;
            let explore = Explore { task, watcher };
            match task.through {
                Some(steps) => run_on_pair(io, &explore, task.program, steps, streams),
                None => run_on_program(io, &explore, task.program, streams),
            }
        }
        Task::Replay(task) => {
            run_on_pair(io, &TraceCommand::Replay, task.program, task.trace, streams)
        }
        Task::Show(task) => {
            let screen = host.screen;
            let show = TraceCommand::Show(Show { task, screen });
            run_on_pair(io, &show, task.program, task.trace, streams)
        }
        Task::Migrate(task) => {
            run_on_pair(
                io,
                &TraceCommand::Migrate,
                task.program,
                task.trace,
                streams,
            )
        }
        Task::Shrink(task) => {
            run_on_pair(io, &TraceCommand::Shrink, task.program, task.trace, streams)
        }
    }
}
