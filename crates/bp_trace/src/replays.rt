//! Replaying a trace: a text is the trace of a legal history, or is refused at its first mistake.
//! Migrating a trace to version 2. The accepted attempts of a text that as a whole is not a trace.
ghost use Rattle.std.specs.Prelude.{◌≡◌, [], IfOk, None, MatchResult, MatchOption};
ghost use Rattle.bp_machine.specs.Sessions.{Stands};
ghost use Rattle.bp_machine.specs.Setups.{setup_error, IsSetupRefusal};
ghost use Rattle.bp_trace.specs.Replays.{HasNoCalls, IsReplayed, IsWatched, IsReplayRefusal, IsMigrated, IsMigrateRefusal, IsAcceptedTrace, IsSomeTrace};
ghost use Rattle.bp_trace.specs.Readings.{setup_of_head};
ghost use Rattle.bp_trace.specs.Judgements.{replay_error_of_setup, ArePlayed, FitsText, IsOpened, IsPlayedTrace, IsRefusedOpened, WatchesAll};

use crate::drives::text_from;
use crate::end_lines::judge_end;
use crate::errors::{MigrateError, ReplayError};
use crate::heads::{Head, read_head};
use crate::judgements::{Played, Printed};
use crate::limits::MAX_TRACE;
use crate::plays::{Unwatched, Watcher, play};
use crate::traces::{Version, write_with_live_threads};
use bp_flat::Code;
use bp_machine::{Call, Report, Session, Setup, SetupError, live_threads};
use std::alloc::Global;
use std::io::Write;

/// A trace that was replayed: its setup and history, the values that its steps printed, and its
/// report.
#[derive(Drop)]
pub struct Replayed {
    pub setup: Setup,
    /// The attempts, oldest first.
    pub history: Vec<Call>,
    /// A row for each granted step at a `print`, oldest first.
    pub printed: Vec<Printed>,
    pub report: Report,
}

/// Returns the refusal of a trace whose setup is refused.
fn replay_error_of_setup(error: SetupError) -> ReplayError
    ensures { result ≡ replay_error_of_setup error }
{
    match error {
        SetupError::Memory => ReplayError::Memory,
        _ => ReplayError::Setup(error),
    }
}

/// A trace that was replayed, the session after its history, and the watcher.
#[derive(Drop)]
pub struct Watched<O: Watcher + Drop> {
    pub replayed: Replayed,
    pub session: Session,
    pub watcher: O,
}

/// The head of a trace: the version, the setup, and the numbers of its bytes and lines.
#[derive(Drop)]
pub(crate) struct Opened {
    pub(crate) version: Version,
    pub(crate) setup: Setup,
    pub(crate) size: usize,
    pub(crate) lines: u32,
}

/// Makes the setup of the head of a trace.
fn setup_of_head(alloc: Global, code: &Code, head: &Head<'_>) -> Result<Setup, SetupError>
    ensures { let t = code.now.tree in MatchResult result
        (λ s. (s ≡ setup_of_head head.now) × (setup_error t s ≡ None))
        (IsSetupRefusal t (setup_of_head head.now)) }
{
    Setup::from_names(
        alloc,
        code,
        head.entries.as_slice(),
        head.init.as_slice(),
        head.contexts,
        head.calls,
        head.seed,
    )
}

/// Reads the head of a trace, of a setup that the program accepts.
pub(crate) fn open(alloc: Global, code: &Code, text: &[u8]) -> Result<Opened, ReplayError>
    ensures fits { IfOk result (FitsText text.now) }
    ensures judged { let t = code.now.tree in MatchResult result
        (λ o. IsOpened text.now o × (setup_error t o.setup ≡ None))
        (λ f. IsReplayRefusal t text.now f × HasNoCalls f) }
{
    if text.len() > MAX_TRACE {
        return Err(ReplayError::TooLong);
    }
    let head = read_head(alloc, text)?;
    match setup_of_head(alloc, code, &head) {
        Ok(setup) => Ok(Opened {
            version: head.version,
            setup,
            size: head.size,
            lines: head.lines,
        }),
        Err(error) => Err(replay_error_of_setup(error)),
    }
}

/// Plays the rest of a trace after its head, and judges its end. The attempts before a refusal are
/// kept.
pub(crate) fn play_opened<O: Watcher + Drop>(
    alloc: Global,
    session: &mut Session,
    opened: &Opened,
    text: &[u8],
    watcher: O,
    kept: &mut Vec<Call>,
) -> Result<(Played<O>, Report), ReplayError>
    requires fits { FitsText text.now opened.now }
    requires stands { Stands session.old.code.tree session.old [] }
    requires setup { session.old.setup ≡ opened.now.setup }
    ensures played { IfOk result (λ p. ArePlayed session.new p.0) }
    ensures watched { let t = session.old.code.tree in
        IfOk result (λ p. WatchesAll O.sees t opened.now.setup watcher p.0) }
    ensures kept { (session.new.code ≡ session.old.code) × (session.new.setup ≡ opened.now.setup) }
    ensures judged { let t = session.old.code.tree in IsOpened text.now opened.now
        → setup_error t opened.now.setup ≡ None
        → MatchResult result
        (λ p. IsPlayedTrace t text.now opened.now p.0.history.items p.1)
        (IsRefusedOpened t text.now opened.now kept.new.items) }
{
    let rest = text_from(text, opened.size);
    let (setup, version, first) = (&opened.setup, opened.version, opened.lines + 1);
    let body = play(alloc, session, setup, version, rest, first, watcher, kept)?;
    let report = session.report();
    let end = text_from(rest, body.size);
    match judge_end(end, report.calls, report.left_live, body.line) {
        Ok(()) => Ok((body.played, report)),
        Err(error) => {
            *kept = body.played.history;
            Err(error)
        }
    }
}

/// Replays a text without threads: it is the trace of a legal history of the program, in either
/// version, or it is refused at its first mistake. The watcher makes the attempts.
pub fn replay_watched<O: Watcher + Drop>(
    alloc: Global,
    code: &Code,
    text: &[u8],
    watcher: O,
) -> Result<Watched<O>, ReplayError>
    ensures { let t = code.now.tree in MatchResult result
        (IsWatched (O.sees watcher) t text.now)
        (IsReplayRefusal t text.now) }
{
    let opened = open(alloc, code, text)?;
    let mut watcher = watcher;
    watcher.begin(&opened.setup)?;
    let mut session = Session::new(alloc, code, &opened.setup)?;
    let mut kept = Vec::new(alloc);
    let (played, report) = play_opened(alloc, &mut session, &opened, text, watcher, &mut kept)?;
    Ok(Watched {
        replayed: Replayed {
            setup: opened.setup,
            history: played.history,
            printed: played.printed,
            report,
        },
        session,
        watcher: played.watcher,
    })
}

/// Replays a text without threads: it is the trace of a legal history of the program, in either
/// version, or it is refused at its first mistake.
pub fn replay(alloc: Global, code: &Code, text: &[u8]) -> Result<Replayed, ReplayError>
    ensures { let t = code.now.tree in
        MatchResult result (IsReplayed t text.now) (IsReplayRefusal t text.now) }
{
    Ok(replay_watched(alloc, code, text, Unwatched)?.replayed)
}

/// Writes the trace of version 2 of the setup and history whose trace, in either version, is given.
/// At a refusal nothing is written, unless the writer refuses: it then has a proper prefix of the
/// trace.
pub fn migrate<W: Write>(
    alloc: Global,
    code: &Code,
    text: &[u8],
    out: &mut W,
) -> Result<Report, MigrateError>
    ensures { let t = code.now.tree in MatchResult result
        (IsMigrated t text.now (W.contents out.old) (W.contents out.new))
        (IsMigrateRefusal t text.now (W.contents out.old) (W.contents out.new)) }
{
    let replayed = replay(alloc, code, text)?;
    let report = replayed.report;
    write_with_live_threads(
        Version::Two,
        &replayed.setup,
        replayed.history.as_slice(),
        report.left_live,
        out,
    )?;
    Ok(report)
}

/// The trace of the accepted attempts of a text, and the refusal after them.
#[derive(Drop)]
pub struct AcceptedTrace {
    pub trace: Vec<u8>,
    /// The number of these attempts.
    pub calls: u64,
    pub error: ReplayError,
}

/// Returns the trace of the longest accepted beginning of the attempts of a text, if an attempt, a
/// line after the head or the end is refused. Returns None if the text is a trace itself. Refuses a
/// text without the head of a setup that the program accepts.
pub fn accepted_trace(
    alloc: Global,
    code: &Code,
    text: &[u8],
) -> Result<Option<AcceptedTrace>, ReplayError>
    ensures { let t = code.now.tree in MatchResult result
        (λ o. MatchOption o (IsSomeTrace t text.now) (IsAcceptedTrace t text.now))
        (λ f. IsReplayRefusal t text.now f × HasNoCalls f) }
{
    let opened = open(alloc, code, text)?;
    let mut session = Session::new(alloc, code, &opened.setup)?;
    let mut kept = Vec::new(alloc);
    let error = match play_opened(alloc, &mut session, &opened, text, Unwatched, &mut kept) {
        Ok(_) => return Ok(None),
        Err(ReplayError::Memory) => return Err(ReplayError::Memory),
        Err(error) => error,
    };
    let (setup, history) = (&opened.setup, kept.as_slice());
    let left_live = live_threads(setup, history);
    let mut trace = Vec::new(alloc);
    let done = write_with_live_threads(opened.version, setup, history, left_live, &mut trace);
    if done.is_err() {
        return Err(ReplayError::Memory);
    }
    let calls = history.len() as u64;
    Ok(Some(AcceptedTrace {
        trace,
        calls,
        error,
    }))
}
