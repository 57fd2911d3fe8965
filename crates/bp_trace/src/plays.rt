//! Playing the lines of attempts of a trace. Watching a replay: each attempt is made by a watcher,
//! which may look at the session before and after it.
ghost use Rattle.std.specs.Prelude.{◌≡◌, ◌<◌, ◌+◌, ◌^◌, ◌++◌, [], length, map, IfOk, IfErr, OnOk, ◌∷◌, List, MatchResult};
ghost use Rattle.std.specs.List.{AllByRecursion};
ghost use Rattle.bp_syntax.specs.Ast.{Program};
ghost use Rattle.bp_machine.specs.Sessions.{last_thread, Stands, AfterEach};
ghost use Rattle.bp_machine.specs.Setups.{threads, SetupOf};
ghost use Rattle.bp_machine.specs.declared.calls.Call.{Call as Answered};
ghost use Rattle.bp_trace.specs.Judgements.{ArePlayed, IsBody, IsBodyRefusal, IsLineRefused, Watches, WatchesAll};
ghost use Rattle.bp_trace.specs.Replays.{IsOwnCall, IsOwnRefusal};

use crate::drives::text_from;
use crate::errors::ReplayError;
use crate::judgements::{Played, judge};
use crate::trace_lines::body_line_at;
use crate::traces::Version;
use bp_machine::{AskError, Call, Session, Setup};
use std::alloc::{AllocError, Global};

/// The attempts of a trace, the number of bytes of their lines, and the number of the next line.
#[derive(Drop)]
pub(crate) struct Body<O: Watcher + Drop> {
    pub(crate) played: Played<O>,
    pub(crate) size: usize,
    pub(crate) line: u32,
}

fn last_thread(history: &[Call]) -> Option<u32>
    ensures { result ≡ last_thread (map (λ x. x.thread) history.now) }
{
    match history.last() {
        None => None,
        Some(call) => Some(call.thread),
    }
}

/// Judges the attempts of the `n`-th line of a trace, one after the other.
#[inline(always)]
fn judge_line<O: Watcher + Drop>(
    session: &mut Session,
    calls: &[Call],
    n: u32,
    played: &mut Played<O>,
) -> Result<(), ReplayError>
    requires threads { AllByRecursion (λ x. x.thread < threads session.old.setup) calls.now }
    requires played { ArePlayed session.old played.old }
    ensures played { OnOk result (ArePlayed session.new played.new) }
    ensures watched { let t = session.old.code.tree in
        OnOk result (Watches O.sees t session.old.setup played.old played.new) }
    ensures history { OnOk result
        (played.new.history.items ≡ played.old.history.items ++ calls.now) }
    ensures kept { (session.new.code ≡ session.old.code) × (session.new.setup ≡ session.old.setup) }
    ensures refused { let t = session.old.code.tree in IfErr result
        (IsLineRefused t session.old.setup played.old.history.items n calls.now
        played.new.history.items) }
{
    for call in calls {
        judge(session, call, n, played)?;
    }
    Ok(())
}

/// Plays the lines of attempts that begin the text, from line `first` on. The watcher has begun
/// with the setup. The attempts before a refused one are kept.
pub(crate) fn play<O: Watcher + Drop>(
    alloc: Global,
    session: &mut Session,
    setup: &Setup,
    version: Version,
    text: &[u8],
    first: u32,
    watcher: O,
    kept: &mut Vec<Call>,
) -> Result<Body<O>, ReplayError>
    requires stands { Stands session.old.code.tree session.old [] }
    requires setup { session.old.setup ≡ setup.now }
    requires lines { first + length text.now < 2 ^ 32 }
    ensures played { IfOk result (λ b. ArePlayed session.new b.played) }
    ensures watched { let t = session.old.code.tree in
        IfOk result (λ b. WatchesAll O.sees t setup.now watcher b.played) }
    ensures body { IfOk result (IsBody version setup.now text.now first) }
    ensures kept { (session.new.code ≡ session.old.code) × (session.new.setup ≡ setup.now) }
    ensures refused { let t = session.old.code.tree in
        IfErr result (IsBodyRefusal t version setup.now text.now first kept.new.items) }
{
    setup.is_in_range();
    let mut played = Played {
        history: Vec::new(alloc),
        printed: Vec::new(alloc),
        watcher,
    };
    let mut calls = Vec::new(alloc);
    let mut size = 0;
    let mut line = first;
    loop {
        let last = last_thread(played.history.as_slice());
        let rest = text_from(text, size);
        let found = body_line_at(version, setup.threads(), last, rest, &mut calls)?;
        let Some(more) = found else {
            return Ok(Body { played, size, line });
        };
        match judge_line(session, calls.as_slice(), line, &mut played) {
            Ok(()) => {}
            Err(error) => {
                *kept = played.history;
                return Err(error);
            }
        }
        size += more;
        line += 1;
    }
}

/// Observes a replay, whose attempts it makes.
pub trait Watcher {
    /// The observations of a history of a program under a setup, and the watcher at first.
    ghost sees: { Self → Self → Program → SetupOf → List Answered → Type 0 };

    /// Begins with the setup, before any attempt.
    fn begin(&mut self, setup: &Setup) -> Result<(), AllocError>
        ensures { (t : Program) → OnOk result (sees self.old self.new t setup.now []) };

    /// Makes the machine's own attempt for a recorded one: of its thread, and with its bit if the
    /// setup has no seed. May be refused memory of its own after the attempt was made.
    fn make(&mut self, session: &mut Session, recorded: &Call) -> Result<Call, AskError>
        ensures answer { AfterEach session.old (λ t h. MatchResult result
            (IsOwnCall t session.old.setup h recorded.now)
            (IsOwnRefusal t session.old.setup h recorded.now)) }
        ensures stands { AfterEach session.old (λ t h.
            IfOk result (λ own. Stands t session.new (h ++ own ∷ []))) }
        ensures kept { (session.new.code ≡ session.old.code)
            × (session.new.setup ≡ session.old.setup) }
        ensures sees { (first : Self) → AfterEach session.old (λ t h.
            sees first self.old t session.old.setup h
            → IfOk result (λ own. sees first self.new t session.old.setup (h ++ own ∷ []))) };
}

/// A watcher that only makes the attempts.
#[derive(Clone, Copy, Drop)]
pub struct Unwatched;

impl Watcher for Unwatched {
    ghost sees = { λ _ _ _ _ _. Unit {0} };

    fn begin(&mut self, _setup: &Setup) -> Result<(), AllocError> {
        Ok(())
    }

    // Inlined, so that the effects of an attempt stay in registers.
    #[inline(always)]
    fn make(&mut self, session: &mut Session, recorded: &Call) -> Result<Call, AskError> {
        session.ask_as_recorded(recorded.thread, recorded.bit)
    }
}
