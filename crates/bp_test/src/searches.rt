//! The search for a smaller history.
ghost use Rattle.std.specs.Prelude.{◌≡◌, true, None, IfOk, OnOk};
ghost use Rattle.bp_machine.specs.Setups.{Fits};
ghost use Rattle.bp_test.specs.Shrinks.{EndsIn, IsNoMore, IsSearch, GoesOn};

use crate::candidates::{Candidates, Next};
use crate::changes::{Change, without_loops, write_changed};
use crate::shrinks::{HistoryEnd, drive_again, history_end, is_same};
use bp_machine::{Call, Report, Session};
use std::alloc::{AllocError, Global};

/// A history, and its report.
#[derive(Drop)]
pub(crate) struct Driven {
    pub(crate) history: Vec<Call>,
    pub(crate) report: Report,
}

/// The search for a smaller history.
#[derive(Drop)]
pub(crate) struct Search {
    /// A session, which is restarted for each candidate.
    pub(crate) session: Session,
    /// The end of each history that is taken.
    pub(crate) end: HistoryEnd,
    /// The smallest history so far.
    pub(crate) best: Driven,
    /// The candidate: attempts to be driven.
    pub(crate) lines: Vec<Call>,
    /// The history to which they were driven, unless it was taken: then the one before.
    pub(crate) spare: Driven,
    /// Whether the last candidate was taken.
    pub(crate) is_taken: bool,
}

/// Returns the number of choice bits of the history that are 1.
fn ones(history: &[Call]) -> usize {
    history.iter().filter(|call| call.bit).count()
}

/// Returns whether the new history has the same outcome by no more attempts and no more contexts,
/// and by fewer of either or by fewer choice bits that are 1.
fn is_better(new: &Driven, old: &Driven) -> bool
    ensures { result ≡ true → IsNoMore new.now old.now.report }
{
    if new.report.outcome != old.report.outcome {
        return false;
    }
    if new.report.calls > old.report.calls || new.report.contexts > old.report.contexts {
        return false;
    }
    new.report.calls < old.report.calls
        || new.report.contexts < old.report.contexts
        || ones(new.history.as_slice()) < ones(old.history.as_slice())
}

/// Returns whether the new history, at which the session stands, is better than the old one and has
/// this end.
fn is_wanted(
    alloc: Global,
    session: &Session,
    end: &HistoryEnd,
    new: &Driven,
    old: &Driven,
) -> Result<bool, AllocError>
    ensures no_more { IfOk result (λ is. is ≡ true → IsNoMore new.now old.now.report) }
    ensures end { IfOk result (λ is. is ≡ true → EndsIn session.now end.now) }
{
    if !is_better(new, old) {
        return Ok(false);
    }
    let own = history_end(alloc, session)?;
    Ok(is_same(&own, end))
}

/// Drives the candidate, and takes the resulting history if it is wanted.
fn drive_candidate(search: &mut Search) -> Result<(), AllocError>
    requires { IsSearch search.old }
    ensures { OnOk result (GoesOn search.old search.new) }
{
    let alloc = *search.lines.allocator();
    let lines = search.lines.as_slice();
    drive_again(&mut search.session, &mut search.spare.history, lines)?;
    search.spare.report = search.session.report();
    let (session, end) = (&search.session, &search.end);
    search.is_taken = is_wanted(alloc, session, end, &search.spare, &search.best)?;
    if search.is_taken {
        std::mem::swap(&mut search.best, &mut search.spare);
    }
    Ok(())
}

/// Writes the attempts of a history after a change. For some changes the session drives it again.
fn write_candidate(
    session: &mut Session,
    history: &[Call],
    change: Change,
    lines: &mut Vec<Call>,
) -> Result<(), AllocError>
    requires fits { Fits session.old.code.tree session.old.setup }
    requires unseeded { session.old.setup.seed ≡ None }
    ensures { OnOk result
        ((session.new.code ≡ session.old.code) × (session.new.setup ≡ session.old.setup)) }
{
    if change == Change::Loops {
        return without_loops(session, history, lines);
    }
    write_changed(history, change, lines)
}

/// Tries the next candidate, if it is a change.
fn attempt(search: &mut Search, candidates: &mut Candidates, next: Next) -> Result<(), AllocError>
    requires { IsSearch search.old }
    ensures { OnOk result (GoesOn search.old search.new) }
{
    let Next::Try(change) = next else {
        return Ok(());
    };
    let best = search.best.history.as_slice();
    write_candidate(&mut search.session, best, change, &mut search.lines)?;
    drive_candidate(search)?;
    candidates.tell(search.is_taken);
    Ok(())
}

/// Tries changes of the best history, until none makes it smaller or the work is done.
pub(crate) fn improve(search: Search) -> Result<Search, AllocError>
    requires { IsSearch search }
    ensures { IfOk result (GoesOn search) }
{
    let mut search = search;
    let mut candidates = Candidates::new(search.best.history.len());
    for _ in 0..u64::MAX {
        let next = candidates.next(search.best.history.as_slice());
        if next == Next::Done {
            return Ok(search);
        }
        attempt(&mut search, &mut candidates, next)?;
    }
    Ok(search)
}
