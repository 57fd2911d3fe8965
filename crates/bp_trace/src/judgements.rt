//! Judging the attempts of a trace, one after the other.
ghost use Rattle.std.specs.Prelude.{◌≡◌, ◌<◌, ◌++◌, ◌∷◌, [], Some, IfOk, IfErr, OnOk, map};
ghost use Rattle.bp_machine.specs.Histories.{configuration_after};
ghost use Rattle.bp_machine.specs.Runs.{rows_of_call};
ghost use Rattle.bp_machine.specs.Setups.{threads};
ghost use Rattle.bp_machine.specs.Sessions.{Stands, AfterEach};
ghost use Rattle.bp_trace.specs.Replays.{row_of};
ghost use Rattle.bp_trace.specs.Judgements.{rows_of, replay_error_of, IsOwnAs, IsMismatch, IsCallRefusal};

use crate::errors::{Due, ReplayError};
use crate::plays::Watcher;
use bp_machine::{AskError, Call, Reply, Session};
use std::alloc::AllocError;

/// The output of a granted step at a `print`: its thread, and the values before the step.
#[derive(Drop)]
pub struct Printed {
    pub thread: u32,
    pub values: Vec<bool>,
}

/// The attempts of a trace so far, their printed values, and the watcher.
#[derive(Drop)]
pub(crate) struct Played<O: Watcher + Drop> {
    pub(crate) history: Vec<Call>,
    pub(crate) printed: Vec<Printed>,
    pub(crate) watcher: O,
}

/// Appends an attempt and its printed values.
fn keep<O: Watcher + Drop>(
    played: &mut Played<O>,
    call: Call,
    row: Option<Printed>,
) -> Result<(), AllocError>
    ensures history { OnOk result
        (played.new.history.items ≡ played.old.history.items ++ call ∷ []) }
    ensures printed { OnOk result
        (map row_of played.new.printed.items
        ≡ map row_of played.old.printed.items ++ rows_of row) }
    ensures watcher { OnOk result (played.new.watcher ≡ played.old.watcher) }
    ensures unkept { IfErr result (λ _. played.new.history.items ≡ played.old.history.items) }
{
    if let Some(row) = row {
        played.printed.push(row)?;
    }
    played.history.push(call)?;
    Ok(())
}

/// Returns the refusal of an attempt on the `n`-th line, after `made` attempts. Its thread exists.
fn replay_error_of(error: AskError, n: u32, made: u64) -> ReplayError
    ensures { result ≡ replay_error_of error n made }
{
    match error {
        AskError::Memory => ReplayError::Memory,
        _ => ReplayError::AfterFinish(n, made),
    }
}

/// Checks that the attempt on the `n`-th line, after `made` attempts, is the machine's own.
fn matched(own: &Call, call: &Call, n: u32, made: u64) -> Result<(), ReplayError>
    ensures own { OnOk result (IsOwnAs own.now call.now) }
    ensures other { IfErr result (IsMismatch own.now call.now n made) }
{
    let is_same_bit = own.bit == call.bit;
    if is_same_bit && own.reply == call.reply {
        return Ok(());
    }
    let due = Due {
        calls: made,
        call: *own,
    };
    if is_same_bit {
        Err(ReplayError::Reply(n, due))
    } else {
        Err(ReplayError::Bit(n, due))
    }
}

/// Returns the row that an attempt prints, if its step is granted and at a `print`.
#[inline(always)]
fn row_of_call(session: &Session, call: &Call) -> Result<Option<Printed>, AskError>
    ensures row { AfterEach session.now (λ t h. IfOk result (λ row.
        rows_of row ≡ rows_of_call (configuration_after t session.now.setup h) call.now)) }
    ensures memory { AfterEach session.now (λ t h. call.now.thread < threads session.now.setup
        → IfErr result (λ f. f ≡ AskError.Memory)) }
{
    if !matches!(call.reply, Reply::Stepped | Reply::Failed) || !session.is_at_print(call.thread) {
        return Ok(None);
    }
    let Some(values) = session.next_print(call.thread)? else {
        return Ok(None);
    };
    Ok(Some(Printed {
        thread: call.thread,
        values,
    }))
}

/// Judges an attempt on the `n`-th line of a trace, of an existing thread, and appends it.
#[inline(always)]
pub(crate) fn judge<O: Watcher + Drop>(
    session: &mut Session,
    call: &Call,
    n: u32,
    played: &mut Played<O>,
) -> Result<(), ReplayError>
    requires thread { call.now.thread < threads session.old.setup }
    ensures stands { AfterEach session.old (λ t h.
        OnOk result (Stands t session.new (h ++ call.now ∷ []))) }
    ensures history { OnOk result
        (played.new.history.items ≡ played.old.history.items ++ call.now ∷ []) }
    ensures printed { AfterEach session.old (λ t h.
        let rows = rows_of_call (configuration_after t session.old.setup h) call.now in
        OnOk result
        (map row_of played.new.printed.items ≡ map row_of played.old.printed.items ++ rows)) }
    ensures watched { (first : O) → AfterEach session.old (λ t h.
        O.sees first played.old.watcher t session.old.setup h
        → OnOk result (O.sees first played.new.watcher t session.old.setup (h ++ call.now ∷ []))) }
    ensures kept { (session.new.code ≡ session.old.code) × (session.new.setup ≡ session.old.setup) }
    ensures refused { AfterEach session.old (λ t h. h ≡ played.old.history.items
        → IfErr result (IsCallRefusal t session.old.setup h n call.now)) }
    ensures unkept { IfErr result (λ _. played.new.history.items ≡ played.old.history.items) }
{
    let made = played.history.len() as u64;
    let Ok(row) = row_of_call(session, call) else {
        return Err(ReplayError::Memory);
    };
    let own = match played.watcher.make(session, call) {
        Ok(own) => own,
        Err(error) => return Err(replay_error_of(error, n, made)),
    };
    matched(&own, call, n, made)?;
    keep(played, *call, row)?;
    Ok(())
}
