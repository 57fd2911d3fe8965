//! The first line of a thread or a variable that is not declared.
//! The bound of contexts of the trace that is written.
ghost use Rattle.std.specs.Prelude.{◌≡◌, ◌<◌, ◌^◌, length, IsTrue, MatchOption, MatchResult, ◌≤◌, map, IfOk};
ghost use Rattle.bp_machine.specs.Setups.{threads};
ghost use Rattle.bp_machine.specs.declared.limits.TheConstants.{MAX_CONTEXTS};
ghost use Rattle.bp_machine.specs.Histories.{IsLeastWithin};
ghost use Rattle.bp_machine.specs.Sessions.{contexts_opened};
ghost use Rattle.bp_source.specs.Names.{declares};
ghost use Rattle.bp_confirm.specs.ConfirmedTexts.{AreDeclared, AreDeclaredLines, IsFirstUndeclared, AreKnown, IsUndeclared, contexts_allowed, thread_of, IsSetupFor};
ghost use Rattle.bp_confirm.specs.KeptLines.{kept_lines};
ghost use Rattle.bp_confirm.specs.LineReadings.{values_in, SaysValues};

use crate::fields::value_at;
use crate::kept_lines::{KeptLine, StepLines};
use bp_code::Checked;
use bp_flat::Code;
use bp_machine::limits::MAX_CONTEXTS;
use bp_machine::{Setup, SetupError};
use bp_source::{ContextBound, declares};
use std::alloc::{AllocError, Global};

/// The undeclared name on a line.
#[derive(Clone, Copy)]
pub(crate) enum Undeclared {
    Thread(u32),
    /// The value of this index on the line, from 0.
    Variable(usize),
}

/// Returns whether a text says which variable is meant. Such texts are kept in ascending order, so
/// that each is looked up in the program once.
fn is_declared<'a>(checked: &Checked, known: &mut Vec<&'a [u8]>, text: &'a [u8]) -> bool
    requires { AreKnown checked.now known.old.items }
    ensures is { result ≡ declares checked.now text.now }
    ensures known { AreKnown checked.now known.new.items }
{
    let place = known.partition_point(|other| *other < text);
    match known.get(place) {
        Some(other) if *other == text => return true,
        _ => {}
    }
    if !declares(checked, text) {
        return false;
    }
    // If memory is refused the text is looked up again.
    let _ = known.insert(place, text);
    true
}

/// Returns the index, from 0, of the first of the values of a text that is of no variable.
fn undeclared_value<'a>(
    checked: &Checked,
    known: &mut Vec<&'a [u8]>,
    values: &'a [u8],
) -> Option<usize>
    requires values { SaysValues values.now }
    requires known { AreKnown checked.now known.old.items }
    ensures first { MatchOption result
        (AreDeclared checked.now (values_in values.now))
        (IsFirstUndeclared checked.now (values_in values.now)) }
    ensures known { AreKnown checked.now known.new.items }
{
    let mut rest = values;
    let mut n: usize = 0;
    while let Some((value, more)) = value_at(rest) {
        if !is_declared(checked, known, value.name) {
            return Some(n);
        }
        rest = more;
        n += 1;
    }
    None
}

/// Returns whether each kept line is of a thread of the setup and of variables of the program.
fn are_declared<'a>(
    checked: &Checked,
    setup: &Setup,
    known: &mut Vec<&'a [u8]>,
    kept: &[KeptLine<'a>],
) -> bool
    requires { AreKnown checked.now known.old.items }
    ensures lines { IsTrue result → AreDeclaredLines checked.now setup.now (kept_lines kept.now) }
    ensures known { AreKnown checked.now known.new.items }
{
    for line in kept {
        if line.line.thread >= setup.threads() {
            return false;
        }
        if undeclared_value(checked, known, line.line.values).is_some() {
            return false;
        }
    }
    true
}

/// Refuses the first line of a thread that the setup does not have, or of a variable that the
/// program does not declare.
pub(crate) fn check_lines(
    alloc: Global,
    checked: &Checked,
    setup: &Setup,
    lines: &StepLines<'_>,
) -> Result<(), (u32, Undeclared)>
    requires { length lines.now < 2 ^ 32 }
    ensures { MatchResult result
        (λ _. AreDeclaredLines checked.now setup.now lines.now)
        (λ p. IsUndeclared checked.now setup.now lines.now p.0 p.1) }
{
    let mut known = Vec::new(alloc);
    if are_declared(checked, setup, &mut known, lines.kept.as_slice()) {
        return Ok(());
    }
    let mut n = 0;
    while n < lines.len() {
        let line = lines.at(n);
        if line.thread >= setup.threads() {
            return Err((n as u32 + 1, Undeclared::Thread(line.thread)));
        }
        if let Some(value) = undeclared_value(checked, &mut known, line.values) {
            return Err((n as u32 + 1, Undeclared::Variable(value)));
        }
        n += 1;
    }
    Ok(())
}

/// Returns the number of contexts that a step of a thread opens after one of the last thread.
fn opened(last: Option<u32>, thread: u32) -> usize
    ensures { result ≡ contexts_opened last thread }
{
    match last {
        None => 1,
        Some(last) => if last == thread { 0 } else { 1 },
    }
}

/// Returns the number of contexts that the steps of these lines use.
fn contexts_used(lines: &StepLines) -> usize
    ensures { IsLeastWithin result (map thread_of lines.now) }
{
    let mut used = 0;
    let mut last = None;
    let mut n = 0;
    while n < lines.len() {
        let line = lines.at(n);
        used += opened(last, line.thread);
        last = Some(line.thread);
        n += 1;
    }
    used
}

/// Returns as many contexts as can be allowed.
fn contexts_allowed(used: usize) -> u32
    ensures { result ≡ contexts_allowed used }
{
    if used > MAX_CONTEXTS as usize {
        return MAX_CONTEXTS;
    }
    used as u32
}

/// Returns the names of the entries of a setup.
fn entries_of<'a>(alloc: Global, setup: &'a Setup) -> Result<Vec<&'a [u8]>, AllocError>
    ensures { IfOk result (λ v. map (λ n. n.now) v.items ≡ setup.now.entries) }
{
    setup.is_in_range();
    let mut names = Vec::new(alloc);
    let mut thread = 0;
    while let Some(name) = setup.entry(thread) {
        names.push(name.as_bytes())?;
        thread += 1;
    }
    Ok(names)
}

/// Returns the initial bits of a setup.
fn bits_of(alloc: Global, setup: &Setup) -> Result<Vec<bool>, AllocError>
    ensures { IfOk result (λ v. v.items ≡ setup.now.init) }
{
    setup.is_in_range();
    let mut bits = Vec::new(alloc);
    let mut n = 0;
    while let Some(bit) = setup.init(n) {
        bits.push(bit)?;
        n += 1;
    }
    Ok(bits)
}

/// Returns the setup with this number of contexts.
fn with_contexts(
    alloc: Global,
    code: &Code,
    setup: &Setup,
    contexts: u32,
) -> Result<Setup, SetupError>
    ensures { let t = code.now.tree in
        IfOk result (λ s. s ≡ record setup.now { contexts = contexts }) }
{
    let entries = entries_of(alloc, setup)?;
    let bits = bits_of(alloc, setup)?;
    Setup::from_names(
        alloc,
        code,
        entries.as_slice(),
        bits.as_slice(),
        u64::from(contexts),
        u64::from(setup.calls()),
        setup.seed(),
    )
}

/// Returns the setup of the trace of these lines. If it is one of its own, a refusal is that of
/// memory, since the setup fits.
pub(crate) fn setup_for(
    alloc: Global,
    code: &Code,
    setup: &Setup,
    bound: ContextBound,
    lines: &StepLines,
) -> Result<Setup, SetupError>
    ensures { let t = code.now.tree in IfOk result (IsSetupFor setup.now lines.now bound) }
{
    match bound {
        ContextBound::Kept => Ok(setup.try_copy()?),
        ContextBound::AsUsed => {
            let contexts = contexts_allowed(contexts_used(lines));
            with_contexts(alloc, code, setup, contexts)
        }
    }
}
