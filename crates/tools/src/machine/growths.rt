//! Sessions and their attempts: after a refusal a session makes the same attempts as without one.
ghost use Rattle.bp_machine.specs.Setups.{Fits};

use crate::common::code_of;
use crate::ready::{begin, calls, program, setup, tell, wants};
use bp_code::Code;
use bp_machine::{AskError, Call, Session, Setup};
use std::alloc::Global;
use std::test::Fail;

/// The kind of an attempt.
#[derive(Clone, Copy, PartialEq, Eq)]
enum Way {
    Ask,
    AskWith,
}

/// Makes a session, once more if it is refused. It is new.
fn makes_a_session(rt: &HostRuntime, code: &Code, setup: &Setup) -> Result<(), Fail>
    requires fits { Fits code.now.tree setup.now }
{
    begin(rt)?;
    let made = Session::new(rt.alloc(), code, setup);
    tell(rt, made.is_err())?;
    let session = match made {
        Ok(session) => session,
        Err(_) => Session::new(rt.alloc(), code, setup)?,
    };
    wants(session.live_threads() == 3 && session.setup().contexts() == setup.contexts())
}

#[test]
fn make_a_session(rt: HostRuntime) -> Result<(), Fail> {
    let code = code_of(rt.alloc(), program())?;
    let setup = setup(rt.alloc(), &code, 3, None)?;
    makes_a_session(&rt, &code, &setup)
}

/// Returns a session of one thread of a program.
fn session_of(alloc: Global, text: &[u8], seed: Option<u64>) -> Result<Session, Fail> {
    let code = code_of(alloc, text)?;
    let setup = setup(alloc, &code, 1, seed)?;
    Ok(Session::new(alloc, &code, &setup)?)
}

/// Returns the next attempt of thread 0.
fn call(session: &mut Session, way: Way) -> Result<Call, AskError> {
    match way {
        Way::Ask => session.ask(0),
        Way::AskWith => session.ask_with(0, true),
    }
}

/// Makes attempts of thread 0, once more if one is refused memory, and returns whether one was. A
/// refusal has to leave the report as it was.
fn make_calls(session: &mut Session, way: Way, made: &mut [Option<Call>]) -> Result<bool, Fail> {
    let mut was_refused = false;
    for place in made.iter_mut() {
        let before = session.report();
        let mut answer = call(session, way);
        if answer == Err(AskError::Memory) {
            wants(session.report() == before)?;
            was_refused = true;
            answer = call(session, way);
        }
        *place = answer.ok();
    }
    Ok(was_refused)
}

/// Makes the 20 attempts of a session, and those of another one with refusals. They have to be the
/// same.
fn are_alike(
    rt: &HostRuntime,
    one: &mut Session,
    other: &mut Session,
    way: Way,
) -> Result<(), Fail> {
    let mut first = [None; 20];
    let mut second = [None; 20];
    make_calls(one, way, &mut first)?;
    begin(rt)?;
    let was_refused = make_calls(other, way, &mut second)?;
    tell(rt, was_refused)?;
    wants(first == second && first[19].is_some())
}

/// Makes them also for the program that calls itself.
fn calls_alike(rt: &HostRuntime, way: Way) -> Result<(), Fail> {
    let seed = if way == Way::AskWith { None } else { Some(42) };
    let mut one = session_of(rt.alloc(), calls(), seed)?;
    let mut other = session_of(rt.alloc(), calls(), seed)?;
    are_alike(rt, &mut one, &mut other, way)
}

#[test]
fn ask(rt: HostRuntime) -> Result<(), Fail> {
    calls_alike(&rt, Way::Ask)
}

#[test]
fn ask_with(rt: HostRuntime) -> Result<(), Fail> {
    calls_alike(&rt, Way::AskWith)
}

/// Returns whether two zeros are printed.
fn are_two_zeros(printed: &Result<Option<Vec<bool>>, AskError>) -> bool {
    match printed {
        Ok(Some(values)) => values.as_slice() == [false, false].as_slice(),
        _ => false,
    }
}

/// Asks for the next values that the thread prints, once more if refused. They are two zeros.
fn prints_next(rt: &HostRuntime, session: &Session) -> Result<(), Fail> {
    begin(rt)?;
    let printed = session.next_print(0);
    let was_refused = matches!(printed, Err(AskError::Memory));
    tell(rt, was_refused)?;
    if was_refused {
        return wants(are_two_zeros(&session.next_print(0)));
    }
    wants(are_two_zeros(&printed))
}

#[test]
fn next_print(rt: HostRuntime) -> Result<(), Fail> {
    let mut session = session_of(rt.alloc(), program(), None)?;
    session.ask_with(0, false)?;
    prints_next(&rt, &session)
}
