//! Sessions by hand, and their refusals. Cases of the commands show what attempts do.

use crate::common::{code_of, mains};
use bp_machine::{AskError, Call, Reply, Session, Setup, SetupError};
use std::alloc::Global;
use std::test::Fail;

/// A loop with a choice.
const LOOP: &[u8] = b"main() begin while (?) do skip; od end";

/// The choice bit of an attempt.
#[derive(Clone, Copy)]
enum Ask {
    /// With the bit that the seed draws.
    Drawn,
    /// With this bit.
    Given(bool),
}

/// The choice bit of an attempt, its thread, and the result.
type Row = (Ask, u32, Result<Call, AskError>);

/// A step of thread 0 with the bit 1.
const ONE: Result<Call, AskError> = Ok(Call {
    thread: 0,
    bit: true,
    reply: Reply::Stepped,
});

/// A step of thread 0 with the bit 0.
const ZERO: Result<Call, AskError> = Ok(Call {
    thread: 0,
    bit: false,
    reply: Reply::Stepped,
});

/// The results of a session without a seed, whose thread has one attempt.
const UNSEEDED: [Row; 6] = [
    (Ask::Drawn, 1, Err(AskError::NoThread)),
    (Ask::Drawn, 0, Err(AskError::Unseeded)),
    (Ask::Given(true), 0, ONE),
    (Ask::Drawn, 0, Err(AskError::Terminated)),
    (Ask::Given(false), 0, Err(AskError::Terminated)),
    (Ask::Given(false), 1, Err(AskError::NoThread)),
];

/// The results by the seed 42, up to the last of seven attempts. Refused attempts use no bit.
const SEEDED: [Row; 10] = [
    (Ask::Drawn, 1, Err(AskError::NoThread)),
    (Ask::Given(true), 0, Err(AskError::Seeded)),
    (Ask::Drawn, 0, ONE),
    (Ask::Drawn, 0, ONE),
    (Ask::Drawn, 0, ONE),
    (Ask::Drawn, 0, ZERO),
    (Ask::Drawn, 0, ONE),
    (Ask::Drawn, 0, ONE),
    (Ask::Drawn, 0, ZERO),
    (Ask::Drawn, 0, Err(AskError::Terminated)),
];

fn asked(session: &mut Session, ask: Ask, thread: u32) -> Result<Call, AskError> {
    match ask {
        Ask::Drawn => session.ask(thread),
        Ask::Given(bit) => session.ask_with(thread, bit),
    }
}

/// Returns whether a session has these results, and no print of a missing thread.
fn answers(session: &mut Session, rows: &[Row]) -> bool {
    for row in rows {
        let (ask, thread, answer) = *row;
        if asked(session, ask, thread) != answer {
            return false;
        }
    }
    matches!(session.next_print(1), Err(AskError::NoThread))
}

/// Returns whether a session of the loop has these results, within these attempts, with this seed.
fn is_so(alloc: Global, calls: u32, seed: Option<u64>, rows: &[Row]) -> Result<bool, Fail> {
    let code = code_of(alloc, LOOP)?;
    let entries = mains(alloc, 1)?;
    let setup = Setup::new(alloc, &code, &entries, &[], 1, calls, seed)?;
    let mut session = Session::new(alloc, &code, &setup)?;
    Ok(answers(&mut session, rows))
}

#[test]
fn calls_without_a_seed(rt: HostRuntime) -> Result<(), Fail> {
    assert!(rt; is_so(rt.alloc(), 1, None, &UNSEEDED)?);
    Ok(())
}

#[test]
fn calls_by_a_seed(rt: HostRuntime) -> Result<(), Fail> {
    assert!(rt; is_so(rt.alloc(), 7, Some(42), &SEEDED)?);
    Ok(())
}

/// Returns whether a setup without threads is refused.
fn wants_threads(alloc: Global) -> Result<bool, Fail> {
    let code = code_of(alloc, LOOP)?;
    let refused = Setup::new(alloc, &code, &[], &[], 1, 10, None).err();
    Ok(refused == Some(SetupError::Threads))
}

#[test]
fn no_threads(rt: HostRuntime) -> Result<(), Fail> {
    assert!(rt; wants_threads(rt.alloc())?);
    Ok(())
}
