//! Calls that allocate nothing. Each test prints a line once all is ready; `.ci/growths` refuses
//! each growth after it, and none may be asked for.
use crate::common::code_of;
use crate::ready::{begin, calls, program, setup, wants};
use crate::run::growths::boards::{Way, makes_calls};
use bp_code::{Code, Kind, list, put};
use bp_machine::{Call, Choices, Outcome, Reply, Report, Session, Setup, live_threads};
use bp_trace::{write_call, write_end, write_head, write_trace, write_trace2};
use std::test::Fail;

/// Returns whether a session of two threads stands after one step of one context.
fn stands_after_a_step(session: &Session) -> bool {
    session.setup().is_in_range();
    let report = Report {
        calls: 1,
        left_live: 2,
        contexts: 1,
        outcome: Outcome::Clean,
    };
    session.report() == report
        && !session.is_terminated(0)
        && !session.is_failed()
        && session.contexts_used() == 1
        && session.live_threads() == 2
}

/// Returns whether the session tells that its threads continue at one frame each, and the globals.
fn tells_frames(session: &Session) -> bool {
    (session.globals(), session.global(0)) == (0, Some(false))
        && !session.waits(0)
        && session.top(1).is_some()
        && session.top_below(1, 1).is_none()
}

/// Makes an attempt of thread 1. The session has this code and setup, and stands after the attempt.
fn makes(rt: &HostRuntime, session: &mut Session, code: &Code, setup: &Setup) -> Result<(), Fail> {
    begin(rt)?;
    let call = session.ask(1)?;
    wants(
        session.code().len() == code.len()
            && session.setup().seed() == setup.seed()
            && stands_after_a_step(session)
            && tells_frames(session)
            && live_threads(setup, &[call]) == 2,
    )
}

#[test]
fn sessions(rt: HostRuntime) -> Result<(), Fail> {
    let code = code_of(rt.alloc(), program())?;
    let setup = setup(rt.alloc(), &code, 2, Some(42))?;
    let mut session = Session::new(rt.alloc(), &code, &setup)?;
    makes(&rt, &mut session, &code, &setup)
}

#[test]
fn boards(rt: HostRuntime) -> Result<(), Fail> {
    makes_calls(&rt, rt.alloc(), Way::Gathered)
}

/// Returns whether the code is that of the program that calls itself.
fn has_parts(code: &Code) -> bool {
    let Some(call) = code.get(0) else {
        return false;
    };
    (code.len(), code.globals()) == (4, 2)
        && (code.entry("f"), code.formals("f"), code.formals("g")) == (Some(2), Some(1), None)
        && call.kind() == Kind::Call
        && (call.next(), call.other(), call.callee()) == (Some(1), None, Some(2))
}

/// Returns whether the setup of one thread fits the code, and tells its parts; and the first
/// choices by its seed, in order.
fn has_choices(code: &Code, setup: &Setup) -> bool {
    let mut choices = Choices::new(42, 0);
    let first = [
        choices.next(),
        choices.next(),
        choices.next(),
        choices.next(),
    ];
    setup.fits(code)
        && setup.entry(0) == Some("main")
        && (setup.threads(), setup.calls(), setup.contexts()) == (1, 20, 1000)
        && (setup.init(1), setup.init(2), setup.seed()) == (Some(false), None, Some(42))
        && first == [true, true, true, false]
}

/// The text of a copy of a code, and of two attempts of a setup.
const WRITTEN: &[u8] = b"proc main 0 0\n0 call 2 1\n1 return\n\
    proc f 1 0\n2 call 2 3\n3 return\n\
    -\n\
    btrace 1\nentry main\ninit 00\ncontexts 1000\ncalls 20\nseed 42\n0 1 s\nend 2 1\n\
    btrace 1\nentry main\ninit 00\ncontexts 1000\ncalls 20\nseed 42\n0 1 s\n0 1 s\nend 2 1\n\
    btrace 2\nentry main\ninit 00\ncontexts 1000\ncalls 20\nseed 42\n0 1s1s\nend 2 1\n";

/// Writes the listing of a code, and the trace of two attempts by parts, whole, and in version 2.
fn writes(code: &Code, setup: &Setup, out: &mut Vec<u8>) -> Result<(), bp_code::WriteError> {
    let call = Call {
        thread: 0,
        bit: true,
        reply: Reply::Stepped,
    };
    list(code, out)?;
    put(out, b"-\n")?;
    write_head(setup, out)?;
    write_call(&call, out)?;
    write_end(2, 1, out)?;
    write_trace(setup, &[call, call], out)?;
    write_trace2(setup, &[call, call], out)
}

#[test]
fn writers_and_accessors(rt: HostRuntime) -> Result<(), Fail> {
    let code = code_of(rt.alloc(), calls())?;
    let setup = setup(rt.alloc(), &code, 1, Some(42))?;
    let mut out = Vec::with_capacity(rt.alloc(), 4096)?;
    begin(&rt)?;
    let copy = code.try_copy()?;
    let is_right = has_parts(&code) && has_choices(&code, &setup);
    let done = writes(&copy, &setup, &mut out);
    wants(is_right && done.is_ok() && out.as_slice() == WRITTEN)
}
