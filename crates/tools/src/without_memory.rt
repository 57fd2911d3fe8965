//! Lines of results and of errors, and the exit status. The test prints a line once all is ready;
//! `.ci/growths` refuses each growth after it, and none may be asked for.
use bp_code::{Checked, Code, WriteError, check, compile};
use bp_commands::show_check;
use bp_machine::SetupError;
use bp_messages::{Error, exit_status, show_error, show_replay};
use bp_syntax::read;
use bp_trace::{Replayed, replay};
use std::alloc::Global;
use std::test::Fail;

/// A swap of two globals, which are printed.
const PROGRAM: &[u8] = b"decl x, y; main() begin x, y := y, x; print (x, y); end";

/// A trace of that program.
const TRACE: &[u8] = b"btrace 1\nentry main\ninit 10\ncontexts 2\ncalls 9\nseed none\n\
    0 0 s\n0 0 s\nend 2 1\n";

/// The lines of them, and of a refused setup.
const LINES: &[u8] = b"ok 1 2\nprint 0 01\noutcome clean\nbtrun: 32 UnknownEntry thread 3\n";

/// Writes the lines.
fn shows(checked: &Checked, replayed: &Replayed, out: &mut Vec<u8>) -> Result<(), WriteError> {
    show_check(checked, out)?;
    show_replay(replayed, out)?;
    show_error(&Error::Setup(SetupError::UnknownEntry(3)), out)
}

/// Returns the program, checked and compiled.
fn programs(alloc: Global) -> Result<(Checked, Code), Fail> {
    let tree = read(alloc, PROGRAM)?;
    let Ok(checked) = check(alloc, tree) else {
        return Err(Fail::from("not lawful"));
    };
    let code = compile(alloc, &checked)?;
    Ok((checked, code))
}

#[test]
fn lines_of_answers_and_errors(rt: HostRuntime) -> Result<(), Fail> {
    let (checked, code) = programs(rt.alloc())?;
    let replayed = replay(rt.alloc(), &code, TRACE)?;
    let mut out = Vec::with_capacity(rt.alloc(), 4096)?;
    println!(rt; "ready")?;
    let done = shows(&checked, &replayed, &mut out);
    let statuses = [
        exit_status(false, None),
        exit_status(true, None),
        exit_status(true, Some(32)),
        exit_status(false, Some(7)),
        exit_status(false, Some(62)),
    ];
    assert!(rt; done.is_ok() && statuses == [0, 1, 2, 3, 4]);
    assert!(rt; out.as_slice() == LINES);
    Ok(())
}
