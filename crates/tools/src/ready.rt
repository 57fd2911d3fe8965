//! Programs and setups for the calls, and the lines that the script reads.
ghost use Rattle.std.specs.Prelude.{◌≡◌, IfOk};
ghost use Rattle.bp_machine.specs.Setups.{Fits};

use crate::common::mains;
use bp_code::Code;
use bp_machine::Setup;
use std::alloc::Global;
use std::io;
use std::rt::Runtime;
use std::test::Fail;

/// Two globals and two procedures, one of which calls the other by a choice.
const PROGRAM: &[u8] = b"decl x, y; \
    main() begin decl h; while (?) do h := !h; f(h, 1); od print (x, y); end \
    f(a, b) begin x, y := a, b; if (?) then f(b, a); else skip; fi end";

/// A procedure that calls itself, so that each step pushes a frame.
const CALLS: &[u8] = b"decl x, y; main() begin f(0); end f(a) begin f(!a); end";

/// Returns the text of the first of these programs: a function returns it, so that no proof of a
/// test reads all of it.
pub(crate) fn program() -> &'static [u8] {
    PROGRAM
}

/// Returns the text of the second one.
pub(crate) fn calls() -> &'static [u8] {
    CALLS
}

/// Makes the setup of this number of threads with 20 attempts each, with the seed 42 or none.
pub(crate) fn setup(
    alloc: Global,
    code: &Code,
    threads: u32,
    seed: Option<u64>,
) -> Result<Setup, Fail>
    ensures { IfOk result (λ s. Fits code.now.tree s × (s.seed ≡ seed)) }
{
    let entries = mains(alloc, threads)?;
    Ok(Setup::new(alloc, code, &entries, &[false, false], 1000, 20, seed)?)
}

/// Prints a line. Growths are refused after it.
pub(crate) fn begin<R: Runtime>(rt: &R) -> io::Result<()> {
    println!(rt; "ready")
}

/// Prints a word on the call. After this line every growth is granted.
pub(crate) fn say<R: Runtime>(rt: &R, word: &str) -> io::Result<()> {
    println!(rt; "{word}")
}

/// Prints whether the call was refused. After this line every growth is granted.
pub(crate) fn tell<R: Runtime>(rt: &R, was_refused: bool) -> io::Result<()> {
    say(rt, if was_refused { "refused" } else { "done" })
}

/// Fails unless the result is right.
pub(crate) fn wants(is_right: bool) -> Result<(), Fail> {
    if is_right {
        Ok(())
    } else {
        Err(Fail::from("another answer"))
    }
}
