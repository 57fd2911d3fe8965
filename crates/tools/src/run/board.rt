//! Boards and desks of a small program.
mod desks;
mod turns;

ghost use Rattle.std.specs.Prelude.{◌≡◌, true, is_some, IfOk};
ghost use Rattle.bp_machine.specs.Setups.{threads, Fits};

use crate::common::mains;
use bp_code::Code;
use bp_machine::Setup;
use bp_run::BoardParts;
use bp_run::limits::MAX_RING;
use std::alloc::Global;
use std::test::Fail;

/// A loop with a choice: by the seed 42 it makes eight steps and ends.
const LOOP: &[u8] = b"main() begin while (?) do skip; od end";

/// An assumption that never holds.
const WAIT: &[u8] = b"main() begin assume (0); end";

/// Makes a setup of threads that begin with `main`, with these numbers of contexts and attempts of
/// a thread, and the seed 42.
fn setup_of(
    alloc: Global,
    code: &Code,
    threads: u32,
    contexts: u32,
    calls: u32,
) -> Result<Setup, Fail>
    ensures { IfOk result (λ s. Fits code.now.tree s × (is_some s.seed ≡ true)) }
{
    let entries = mains(alloc, threads)?;
    Ok(Setup::new(alloc, code, &entries, &[], contexts, calls, Some(42))?)
}

/// Returns parts for the threads of the setup.
fn board_parts_of(alloc: Global, setup: &Setup, ring: u32) -> Result<BoardParts, Fail>
    ensures { IfOk result (λ k. k.threads ≡ threads setup.now) }
{
    setup.is_in_range();
    if ring == 0 || ring > MAX_RING {
        return Err(Fail::from("no ring"));
    }
    Ok(BoardParts::new(alloc, setup.threads(), ring)?)
}
