//! Calls that allocate: each is made, and made again if it is refused. Then it succeeds; its value
//! is proved.
ghost use Rattle.std.specs.Prelude.{◌≡◌, None};
ghost use Rattle.bp_machine.specs.Setups.{Fits};

use crate::common::mains;
use crate::ready::{begin, program, setup, tell, wants};
use bp_code::{Checked, Code, check, compile};
use bp_machine::Setup;
use bp_syntax::{Tree, read};
use bp_trace::{drive, migrate, replay};
use std::alloc::Global;
use std::rt::Runtime;
use std::test::Fail;

/// A call that allocates.
#[derive(Clone, Copy)]
enum Taking {
    Read,
    Check,
    Compile,
    MakeSetup,
    CopySetup,
    Drive,
    Replay,
    Migrate,
}

const TAKING: [Taking; 8] = [
    Taking::Read,
    Taking::Check,
    Taking::Compile,
    Taking::MakeSetup,
    Taking::CopySetup,
    Taking::Drive,
    Taking::Replay,
    Taking::Migrate,
];

/// A schedule that goes once through the loop of the program, and prints.
const SCHEDULE: &[u8] = b"0 1\n0 0\n0 0\n0 0\n0 0\n0 0\n0 0\n0 0\n0 0\n";

/// Returns whether the check of the tree succeeds. A tree that is refused is kept.
fn checks(alloc: Global, tree: &mut Option<Tree>) -> bool {
    let Some(given) = tree.take() else {
        return false;
    };
    match check(alloc, given) {
        Ok(_) => true,
        Err(refusal) => {
            *tree = Some(refusal.tree);
            false
        }
    }
}

/// Returns whether a setup of one thread of the program is made.
fn makes_a_setup(alloc: Global, code: &Code) -> bool {
    match mains(alloc, 1) {
        Ok(entries) => {
            Setup::new(alloc, code, &entries, &[false, false], 1000, 20, None).is_ok()
        }
        Err(_) => false,
    }
}

/// Returns whether a call succeeds. It is of the program, in a setup that fits it; a check uses up
/// the tree, and the output goes to `out`.
fn succeeds(
    alloc: Global,
    call: Taking,
    checked: &Checked,
    code: &Code,
    own: &Setup,
    trace: &[u8],
    tree: &mut Option<Tree>,
    out: &mut Vec<u8>,
) -> bool
    requires fits { Fits code.now.tree own.now }
    requires unseeded { own.now.seed ≡ None }
{
    match call {
        Taking::Read => read(alloc, program()).is_ok(),
        Taking::Check => checks(alloc, tree),
        Taking::Compile => compile(alloc, checked).is_ok(),
        Taking::MakeSetup => makes_a_setup(alloc, code),
        Taking::CopySetup => own.try_copy().is_ok(),
        Taking::Drive => drive(alloc, code, own, SCHEDULE, out).is_ok(),
        Taking::Replay => replay(alloc, code, trace).is_ok(),
        Taking::Migrate => migrate(alloc, code, trace, out).is_ok(),
    }
}

/// Makes each call, and again if it is refused.
fn makes_each<R: Runtime>(
    rt: &R,
    alloc: Global,
    checked: &Checked,
    code: &Code,
    own: &Setup,
) -> Result<(), Fail>
    requires fits { Fits code.now.tree own.now }
    requires unseeded { own.now.seed ≡ None }
{
    let mut trace = Vec::new(alloc);
    drive(alloc, code, own, SCHEDULE, &mut trace)?;
    let mut out = Vec::with_capacity(alloc, 4096)?;
    for call in TAKING {
        let mut tree = Some(read(alloc, program())?);
        out.clear();
        begin(rt)?;
        let is_made = succeeds(alloc, call, checked, code, own, &trace, &mut tree, &mut out);
        tell(rt, !is_made)?;
        wants(is_made || succeeds(alloc, call, checked, code, own, &trace, &mut tree, &mut out))?;
    }
    Ok(())
}

#[test]
fn calls_that_take_memory(rt: HostRuntime) -> Result<(), Fail> {
    let tree = read(rt.alloc(), program())?;
    let Ok(checked) = check(rt.alloc(), tree) else {
        return Err(Fail::from("not lawful"));
    };
    let code = compile(rt.alloc(), &checked)?;
    let own = setup(rt.alloc(), &code, 1, None)?;
    makes_each(&rt, rt.alloc(), &checked, &code, &own)
}
