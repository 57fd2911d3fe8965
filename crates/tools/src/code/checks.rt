//! Tests of the check of `bp_code`: a refused tree is returned. The cases of the command `check`
//! show which trees are well-formed, and at which place and how others are refused.

use bp_code::{CheckError, CheckRefusal, check};
use bp_syntax::read;
use std::alloc::Global;
use std::test::Fail;

/// Returns whether the refusal is that of the second global of two, at 13, with its tree.
fn is_of_the_second_global(refusal: &CheckRefusal) -> bool {
    refusal.error == CheckError::TwiceGlobal
        && refusal.at == 13
        && refusal.number() == 11
        && refusal.place() == Some(13)
        && matches!(refusal.tree.globals(), [_, second] if second.at() == 13)
        && refusal.tree.procs().len() == 1
}

fn refuses_the_second_global(alloc: Global) -> Result<bool, Fail> {
    let tree = read(alloc, b"decl x; decl x; main() begin skip; end")?;
    match check(alloc, tree) {
        Ok(_) => Ok(false),
        Err(refusal) => Ok(is_of_the_second_global(&refusal)),
    }
}

#[test]
fn hands_a_refused_tree_back(rt: HostRuntime) -> Result<(), Fail> {
    assert!(rt; refuses_the_second_global(rt.alloc())?);
    Ok(())
}
