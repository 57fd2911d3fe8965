//! Calls that need memory when there is none. Each test prints a line once all is ready;
//! `.ci/growths` refuses each growth after it, so the call has to be refused, and to end.
use super::boards::{Way, makes_calls};
use std::test::Fail;

#[test]
fn work_at_a_board(rt: HostRuntime) -> Result<(), Fail> {
    makes_calls(&rt, rt.alloc(), Way::Starved)
}
