//! Asks of one thread at a session, at a desk and at a board. Each ask has to be a step, and the
//! tap has to give all attempts.

use crate::cases::{Case, unmeasured};
use crate::rounds::measure;
use std::io;
use std::rt::Runtime;
use std::sync::Wait;
use std::time::Clock;

/// Prints a line for each case.
fn print<R: Runtime>(rt: &R, cases: &[Case], has_times: bool) -> io::Result<()> {
    for case in cases {
        let (name, asks) = (case.name, case.asks);
        if has_times {
            let asking = case.asking.as_secs_f64();
            let taking = case.taking.as_secs_f64();
            println!(rt; "{name}\t{asks}\t{asking}\t{taking}")?;
        } else {
            println!(rt; "{name}\t{asks}")?;
        }
    }
    Ok(())
}

/// Makes `rounds` rounds, and prints a line for each case with the number of asks. If times are
/// asked for, it also prints the seconds of the asks, and of the looks at the tap by which their
/// attempts were taken from the ring.
pub fn ask<R: Wait + Clock>(
    host: &HostRuntime,
    rt: &R,
    rounds: u32,
    has_times: bool,
) -> io::Result<()> {
    let mut session = unmeasured("Session::ask");
    let mut desk = unmeasured("Desk::ask");
    let mut board = unmeasured("Board::turn 64");
    measure(
        rt,
        host.alloc(),
        rounds,
        &mut session,
        &mut desk,
        &mut board,
    )?;
    print(host, &[session, desk, board], has_times)
}
