//! The calls of docs/dev/calling.md, on a race of two threads.

use crate::{drives, runs, sessions, texts};
use std::io;
use std::sync::Wait;
use std::thread::Threads;
use std::time::Clock;

/// A race: the writer says that the data is ready before it is.
const TEXT: &[u8] = b"decl ready, data;\n\
    writer() begin ready := 1; data := 1; end\n\
    reader() begin assume (ready); assert (data); end\n";

/// A step of the writer, and then two of the reader.
const SCHEDULE: &[u8] = b"0 0\n1 0\n1 0\n";

/// Returns the error for an unexpected result.
fn unexpected() -> io::Error {
    io::Error::other("an answer is missing")
}

/// Makes the calls, and prints a line for each part of the page.
pub fn call<R: Threads + Wait + Clock + Sync>(rt: &HostRuntime, threads: &R) -> io::Result<()> {
    let alloc = rt.alloc();
    match texts::code_or_error(alloc, TEXT) {
        Ok(code) => println!(rt; "code: {} instructions", code.len())?,
        Err(_) => return Err(unexpected()),
    }
    match drives::outcome_of(alloc, TEXT, SCHEDULE) {
        Some(outcome) => println!(rt; "drive: {outcome:?}")?,
        None => return Err(unexpected()),
    }
    match sessions::report_of(alloc, TEXT, 2) {
        Some(report) => println!(rt; "session: {} calls", report.calls)?,
        None => return Err(unexpected()),
    }
    let mut trace = Vec::new(alloc);
    match runs::turns_of(threads, alloc, TEXT, &mut trace) {
        Some(others) => println!(rt; "run: some turns made no step: {}", others > 0)?,
        None => return Err(unexpected()),
    }
    Ok(())
}
