//! Reading, checking and compiling a text.

use bp_code::{Code, check, compile};
use bp_syntax::read;
use std::alloc::Global;

/// Returns the code of a program text, or the number and the place of its first error.
pub fn code_or_error(alloc: Global, text: &[u8]) -> Result<Code, (u32, Option<u32>)> {
    let tree = match read(alloc, text) {
        Ok(tree) => tree,
        Err(error) => return Err((error.number(), error.place())),
    };
    let checked = match check(alloc, tree) {
        Ok(checked) => checked,
        Err(refusal) => return Err((refusal.number(), refusal.place())),
    };
    match compile(alloc, &checked) {
        Ok(code) => Ok(code),
        Err(_) => Err((7, None)),
    }
}
