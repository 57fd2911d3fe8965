//! Programs and names that tests of several crates make.
use bp_code::Code;
use std::alloc::{AllocError, Global};
use std::test::Fail;

/// Returns the code of a well-formed program.
pub(crate) fn code_of(alloc: Global, text: &[u8]) -> Result<Code, Fail> {
    match bp_code::code_of(alloc, text) {
        Ok(code) => Ok(code),
        Err(_) => Err(Fail::from("no code")),
    }
}

/// Returns the entries of `count` threads that begin with `main`.
pub(crate) fn mains(alloc: Global, count: u32) -> Result<Vec<String>, AllocError> {
    let mut entries = Vec::new(alloc);
    for _ in 0..count {
        entries.push(String::from_str(alloc, "main")?)?;
    }
    Ok(entries)
}

/// Returns the names.
pub(crate) fn names(alloc: Global, texts: &[&str]) -> Result<Vec<String>, AllocError> {
    let mut names = Vec::new(alloc);
    for text in texts {
        names.push(String::from_str(alloc, text)?)?;
    }
    Ok(names)
}
