//! Sentences on arguments that do not fit the program: entries, initial bits, names of variables.

use crate::heads::formals_of;
use bp_advice::{Count, cut_name, listed, near_entry, near_global, near_name, tree_of};
use bp_machine::limits::DEFAULT_ENTRY;
use bp_machine::{SetupError, Start};
use bp_syntax::{Name, Tree};
use std::alloc::{AllocError, Global};

/// Makes the sentence that has a name in quotes between these words. A name of the command line may
/// be any text.
fn with_name(alloc: Global, before: &str, name: &[u8], after: &str) -> Result<Vec<u8>, AllocError> {
    let (front, dots) = cut_name(name);
    let (start, end) = (
        format!(in alloc; "{before} '")?,
        format!(in alloc; "{dots}'{after}")?,
    );
    let mut sentence = start.into_bytes();
    sentence.extend_from_slice(front)?;
    sentence.extend_from_slice(end.as_bytes())?;
    Ok(sentence)
}

/// Lists the possible entries of a thread: the procedures without formals.
fn possible_entries(alloc: Global, tree: &Tree) -> Result<String, AllocError> {
    let mut names = Vec::new(alloc);
    for proc in tree.procs() {
        if proc.formals().is_empty() {
            names.push(proc.name().text())?;
        }
    }
    if names.is_empty() {
        return format!(in alloc; ", and none without formals");
    }
    let list = listed(alloc, names.as_slice())?;
    format!(in alloc; "; name an entry for each thread: {list}")
}

/// Returns the entry of a thread, or an empty name without one.
fn entry_of(start: &Start, thread: u32) -> &str {
    match start.entries.get(thread as usize) {
        Some(entry) => entry.as_str(),
        None => "",
    }
}

/// Says that the entry of a thread is not a procedure.
fn unknown_entry(
    alloc: Global,
    tree: &Tree,
    start: &Start,
    thread: u32,
) -> Result<Vec<u8>, AllocError> {
    let entry = entry_of(start, thread);
    if start.entries.len() == 1 && entry == DEFAULT_ENTRY {
        let others = possible_entries(alloc, tree)?;
        return with_name(
            alloc,
            "there is no procedure",
            entry.as_bytes(),
            others.as_str(),
        );
    }
    let before = format!(in alloc; "thread {thread}: no procedure")?;
    let near = near_entry(alloc, tree, entry.as_bytes())?;
    with_name(alloc, before.as_str(), entry.as_bytes(), near.as_str())
}

/// Lists the globals, after their number.
fn globals_of(alloc: Global, globals: &[Name]) -> Result<String, AllocError> {
    if globals.is_empty() {
        return format!(in alloc; "there are no globals");
    }
    let mut names = Vec::new(alloc);
    for name in globals {
        names.push(name.text())?;
    }
    let (count, list) = (
        Count(globals.len(), "global"),
        listed(alloc, names.as_slice())?,
    );
    let verb = if globals.len() == 1 { "is" } else { "are" };
    format!(in alloc; "there {verb} {count}: {list}")
}

/// Says that there are not as many initial bits as globals.
fn init_length(alloc: Global, tree: &Tree, start: &Start) -> Result<Vec<u8>, AllocError> {
    let Some(bits) = &start.init else {
        return Ok(Vec::new(alloc));
    };
    let (count, globals) = (Count(bits.len(), "bit"), globals_of(alloc, tree.globals())?);
    let sentence = format!(in alloc; "--init has {count}, but {globals}")?;
    Ok(sentence.into_bytes())
}

/// Returns the sentence on an error of the setup of a run of the program of a text. It is empty if
/// the error needs no word of the program. Fails only on allocation.
pub fn start_sentence(
    alloc: Global,
    program: &[u8],
    start: &Start,
    error: SetupError,
) -> Result<Vec<u8>, AllocError> {
    let Some(tree) = &tree_of(alloc, program)? else {
        return Ok(Vec::new(alloc));
    };
    match error {
        SetupError::UnknownEntry(thread) => unknown_entry(alloc, tree, start, thread),
        SetupError::EntryHasFormals(thread) => {
            let entry = entry_of(start, thread).as_bytes();
            let before = format!(in alloc; "thread {thread}:")?;
            let formals = formals_of(alloc, tree, entry)?;
            with_name(alloc, before.as_str(), entry, formals.as_str())
        }
        SetupError::InitLength => init_length(alloc, tree, start),
        _ => Ok(Vec::new(alloc)),
    }
}

/// Returns the sentence on a name that no variable of the program has. Fails only on allocation.
pub fn variable_sentence(
    alloc: Global,
    program: &[u8],
    name: &[u8],
) -> Result<Vec<u8>, AllocError> {
    let near = match &tree_of(alloc, program)? {
        Some(tree) => near_name(alloc, tree, name)?,
        None => String::new(alloc),
    };
    with_name(alloc, "no variable", name, near.as_str())
}

/// Returns the sentence on a name that no global of the program has. Fails only on allocation.
pub fn global_sentence(alloc: Global, program: &[u8], name: &[u8]) -> Result<Vec<u8>, AllocError> {
    let near = match &tree_of(alloc, program)? {
        Some(tree) => near_global(alloc, tree, name)?,
        None => String::new(alloc),
    };
    with_name(alloc, "no global", name, near.as_str())
}
