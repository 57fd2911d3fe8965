//! The declared name that a misspelled one may stand for.

use crate::check_sentences::RefusedName;
use crate::contexts::tokens_of;
use crate::declarations::procedure_around;
use crate::sentences::Quoted;
use bp_syntax::{Name, Proc, Tree};
use std::alloc::{AllocError, Global};
use strsim::osa_distance;

/// The most edits between a name and a similar one: a letter more, less or another, or two
/// neighbours that are swapped.
const MAX_EDITS: usize = 2;

/// The size from which names are not compared.
const MAX_SIZE: usize = 60;

/// Returns the first of the names that has the fewest edits. At least half of the letters remain.
fn nearest<'a>(
    alloc: Global,
    misspelled: &str,
    names: &[&'a str],
) -> Result<Option<&'a str>, AllocError> {
    let mut nearest = None;
    let mut fewest = MAX_EDITS + 1;
    for name in names {
        let size = name.len().max(misspelled.len());
        if size > MAX_SIZE {
            continue;
        }
        let edits = osa_distance(alloc, misspelled, name)?;
        if edits < fewest && edits.saturating_mul(2) <= size {
            nearest = Some(*name);
            fewest = edits;
        }
    }
    Ok(nearest)
}

/// Asks whether the nearest of these names was meant, if one is near. Text that is not UTF-8 has no
/// name near it.
fn question(alloc: Global, misspelled: &[u8], names: &[&str]) -> Result<String, AllocError> {
    let misspelled = str::from_utf8(misspelled).unwrap_or("");
    match nearest(alloc, misspelled, names)? {
        Some(name) => format!(in alloc; "; did you mean {}?", Quoted(name.as_bytes())),
        None => Ok(String::new(alloc)),
    }
}

fn add_names<'a>(texts: &mut Vec<&'a str>, names: &'a [Name]) -> Result<(), AllocError> {
    for name in names {
        texts.push(name.text())?;
    }
    Ok(())
}

/// Adds the formals and the locals of a procedure.
fn add_own<'a>(texts: &mut Vec<&'a str>, proc: &'a Proc) -> Result<(), AllocError> {
    add_names(texts, proc.formals())?;
    add_names(texts, proc.locals())
}

fn globals_of(alloc: Global, tree: &Tree) -> Result<Vec<&str>, AllocError> {
    let mut names = Vec::new(alloc);
    add_names(&mut names, tree.globals())?;
    Ok(names)
}

fn procedures_of(alloc: Global, tree: &Tree) -> Result<Vec<&str>, AllocError> {
    let mut names = Vec::new(alloc);
    for proc in tree.procs() {
        names.push(proc.name().text())?;
    }
    Ok(names)
}

/// Asks for the global that a name may stand for.
pub fn near_global(alloc: Global, tree: &Tree, name: &[u8]) -> Result<String, AllocError> {
    question(alloc, name, &globals_of(alloc, tree)?)
}

/// Asks for the variable, of any procedure or of all, that a name may stand for.
pub fn near_name(alloc: Global, tree: &Tree, name: &[u8]) -> Result<String, AllocError> {
    let mut names = globals_of(alloc, tree)?;
    for proc in tree.procs() {
        add_own(&mut names, proc)?;
    }
    question(alloc, name, &names)
}

/// Asks for the procedure that the name of an entry may stand for.
pub fn near_entry(alloc: Global, tree: &Tree, name: &[u8]) -> Result<String, AllocError> {
    question(alloc, name, &procedures_of(alloc, tree)?)
}

impl RefusedName<'_> {
    /// Asks for the variable that the name may stand for.
    pub(crate) fn near_variable(&self) -> Result<String, AllocError> {
        let mut names = globals_of(self.alloc, self.tree)?;
        if let Some(proc) = procedure_around(self.tree, self.at) {
            add_own(&mut names, proc)?;
        }
        question(self.alloc, self.name, &names)
    }

    /// Asks for the procedure that the name may stand for, or for the word that is written as a
    /// call is.
    pub(crate) fn near_procedure(&self) -> Result<String, AllocError> {
        let mut names = procedures_of(self.alloc, self.tree)?;
        for word in ["assert", "assume", "print"] {
            names.push(word)?;
        }
        question(self.alloc, self.name, &names)
    }

    /// Asks for the label that the name may stand for: a token before a colon.
    pub(crate) fn near_label(&self) -> Result<String, AllocError> {
        let tokens = tokens_of(self.alloc, self.text_of_procedure())?;
        let mut labels = Vec::new(self.alloc);
        for (label, colon) in tokens.iter().zip(tokens.iter().skip(1)) {
            if *colon == b":".as_slice() {
                labels.push(str::from_utf8(label).unwrap_or(""))?;
            }
        }
        question(self.alloc, self.name, &labels)
    }
}
