//! Scope of the name at a place of a program's text. The numbers of arguments of a call, and of
//! variables and values of an assignment.
use crate::check_sentences::RefusedName;
use crate::contexts::tokens_of;
use bp_syntax::{Name, Proc, ReadError, Tree, read};
use bp_text::{part_before, part_from};
use std::alloc::{AllocError, Global};

/// Returns the tree of a text, if it has one.
pub fn tree_of(alloc: Global, text: &[u8]) -> Result<Option<Tree>, AllocError> {
    match read(alloc, text) {
        Ok(tree) => Ok(Some(tree)),
        Err(ReadError::Memory) => Err(AllocError),
        Err(_) => Ok(None),
    }
}

/// Returns the first of the names with this text.
pub(crate) fn first_named<'a>(names: &'a [Name], spelling: &[u8]) -> Option<&'a Name> {
    for name in names {
        if name.text().as_bytes() == spelling {
            return Some(name);
        }
    }
    None
}

/// Returns the first of the procedures with this name.
pub fn first_procedure<'a>(tree: &'a Tree, spelling: &[u8]) -> Option<&'a Proc> {
    for proc in tree.procs() {
        if proc.name().text().as_bytes() == spelling {
            return Some(proc);
        }
    }
    None
}

/// Returns the procedure in whose text this place is.
pub(crate) fn procedure_around(tree: &Tree, at: usize) -> Option<&Proc> {
    let mut around = None;
    for proc in tree.procs() {
        if proc.name().at() as usize <= at {
            around = Some(proc);
        }
    }
    around
}

/// Returns the number of items of a list, with commas between them.
fn count_of(list: &[&[u8]]) -> usize {
    let mut count: usize = 1;
    for token in list {
        if *token == b",".as_slice() {
            count = count.saturating_add(1);
        }
    }
    count
}

/// The number of tokens of a call without arguments: its name and two brackets.
const BARE_CALL: usize = 3;

impl<'a> RefusedName<'a> {
    /// Returns the text of the procedure around the name: up to the name of the next one.
    pub(crate) fn text_of_procedure(&self) -> &'a [u8] {
        let (mut from, mut to) = (0, self.text.len());
        for proc in self.tree.procs() {
            let place = proc.name().at() as usize;
            if place <= self.at {
                from = place;
            } else {
                to = place.min(to);
            }
        }
        part_from(part_before(self.text, to), from)
    }

    /// Returns the tokens of the statement that the name begins, up to its `;`.
    fn statement(&self) -> Result<Vec<&'a [u8]>, AllocError> {
        let mut tokens = tokens_of(self.alloc, part_from(self.text, self.at))?;
        if let Some(end) = tokens.iter().position(|token| *token == b";".as_slice()) {
            tokens.truncate(end);
        }
        Ok(tokens)
    }

    /// Returns the number of arguments of the call that the name begins.
    pub(crate) fn argument_count(&self) -> Result<usize, AllocError> {
        let call = self.statement()?;
        if call.len() <= BARE_CALL {
            return Ok(0);
        }
        Ok(count_of(&call))
    }

    /// Returns the numbers of variables and of values of the assignment that the name begins.
    pub(crate) fn side_counts(&self) -> Result<(usize, usize), AllocError> {
        let tokens = self.statement()?;
        let mut sides = tokens.split(|token| *token == b":=".as_slice());
        let (left, right) = (sides.next().unwrap_or(&[]), sides.next().unwrap_or(&[]));
        Ok((count_of(left), count_of(right)))
    }
}
