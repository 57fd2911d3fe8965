//! Sentences on errors of a program whose text is in order.

use crate::contexts::token_at;
use crate::declarations::{first_named, first_procedure, procedure_around, tree_of};
use crate::sentences::{Count, Quoted};
use bp_syntax::limits::{MAX_GLOBALS, MAX_OWN_NAMES, MAX_PROCEDURES};
use bp_syntax::{CheckError, Name, Tree};
use bp_text::position_of;
use std::alloc::{AllocError, Global};

/// A name of a program that is refused.
#[derive(Clone, Copy)]
pub(crate) struct RefusedName<'a> {
    pub(crate) alloc: Global,
    pub(crate) text: &'a [u8],
    pub(crate) tree: &'a Tree,
    pub(crate) name: &'a [u8],
    /// The byte of the text at which the name is.
    pub(crate) at: usize,
}

impl<'a> RefusedName<'a> {
    fn quoted(&self) -> Quoted<'a> {
        Quoted(self.name)
    }

    /// Says that the name is declared twice, and where it is declared first, if that is known.
    fn twice(&self, first: Option<&Name>, sentence: String) -> Result<String, AllocError> {
        let alloc = self.alloc;
        let Some(name) = first else {
            return Ok(sentence);
        };
        let place = position_of(self.text, name.at() as usize);
        format!(in alloc; "{sentence}, first at {}:{}", place.line, place.column)
    }

    /// Names the procedure in whose text the name is.
    fn own(&self) -> Result<String, AllocError> {
        let alloc = self.alloc;
        match procedure_around(self.tree, self.at) {
            Some(proc) => format!(in alloc; "{}", Quoted(proc.name().text().as_bytes())),
            None => format!(in alloc; "this procedure"),
        }
    }

    fn twice_local(&self) -> Result<String, AllocError> {
        let (alloc, name) = (self.alloc, self.quoted());
        let sentence = format!(in alloc;
            "the variable {name} of this procedure is declared twice"
        )?;
        let Some(proc) = procedure_around(self.tree, self.at) else {
            return Ok(sentence);
        };
        let formal = first_named(proc.formals(), self.name);
        self.twice(formal.or(first_named(proc.locals(), self.name)), sentence)
    }

    fn unknown_variable(&self) -> Result<String, AllocError> {
        let (alloc, name, own) = (self.alloc, self.quoted(), self.own()?);
        let near = match self.name {
            b"true" | b"True" | b"TRUE" | b"T" => format!(in alloc; "; true is written '1'")?,
            b"false" | b"False" | b"FALSE" | b"F" => format!(in alloc; "; false is written '0'")?,
            _ => self.near_variable()?,
        };
        format!(in alloc; "there is no global {name}, and no formal or local in {own}{near}")
    }

    /// Says that the call has another number of arguments than its procedure has formals.
    fn arity(&self) -> Result<String, AllocError> {
        let (alloc, name) = (self.alloc, self.quoted());
        let proc = first_procedure(self.tree, self.name);
        let formals = Count(proc.map_or(0, |proc| proc.formals().len()), "formal");
        let arguments = Count(self.argument_count()?, "argument");
        format!(in alloc; "{name} is called with {arguments}, but it has {formals}")
    }

    /// Says that the sides of the assignment have other sizes.
    fn lengths(&self) -> Result<String, AllocError> {
        let alloc = self.alloc;
        let (variables, values) = self.side_counts()?;
        let (variables, values) = (Count(variables, "variable"), Count(values, "value"));
        format!(in alloc; "{variables} on the left side, but {values} on the right side")
    }

    /// Gives the most names of its kind.
    fn limit(&self) -> Result<String, AllocError> {
        let alloc = self.alloc;
        match procedure_around(self.tree, self.at) {
            None => format!(in alloc; "a program has at most {MAX_GLOBALS} globals"),
            Some(proc) if proc.name().at() as usize == self.at => {
                format!(in alloc; "a program has at most {MAX_PROCEDURES} procedures")
            }
            Some(_) => format!(in alloc;
                "a procedure has at most {MAX_OWN_NAMES} formals and locals together"
            ),
        }
    }

    /// Explains the mistake in the name.
    fn sentence(&self, error: CheckError) -> Result<String, AllocError> {
        let (alloc, name, tree) = (self.alloc, self.quoted(), self.tree);
        match error {
            CheckError::TwiceGlobal => {
                let sentence = format!(in alloc; "the global {name} is declared twice")?;
                self.twice(first_named(tree.globals(), self.name), sentence)
            }
            CheckError::TwiceProcedure => {
                let sentence = format!(in alloc; "there are two procedures {name}")?;
                let first = first_procedure(tree, self.name).map(|proc| proc.name());
                self.twice(first, sentence)
            }
            CheckError::TwiceLocal => self.twice_local(),
            CheckError::TwiceLabel => {
                let own = self.own()?;
                format!(in alloc; "the label {name} appears twice in {own}")
            }
            CheckError::UnknownVariable => self.unknown_variable(),
            CheckError::UnknownProcedure => {
                let near = self.near_procedure()?;
                format!(in alloc; "there is no procedure {name}{near}")
            }
            CheckError::UnknownLabel => {
                let near = self.near_label()?;
                let own = self.own()?;
                format!(in alloc; "there is no label {name} in {own}{near}")
            }
            CheckError::Arity => self.arity(),
            CheckError::Lengths => self.lengths(),
            CheckError::TwiceTarget => format!(in alloc; "{name} appears twice on this left side"),
            CheckError::Limit => self.limit(),
            CheckError::Memory => Ok(String::new(alloc)),
        }
    }
}

/// Explains why the program of a text is not well-formed.
pub(crate) fn check_sentence(
    alloc: Global,
    text: &[u8],
    error: CheckError,
    at: u32,
) -> Result<String, AllocError> {
    let at = at as usize;
    let name = token_at(text, at);
    match &tree_of(alloc, text)? {
        Some(tree) => RefusedName {
            alloc,
            text,
            tree,
            name,
            at,
        }
        .sentence(error),
        None => Ok(String::new(alloc)),
    }
}
