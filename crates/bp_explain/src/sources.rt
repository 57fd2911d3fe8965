//! The well-formed program of a text, as explanations look at it. Names of files as words of a
//! shell command. Words for the positions of threads.
ghost use Rattle.std.specs.Prelude.{◌≡◌, None, IfOk, IfSome};
ghost use Rattle.bp_machine.specs.Setups.{Fits};

use bp_advice::{Named, Plain, Quoted};
use bp_code::{CodeError, ProgramError, code_of};
use bp_confirm::{Location, ThreadPlace};
use bp_flat::{Code, global_value, local_value};
use bp_machine::{Session, Setup, SetupError, Start};
use bp_source::{SourceStatement, procedure_at, source_statements_of};
use bp_syntax::{CheckError, Proc, ReadError};
use bp_text::{Position, line_of, part_before, part_from, text_from_line};
use std::alloc::{AllocError, Global};
use std::fmt;

/// The code of a well-formed program with its text, and its source statements.
#[derive(Drop)]
pub(crate) struct Source<'a> {
    pub(crate) text: &'a [u8],
    pub(crate) code: Code,
    /// By the numbers of their instructions.
    pub(crate) statements: Vec<SourceStatement>,
}

/// Returns the well-formed program of a text, if it has one.
pub(crate) fn source_of(alloc: Global, text: &[u8]) -> Result<Option<Source<'_>>, AllocError> {
    let code = match code_of(alloc, text) {
        Ok(code) => code,
        Err(CodeError::Memory)
        | Err(CodeError::Program(ProgramError::Read(ReadError::Memory)))
        | Err(CodeError::Program(ProgramError::Check(CheckError::Memory, _))) => {
            return Err(AllocError);
        }
        Err(_) => return Ok(None),
    };
    let statements = source_statements_of(alloc, text, code.checked())?;
    Ok(Some(Source {
        text,
        code,
        statements,
    }))
}

/// Returns the setup of a run from this start, if the code accepts it.
pub(crate) fn setup_of(
    alloc: Global,
    code: &Code,
    start: &Start,
) -> Result<Option<Setup>, AllocError>
    ensures { IfOk result (λ o. IfSome o (λ s. Fits code.now.tree s × (s.seed ≡ None))) }
{
    match start.setup(alloc, code, None) {
        Ok(setup) => Ok(Some(setup)),
        Err(SetupError::Memory) => Err(AllocError),
        Err(_) => Ok(None),
    }
}

/// Returns the lines of a text before the line of this number.
pub(crate) fn lines_before(text: &[u8], number: usize) -> &[u8] {
    let rest = text_from_line(text, number);
    part_before(text, text.len().saturating_sub(rest.len()))
}

/// A variable as a thread sees it.
#[derive(Clone, Copy)]
pub(crate) struct Seen<'a> {
    /// The procedure of a local; None for a global.
    owner: Option<&'a Proc>,
    name: &'a [u8],
    pub(crate) value: bool,
}

impl fmt::Display for Seen<'_> {
    fn fmt<W: fmt::Write>(&self, f: &mut fmt::Formatter<W>) -> fmt::Result {
        let name = Named(self.name);
        match self.owner {
            Some(proc) => write!(f, "{}.{name}", Named(proc.name().text().as_bytes())),
            None => write!(f, "{name}"),
        }
    }
}

/// Returns the local of this name of the topmost frame of a thread, if it has one.
fn local_of<'a>(
    source: &'a Source<'_>,
    session: &Session,
    thread: u32,
    name: &'a [u8],
) -> Option<Seen<'a>> {
    let top = session.top(thread)?;
    let procs = source.code.checked().tree().procs();
    let proc = procedure_at(source.statements.as_slice(), procs, top.number)?;
    Some(Seen {
        owner: Some(proc),
        name,
        value: local_value(proc, top.store.locals, name)?,
    })
}

/// Returns the variable of this name that a thread sees, if there is one: a local hides a global.
pub(crate) fn variable_of<'a>(
    source: &'a Source<'_>,
    session: &Session,
    thread: u32,
    name: &'a [u8],
) -> Option<Seen<'a>> {
    if let Some(local) = local_of(source, session, thread, name) {
        return Some(local);
    }
    let globals = source.code.checked().tree().globals();
    Some(Seen {
        owner: None,
        name,
        value: global_value(globals, session.globals(), name)?,
    })
}

/// A file as a word of a shell: in quotes if a byte of its name needs them.
#[derive(Clone, Copy)]
pub(crate) struct Word<'a>(&'a [u8]);

/// Returns the word of this name, if a command can name the file by one. An option and `-`, which
/// is standard input, begin with a hyphen.
pub(crate) fn word_of(name: &str) -> Option<Word<'_>> {
    let bytes = name.as_bytes();
    let is_quotable = |byte: &u8| (b' '..=b'~').contains(byte) && *byte != b'\'';
    if bytes.is_empty() || bytes.starts_with(b"-") || !bytes.iter().all(is_quotable) {
        return None;
    }
    Some(Word(bytes))
}

/// Returns whether a byte stands for itself in a word of a shell.
fn is_bare(byte: u8) -> bool {
    byte.is_ascii_alphanumeric() || b"_./+:@%,=-".contains(&byte)
}

impl fmt::Display for Word<'_> {
    fn fmt<W: fmt::Write>(&self, f: &mut fmt::Formatter<W>) -> fmt::Result {
        let name = Plain(self.0);
        if self.0.iter().all(|byte| is_bare(*byte)) {
            write!(f, "{name}")
        } else {
            write!(f, "'{name}'")
        }
    }
}

/// A place as a line of steps names it, in words.
#[derive(Clone, Copy)]
pub(crate) struct Located(pub(crate) Location);

impl fmt::Display for Located {
    fn fmt<W: fmt::Write>(&self, f: &mut fmt::Formatter<W>) -> fmt::Result {
        match self.0 {
            Location::End => write!(f, "the end of a procedure"),
            Location::Line(line) => write!(f, "line {line}"),
            Location::Column(line, column) => write!(f, "{line}:{column}"),
        }
    }
}

/// The position of a thread in the text of a program, in words: of a statement its position and its
/// source on that line.
#[derive(Clone, Copy)]
pub(crate) struct ThreadPlaceText<'a>(pub(crate) &'a [u8], pub(crate) ThreadPlace);

/// Returns the source from a position up to a semicolon or the end of the line.
fn source_at(program: &[u8], position: Position) -> &[u8] {
    let Some(line) = line_of(program, position.line) else {
        return b"";
    };
    let source = part_from(line.text, position.column.saturating_sub(1));
    match source.iter().position(|byte| *byte == b';') {
        Some(end) => part_before(source, end),
        None => source,
    }
}

impl fmt::Display for ThreadPlaceText<'_> {
    fn fmt<W: fmt::Write>(&self, f: &mut fmt::Formatter<W>) -> fmt::Result {
        match self.1 {
            ThreadPlace::Ended => write!(f, "no statement"),
            ThreadPlace::End => write!(f, "the end of a procedure"),
            ThreadPlace::Statement(at) => {
                let source = Quoted(source_at(self.0, at).trim_ascii_end());
                write!(f, "{}:{} {source}", at.line, at.column)
            }
        }
    }
}
