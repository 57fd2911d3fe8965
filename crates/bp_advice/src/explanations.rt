//! Explanations of errors: the place in a file, the mistake there, and the lines that show the
//! place. Explanations as printed: a line that names the place and has the sentence, and then the
//! excerpt. They have only characters that a terminal shows, and line ends. Explanations of the
//! errors of programs.
ghost use Rattle.std.specs.Prelude.{◌≡◌, IfOk, ◌++◌, map, OnOk};
ghost use Rattle.bp_code.specs.WellFormedTexts.{program_error_place};
ghost use Rattle.bp_advice.specs.Explanations.{ExplainsLine, ExplainsPlace, IsAt, place_of, after_colon, head_of, is_plain, lines_of, numbers_of, sentence_of, shown, IsPlain, IsExplanationOf, ExplainsProgram};

use crate::check_sentences::check_sentence;
use crate::read_sentences::{explain_syntax, read_sentence};
use bp_code::ProgramError;
use bp_syntax::{CheckError, ReadError};
use bp_text::{Position, excerpt_of, first_line, position_of, push_displayed, push_line};
use itoa::Buffer;
use std::alloc::{AllocError, Global};

/// A place of a file.
#[derive(Clone, Copy)]
pub enum Place {
    /// The file as a whole.
    Whole,
    /// The line of this number.
    Line(usize),
    /// This line and column.
    At(Position),
}

/// An explanation of an error of a file.
#[derive(Drop)]
pub struct Explanation<'a> {
    /// The name of the file.
    pub file: &'a str,
    /// The place of the error in the file.
    pub place: Place,
    /// The mistake there, on one line.
    pub sentence: Vec<u8>,
    /// The lines that show the place, if any.
    pub excerpt: Vec<u8>,
}

/// Makes the explanation of this place of a file, with this excerpt and sentence, on one line.
pub fn explained<'a>(
    alloc: Global,
    file: &'a str,
    place: Place,
    excerpt: Vec<u8>,
    words: &str,
) -> Result<Explanation<'a>, AllocError>
    ensures { IfOk result (λ e. IsAt file.now place e) }
{
    let mut sentence = Vec::new(alloc);
    sentence.extend_from_slice(first_line(words.as_bytes()))?;
    Ok(Explanation {
        file,
        place,
        sentence,
        excerpt,
    })
}

/// Returns the place of a byte of a text, or the whole text.
fn place_of(text: &[u8], at: Option<u32>) -> Place
    ensures { result ≡ place_of text.now at }
{
    match at {
        None => Place::Whole,
        Some(at) => Place::At(position_of(text, at as usize)),
    }
}

/// Makes the explanation of a place of a text, or of the whole text if there is none.
pub(crate) fn about_place<'a>(
    alloc: Global,
    file: &'a str,
    text: &[u8],
    at: Option<u32>,
    sentence: &str,
) -> Result<Explanation<'a>, AllocError>
    ensures { IfOk result (λ e. ExplainsPlace file.now text.now at e) }
{
    let excerpt = excerpt_of(alloc, text, at)?;
    explained(alloc, file, place_of(text, at), excerpt, sentence)
}

/// Makes the explanation of a line of a text, which has this number and is shown without a caret.
pub fn about_line<'a>(
    alloc: Global,
    file: &'a str,
    text: &[u8],
    number: usize,
    sentence: &str,
) -> Result<Explanation<'a>, AllocError>
    ensures { IfOk result (λ e. ExplainsLine file.now number e) }
{
    let mut excerpt = Vec::new(alloc);
    push_line(&mut excerpt, text, number)?;
    explained(alloc, file, Place::Line(number), excerpt, sentence)
}

/// The text between a place and a sentence on it.
const SEPARATOR: &[u8] = b": ";

/// Returns whether the byte is a line feed, or a character that a terminal shows in one column.
fn is_plain(byte: u8) -> bool
    ensures { result ≡ is_plain byte }
{
    byte == b'\n' || b' ' <= byte && byte <= b'~'
}

/// Returns the byte to show for a byte: a column stays a column.
pub(crate) fn shown(byte: u8) -> u8
    ensures { result ≡ shown byte }
{
    if is_plain(byte) {
        byte
    } else if byte == b'\t' || byte == b'\r' {
        b' '
    } else {
        b'?'
    }
}

/// Returns the bytes to show.
fn shown_bytes(alloc: Global, bytes: &[u8]) -> Result<Vec<u8>, AllocError>
    ensures { IfOk result (λ v. v.items ≡ map shown bytes.now) }
{
    let mut out = Vec::new(alloc);
    for byte in bytes {
        out.push(shown(*byte))?;
    }
    Ok(out)
}

/// Adds a colon and a number.
fn push_after_colon(out: &mut Vec<u8>, number: usize) -> Result<(), AllocError>
    ensures { OnOk result (out.new.items ≡ out.old.items ++ after_colon number) }
{
    let mut buffer = Buffer::new();
    out.push(b':')?;
    out.extend_from_slice(buffer.format(number).as_bytes())
}

/// Adds the numbers of a place.
fn push_numbers(out: &mut Vec<u8>, place: Place) -> Result<(), AllocError>
    ensures { OnOk result (out.new.items ≡ out.old.items ++ numbers_of place) }
{
    match place {
        Place::Whole => Ok(()),
        Place::Line(number) => push_after_colon(out, number),
        Place::At(position) => {
            push_after_colon(out, position.line)?;
            push_after_colon(out, position.column)
        }
    }
}

/// Returns the head that names a file and a place in it.
fn head_of(alloc: Global, file: &str, place: Place) -> Result<Vec<u8>, AllocError>
    ensures { IfOk result (λ v. v.items ≡ head_of file.now place) }
{
    let mut head = Vec::new(alloc);
    push_displayed(&mut head, file.as_bytes())?;
    push_numbers(&mut head, place)?;
    head.extend_from_slice(SEPARATOR)?;
    Ok(head)
}

/// Returns the sentence of an explanation. Fails only on allocation.
pub fn sentence_of(alloc: Global, explanation: &Explanation<'_>) -> Result<Vec<u8>, AllocError>
    ensures { IfOk result (λ v. v.items ≡ sentence_of explanation.now) }
{
    shown_bytes(alloc, explanation.sentence.as_slice())
}

/// Returns the lines of an explanation: its place and its sentence, and then its excerpt. Fails
/// only on allocation.
pub fn lines_of(alloc: Global, explanation: &Explanation<'_>) -> Result<Vec<u8>, AllocError>
    ensures is { IfOk result (λ v. v.items ≡ lines_of explanation.now) }
    ensures plain { IfOk result (λ v. IsPlain v.items) }
{
    let mut lines = head_of(alloc, explanation.file, explanation.place)?;
    lines.extend_from_slice(explanation.sentence.as_slice())?;
    lines.push(b'\n')?;
    lines.extend_from_slice(explanation.excerpt.as_slice())?;
    shown_bytes(alloc, lines.as_slice())
}

/// Returns the byte that the error names, if any.
fn place_in(error: &ProgramError) -> Option<u32>
    ensures { result ≡ program_error_place error.now }
{
    match error {
        ProgramError::Read(error) => error.place(),
        ProgramError::Check(CheckError::Memory, _) => None,
        ProgramError::Check(_, at) => Some(*at),
    }
}

/// Explains this error of a program's text, at its line and column. A missing semicolon is placed
/// at the end of the statement before. Nothing explains a text that is too long, or refused memory.
/// Fails only on allocation.
pub fn explain_program<'a>(
    alloc: Global,
    file: &'a str,
    text: &[u8],
    error: &ProgramError,
) -> Result<Option<Explanation<'a>>, AllocError>
    ensures { let Explains = ExplainsProgram file.now text.now error.now in
        IfOk result (IsExplanationOf Explains) }
{
    let sentence = match error {
        ProgramError::Read(ReadError::Memory | ReadError::TooLong) => return Ok(None),
        ProgramError::Check(CheckError::Memory, _) => return Ok(None),
        ProgramError::Read(ReadError::Syntax(at)) => {
            return Ok(Some(explain_syntax(alloc, file, text, *at)?));
        }
        ProgramError::Read(error) => read_sentence(alloc, text, error)?,
        ProgramError::Check(error, at) => check_sentence(alloc, text, *error, *at)?,
    };
    let place = place_in(error);
    Ok(Some(about_place(alloc, file, text, place, sentence.as_str())?))
}
