//! Sentences on errors of a text that has no tree. The explanation of a token that cannot come
//! there in a program. Texts of another kind than expected, or saved in another way.
ghost use Rattle.std.specs.Prelude.{IfOk, IfSome};
ghost use Rattle.bp_advice.specs.Explanations.{ExplainsSyntax, MissesSemicolon};

use crate::contexts::{Context, is_gap, is_name, size_to_last_token, tokens_around};
use crate::explanations::{Explanation, about_place};
use crate::mistakes::{advice, misses_semicolon, mistake_at};
use crate::offers::{Offer, list_of, may_follow, offers_after};
use crate::sentences::Quoted;
use bp_syntax::ReadError;
use bp_syntax::limits::{NESTING_LIMIT, SUCCESSION_LIMIT};
use bp_text::{Line, last_line, part_before, part_from};
use std::alloc::{AllocError, Global};

/// Returns the likely meaning of a byte that begins no token.
fn hint(byte: u8) -> &'static str {
    match byte {
        b'2'..=b'9' => "; the constants are 0 and 1",
        b'/' => "; a comment begins with '//'",
        b'}' => "; no name in braces is open",
        b'>' => "; an implication is written '=>'",
        b'*' => "; all variables are bits, and 'and' is written '&'",
        b'<' | b'+' | b'-' => "; all variables are bits",
        b'"' | b'\'' => "; there are no texts in a program",
        _ => "",
    }
}

/// Returns also its meaning after the token before it: after an expression, an operator.
fn hint_after(before: &[u8], byte: u8) -> &'static str {
    let ends_expression = is_name(before) || matches!(before, b"0" | b"1" | b")");
    if byte == b'*' && !ends_expression {
        "; a choice is written '?', alone in a condition, as in 'if (?)'"
    } else if byte == b'[' && before == b"schoose".as_slice() {
        "; there is no 'schoose': assign in the branches of an 'if', the last an 'if (?)'"
    } else {
        hint(byte)
    }
}

/// Returns whether a line has an open brace.
fn has_open_brace(line: &[u8]) -> bool {
    let last = line.iter().rfind(|byte| matches!(byte, b'{' | b'}'));
    last == Some(&b'{')
}

/// Explains why the byte at this place of a text begins no token. It is named by its number if a
/// terminal does not show it.
fn bad_byte(alloc: Global, text: &[u8], at: usize) -> Result<String, AllocError> {
    if has_open_brace(last_line(part_before(text, at))) {
        return format!(in alloc; "the '{{' before this byte has no '}}'");
    }
    let byte = text.get(at).copied().unwrap_or(0);
    let hint = hint_after(tokens_around(alloc, text, at)?.before, byte);
    if byte.is_ascii_graphic() {
        let byte = char::from(byte);
        format!(in alloc; "nothing in a program begins with '{byte}'{hint}")
    } else {
        format!(in alloc; "nothing in a program begins with the byte {byte}{hint}")
    }
}

/// Explains why a text has no tree, if no token is out of place.
pub(crate) fn read_sentence(
    alloc: Global,
    text: &[u8],
    error: &ReadError,
) -> Result<String, AllocError> {
    match error {
        ReadError::BadByte(at) => match other_than_program(text) {
            Some(words) => String::from_str(alloc, words),
            None => bad_byte(alloc, text, *at as usize),
        },
        ReadError::OpenName(_) => format!(in alloc;
            "this name is not closed: a name in braces has only printable ASCII characters, \
            and ends with '}}'"
        ),
        ReadError::TooNested(_) => format!(in alloc;
            "'if' and 'while' nest at most {NESTING_LIMIT} deep"
        ),
        ReadError::TooManyTokens(_) => format!(in alloc;
            "at most {SUCCESSION_LIMIT} tokens follow one another without one of \
            ';', 'then', 'do', 'else', 'fi', 'od', 'begin' or 'end'"
        ),
        ReadError::TooLong | ReadError::Syntax(_) | ReadError::Memory => Ok(String::new(alloc)),
    }
}

/// Gives the expected tokens at a place of a text, the token there instead, and a correction. A
/// text that is nearly too long has no room for a token, and then there are no offers.
fn misplaced(
    alloc: Global,
    text: &[u8],
    offers: &[Offer],
    context: &Context<'_>,
) -> Result<String, AllocError> {
    if let Some(words) = other_than_program(text) {
        return String::from_str(alloc, words);
    }
    let list = if offers.is_empty() {
        String::from_str(alloc, "a program")?
    } else {
        list_of(alloc, offers)?
    };
    if context.found.is_empty() {
        return format!(in alloc; "the text ends here; expected {list}");
    }
    let instead = match mistake_at(offers, context) {
        Some(mistake) => advice(alloc, mistake, context)?,
        None => String::new(alloc),
    };
    format!(in alloc; "expected {list}, not {}{instead}", Quoted(context.found))
}

/// Returns the end of the token before this place, if a semicolon is missing there.
fn semicolon_place(
    alloc: Global,
    text: &[u8],
    at: u32,
    offers: &[Offer],
    context: &Context<'_>,
) -> Result<Option<u32>, AllocError>
    ensures { IfOk result (λ o. IfSome o (λ place. MissesSemicolon text.now at place)) }
{
    if other_than_program(text).is_some() || !misses_semicolon(offers, context) {
        return Ok(None);
    }
    let front = part_before(text, at as usize);
    let end = size_to_last_token(front);
    if !is_gap(part_from(front, end)) || !may_follow(alloc, part_before(text, end), ";")? {
        return Ok(None);
    }
    Ok(Some(end as u32))
}

/// Explains a token that cannot come at this place of a text. A missing semicolon is explained at
/// the end of the statement before.
pub(crate) fn explain_syntax<'a>(
    alloc: Global,
    file: &'a str,
    text: &[u8],
    at: u32,
) -> Result<Explanation<'a>, AllocError>
    ensures { IfOk result (λ e. ExplainsSyntax file.now text.now at e) }
{
    let offers = offers_after(alloc, part_before(text, at as usize))?;
    let context = tokens_around(alloc, text, at as usize)?;
    if let Some(place) = semicolon_place(alloc, text, at, offers.as_slice(), &context)? {
        let sentence = format!(in alloc; "expected ';' here, before {}", Quoted(context.found))?;
        return about_place(alloc, file, text, Some(place), sentence.as_str());
    }
    let sentence = misplaced(alloc, text, offers.as_slice(), &context)?;
    about_place(alloc, file, text, Some(at), sentence.as_str())
}

/// The beginning of the text of a trace.
const TRACE: &[u8] = b"btrace ";

/// The beginning of a text that an editor saved with a byte-order mark.
const BYTE_ORDER_MARK: &[u8] = b"\xef\xbb\xbf";

/// The sentence on a line that ends in a carriage return and a line feed.
pub const ENDS_IN_CR_LF: &str = "the line ends in CR LF; end each line in LF only";

/// Returns the sentence on a text that is not a program, if its beginning tells its kind.
pub(crate) fn other_than_program(text: &[u8]) -> Option<&'static str> {
    if text.starts_with(TRACE) {
        return Some("this file is a trace; the program comes first");
    }
    if text.starts_with(BYTE_ORDER_MARK) {
        return Some("the file has a byte-order mark: save it as UTF-8 without one");
    }
    None
}

/// Returns whether a line ends in a carriage return and a line feed.
pub fn ends_in_cr_lf(line: Line<'_>) -> bool {
    line.is_ended && line.text.last() == Some(&b'\r')
}
