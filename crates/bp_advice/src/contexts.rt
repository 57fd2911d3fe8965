//! The tokens around a place of a program text.
ghost use Rattle.std.specs.Prelude.{◌≤◌, [], length, IsTrue};
ghost use Rattle.bp_syntax.specs.Tokens.{HasTokens};

use bp_syntax::{is_reserved, take_lexeme};
use bp_text::{part_before, part_from};
use std::alloc::{AllocError, Global};

/// The tokens around a place of a text. A missing one has no bytes.
#[derive(Clone, Copy)]
pub(crate) struct Context<'a> {
    /// The third token before the place, the second, and the one right before it.
    pub(crate) third: &'a [u8],
    pub(crate) second: &'a [u8],
    pub(crate) before: &'a [u8],
    /// The last name before the place that a bracket follows, as in a call.
    pub(crate) called: &'a [u8],
    /// The token at the place, and the one after it.
    pub(crate) found: &'a [u8],
    pub(crate) next: &'a [u8],
    /// Whether the place is on a later line than the token before it.
    pub(crate) is_on_new_line: bool,
}

/// Returns whether the token is a name.
pub(crate) fn is_name(token: &[u8]) -> bool {
    match token.first() {
        Some(b'a'..=b'z' | b'A'..=b'Z' | b'_') => !is_reserved(token),
        Some(b'{') => token.len() > 1,
        _ => false,
    }
}

/// Returns the number of bytes up to and including the last token of a text.
pub(crate) fn size_to_last_token(text: &[u8]) -> usize
    ensures { result ≤ length text.now }
{
    let mut rest = text;
    let mut size = 0;
    while let Some(lexeme) = take_lexeme(&mut rest) {
        if !lexeme.is_gap() {
            size = text.len().saturating_sub(rest.len());
        }
    }
    size
}

/// Returns whether a text is only white space and comments.
pub(crate) fn is_gap(text: &[u8]) -> bool
    ensures { IsTrue result → HasTokens text.now [] }
{
    let mut rest = text;
    while let Some(lexeme) = take_lexeme(&mut rest) {
        if !lexeme.is_gap() {
            return false;
        }
    }
    true
}

/// Returns the tokens of a text, up to the first byte that begins none.
pub(crate) fn tokens_of(alloc: Global, text: &[u8]) -> Result<Vec<&[u8]>, AllocError> {
    let mut tokens = Vec::new(alloc);
    let mut rest = text;
    while let Some(lexeme) = take_lexeme(&mut rest) {
        if !lexeme.is_gap() {
            tokens.push(lexeme.text)?;
        }
    }
    Ok(tokens)
}

/// Returns the token of this place, or no bytes if there is none.
fn nth<'a>(tokens: &[&'a [u8]], place: usize) -> &'a [u8] {
    match tokens.get(place) {
        Some(token) => token,
        None => b"",
    }
}

/// Returns the name right before the first bracket that follows one, in tokens read backwards.
fn last_called<'a>(backwards: &[&'a [u8]]) -> &'a [u8] {
    let names = backwards.iter().skip(1);
    let mut pairs = backwards.iter().zip(names);
    match pairs.find(|(token, name)| **token == b"(".as_slice() && is_name(name)) {
        Some((_, name)) => name,
        None => b"",
    }
}

/// Returns the tokens around this place of a text.
pub(crate) fn tokens_around(
    alloc: Global,
    text: &[u8],
    at: usize,
) -> Result<Context<'_>, AllocError> {
    let front = part_before(text, at);
    let gap = part_from(front, size_to_last_token(front));
    let mut before = tokens_of(alloc, front)?;
    before.reverse();
    let after = tokens_of(alloc, part_from(text, at))?;
    Ok(Context {
        third: nth(&before, 2),
        second: nth(&before, 1),
        before: nth(&before, 0),
        called: last_called(&before),
        found: nth(&after, 0),
        next: nth(&after, 1),
        is_on_new_line: gap.contains(&b'\n'),
    })
}

/// Returns the token at this place of a text; it has no bytes at the end.
pub(crate) fn token_at(text: &[u8], at: usize) -> &[u8] {
    let mut rest = part_from(text, at);
    match take_lexeme(&mut rest) {
        Some(lexeme) => lexeme.text,
        None => part_before(text, 0),
    }
}
