//! The text of a statement on one line.
ghost use Rattle.std.specs.Prelude.{◌≡◌, ◌++◌, ◌∷◌, [], ◌≤◌, ◌<◌, length, IfOk, OnOk, MatchOption};
ghost use Rattle.bp_text.specs.Lines.{AddsOneLine, IsOneLine};
ghost use Rattle.bp_source.specs.SourceStatements.{is_choice, is_ending, is_gap, lexeme_text, IsAtEnd, IsStatement, Takes};

use bp_syntax::{Lexeme, LexemeKind, take_lexeme};
use bp_text::push_on_one_line;
use std::alloc::{AllocError, Global};

/// Returns whether these bytes end a statement's own text: `;` and two keywords do.
fn is_ending(bytes: &[u8]) -> bool
    ensures { result ≡ is_ending bytes.now }
{
    matches!(bytes, b";" | b"then" | b"do")
}

/// Returns whether an excerpt leaves the lexeme out: white and comments.
fn is_gap(lexeme: Lexeme<'_>) -> bool
    ensures { result ≡ is_gap lexeme.entry.kind }
{
    matches!(lexeme.kind, Some(LexemeKind::White | LexemeKind::Comment))
}

/// Returns whether these bytes are the sign of a choice.
fn is_choice(bytes: &[u8]) -> bool
    ensures { result ≡ is_choice bytes.now }
{
    matches!(bytes, b"?")
}

/// Takes the next lexeme of a statement's own text from the text, if one is left.
fn take_own_lexeme<'a>(text: &mut &'a [u8]) -> Option<Lexeme<'a>>
    ensures lexeme { MatchOption result
        (IsAtEnd text.old.now)
        (λ p. Takes text.old.now p.kind p.text.now text.new.now) }
    ensures shorter { MatchOption result Unit (λ _. length text.new.now < length text.old.now) }
{
    let Some(lexeme) = take_lexeme(text) else {
        return None;
    };
    if is_ending(lexeme.text) {
        return None;
    }
    Some(lexeme)
}

/// A statement's own text: one line, and whether it decides by a choice bit.
#[derive(Drop)]
pub struct Excerpt {
    pub text: Vec<u8>,
    pub reads_choice: bool,
}

/// Adds a lexeme, after a space if there was a gap; a gap adds nothing.
fn push_lexeme(line: &mut Vec<u8>, lexeme: Lexeme<'_>, had_gap: bool) -> Result<(), AllocError>
    ensures is { let word = lexeme_text had_gap lexeme.entry.kind lexeme.entry.text.now in
        OnOk result (line.new.items ≡ line.old.items ++ word) }
    ensures one_line { OnOk result (AddsOneLine line.old.items line.new.items) }
{
    if !is_gap(lexeme) {
        push_on_one_line(line, if had_gap { b" " } else { b"" })?;
        push_on_one_line(line, lexeme.text)?;
    }
    Ok(())
}

#[tactic(auto, using(bp_text::proofs::LinesOfTexts::one_line_after))]
/// Returns the text of the first statement alone: up to `;`, `then` or `do`.
pub(crate) fn excerpt_of(alloc: Global, text: &[u8]) -> Result<Excerpt, AllocError>
    ensures is { IfOk result (λ e. IsStatement text.now e.text.items e.reads_choice) }
    ensures one_line { IfOk result (λ e. IsOneLine e.text.items) }
{
    let mut line = Vec::new(alloc);
    let mut reads_choice = false;
    let mut had_gap = false;
    let mut rest = text;
    while let Some(lexeme) = take_own_lexeme(&mut rest) {
        push_lexeme(&mut line, lexeme, had_gap)?;
        had_gap = is_gap(lexeme);
        reads_choice |= is_choice(lexeme.text);
    }
    Ok(Excerpt {
        text: line,
        reads_choice,
    })
}
