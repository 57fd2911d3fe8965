//! The first lexeme of a text.
//! The lexemes of a text, one after the other.
ghost use Rattle.std.specs.Prelude.{◌≡◌, ◌≤◌, ◌<◌, [], ◌∷◌, length, ◌↔◌, ◌⊎◌, Some, IsTrue, MatchOption};
ghost use Rattle.bp_syntax.specs.declared.tokens.LexemeKind.TheVariants.{White, Comment};
ghost use Rattle.bp_syntax.specs.Lexer.{run, is_continuation, comment, first_symbol, unbraced_lexeme, IsNameless, IsFirstLexeme, IsFirst, TakesLexeme};

use crate::tokens::{
    LexemeKind, constant, is_braced_byte, is_comment_byte, is_letter, is_white, is_word_byte,
    long_symbol, symbol,
};

/// The beginning of a text: a lexeme of some kind, or a byte that begins none.
#[derive(Clone, Copy, PartialEq, Eq)]
pub(crate) enum FirstLexeme {
    /// The longest lexeme that fits, and its length.
    Fits(LexemeKind, usize),
    /// A brace that begins no name. No name begins in this number of bytes from it on.
    OpenBrace(usize),
    /// Another byte that begins no lexeme.
    BadByte,
}

/// Returns whether a lexeme of the kind may continue with this byte after its first.
fn is_continuation(kind: LexemeKind, b: u8) -> bool
    ensures { result ≡ is_continuation kind b }
{
    match kind {
        LexemeKind::Identifier => is_word_byte(b),
        LexemeKind::Comment => is_comment_byte(b),
        LexemeKind::Braced => is_braced_byte(b),
        _ => false,
    }
}

/// Returns the number of further bytes that continue a lexeme of the kind.
fn run(kind: LexemeKind, text: &[u8]) -> usize
    ensures value { result ≡ run (is_continuation kind) text.now }
    ensures within { result ≤ length text.now }
{
    for (i, b) in text.iter().enumerate() {
        if !is_continuation(kind, *b) {
            return i;
        }
    }
    text.len()
}

/// Returns the comment that a slash before these bytes begins, and its length.
fn comment(rest: &[u8]) -> Option<(LexemeKind, usize)>
    ensures { result ≡ comment rest.now }
{
    if *rest.first()? == b'/' {
        Some((
            LexemeKind::Comment,
            2 + run(LexemeKind::Comment, &rest[1..]),
        ))
    } else {
        None
    }
}

/// Returns the symbol that begins the text, and its length.
fn first_symbol(first: u8, rest: &[u8]) -> Option<(LexemeKind, usize)>
    ensures { result ≡ first_symbol first rest.now }
{
    if let Some(second) = rest.first() {
        if long_symbol(first, *second).is_some() {
            return Some((LexemeKind::Symbol, 2));
        }
    }
    if symbol(first).is_some() {
        Some((LexemeKind::Symbol, 1))
    } else {
        None
    }
}

/// Returns the longest lexeme at the start of a text that begins with no brace, and its length.
fn unbraced_lexeme(first: u8, rest: &[u8]) -> Option<(LexemeKind, usize)>
    ensures { result ≡ unbraced_lexeme first rest.now }
{
    if is_letter(first) {
        Some((
            LexemeKind::Identifier,
            1 + run(LexemeKind::Identifier, rest),
        ))
    } else if is_white(first) {
        Some((LexemeKind::White, 1))
    } else if constant(first).is_some() {
        Some((LexemeKind::Constant, 1))
    } else if first == b'/' {
        comment(rest)
    } else {
        first_symbol(first, rest)
    }
}

/// Returns the lexeme that a brace before these bytes begins.
fn braced_lexeme(rest: &[u8]) -> FirstLexeme
    ensures { IsFirstLexeme (123 ∷ rest.now) result }
{
    let inside = run(LexemeKind::Braced, rest);
    if rest.get(inside).copied() == Some(b'}') {
        FirstLexeme::Fits(LexemeKind::Braced, inside + 2)
    } else {
        FirstLexeme::OpenBrace(inside + 1)
    }
}

/// Returns the first lexeme of a text in whose first `nameless` bytes no braced name begins. So no
/// byte is searched twice for the end of a name.
pub(crate) fn first_lexeme(text: &[u8], nameless: usize) -> FirstLexeme
    requires some { 0 < length text.now }
    requires nameless { IsNameless nameless text.now }
    ensures { IsFirstLexeme text.now result }
{
    let first = text[0];
    if first == b'{' {
        if nameless > 0 {
            FirstLexeme::OpenBrace(nameless)
        } else {
            braced_lexeme(&text[1..])
        }
    } else {
        match unbraced_lexeme(first, &text[1..]) {
            Some((kind, len)) => FirstLexeme::Fits(kind, len),
            None => FirstLexeme::BadByte,
        }
    }
}

/// A lexeme of a text: the longest that fits at its place, or one byte if none fits.
#[derive(Clone, Copy)]
pub struct Lexeme<'a> {
    /// The kind of the lexeme, or `None` for a byte that begins no lexeme.
    pub kind: Option<LexemeKind>,
    pub text: &'a [u8],
}

impl Lexeme<'_> {
    /// Returns whether the lexeme is white or a comment.
    pub fn is_gap(&self) -> bool
        ensures { IsTrue result ↔ ((self.now.kind ≡ Some White) ⊎ (self.now.kind ≡ Some Comment)) }
    {
        matches!(
            self.kind,
            Some(LexemeKind::White) | Some(LexemeKind::Comment)
        )
    }
}

/// Returns the kind and the size of the first lexeme of a text.
fn first_kind(text: &[u8]) -> (Option<LexemeKind>, usize)
    requires { 0 < length text.now }
    ensures { IsFirst result.0 text.now result.1 }
{
    match first_lexeme(text, 0) {
        FirstLexeme::Fits(kind, size) => (Some(kind), size),
        FirstLexeme::OpenBrace(_) => (None, 1),
        FirstLexeme::BadByte => (None, 1),
    }
}

/// Takes the first lexeme from a text, if any bytes are left.
pub fn take_lexeme<'a>(text: &mut &'a [u8]) -> Option<Lexeme<'a>>
    ensures lexeme { MatchOption result
        (text.old.now ≡ [])
        (λ p. TakesLexeme text.old.now p.kind p.text.now text.new.now) }
    ensures shorter { MatchOption result Unit (λ _. length text.new.now < length text.old.now) }
{
    let whole = *text;
    if whole.is_empty() {
        return None;
    }
    let (kind, size) = first_kind(whole);
    let (bytes, rest) = whole.split_at(size);
    *text = rest;
    Some(Lexeme { kind, text: bytes })
}
