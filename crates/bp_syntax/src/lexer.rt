//! The lexer: the scan of a text into tokens. Tokens in succession without a separator. The depth
//! of nested statements. Reading a text: the lexer, the two limits on its tokens, and the parser.
ghost use Rattle.std.specs.Prelude.{true, ◌≡◌, ◌≤◌, ◌++◌, [], length, MatchResult, OnOk};
ghost use Rattle.bp_syntax.specs.Ast.{Program};
ghost use Rattle.bp_syntax.specs.Tokens as spelling;
ghost use Rattle.bp_syntax.specs.Tokens.{HasTokens, with_token};
ghost use Rattle.bp_syntax.specs.Texts as rule;
ghost use Rattle.bp_syntax.specs.Texts.{IsTextOf};
ghost use Rattle.bp_syntax.specs.Lexer.{IsScanError, token_list, first_too_many, first_too_deep};
ghost use Rattle.bp_syntax.specs.Refusals.{IsRefusal};
ghost use Rattle.bp_syntax.specs.declared.errors.ReadError.TheVariants.{Memory};

use crate::errors::ReadError;
use crate::lexemes::{FirstLexeme, first_lexeme};
use crate::limits::{NESTING_LIMIT, SUCCESSION_LIMIT, TEXT_LIMIT};
use crate::parser::parse;
use crate::tokens::{LexemeKind, Token, TokenKind, kind_of};
use crate::trees::Tree;
use std::alloc::{AllocError, Global};

/// Returns the tokens of a text, or its first bad byte, or its first open brace.
pub(crate) fn scan<'a>(alloc: Global, text: &'a [u8]) -> Result<Vec<Token<'a>>, ReadError>
    requires { length text.now ≤ TEXT_LIMIT }
    ensures { MatchResult result
        (λ ts. HasTokens text.now (token_list ts.items))
        (IsScanError text.now) }
{
    let mut tokens = Vec::new(alloc);
    let mut first_open = None;
    let mut at = 0;
    let mut rest = text;
    // No braced name begins in the next `nameless` bytes.
    let mut nameless = 0;
    while !rest.is_empty() {
        let len = match first_lexeme(rest, nameless) {
            FirstLexeme::Fits(kind, len) => {
                push_token(&mut tokens, kind, at as u32, rest.split_at(len).0)?;
                len
            }
            FirstLexeme::OpenBrace(count) => {
                first_open = first_open.or(Some(at as u32));
                nameless = count;
                1
            }
            FirstLexeme::BadByte => return Err(ReadError::BadByte(at as u32)),
        };
        at += len;
        rest = rest.split_at(len).1;
        nameless = nameless.saturating_sub(len);
    }
    match first_open {
        Some(at) => Err(ReadError::OpenName(at)),
        None => Ok(tokens),
    }
}

/// Adds the token of a lexeme, unless it is white or a comment.
fn push_token<'a>(
    tokens: &mut Vec<Token<'a>>,
    lexeme: LexemeKind,
    at: u32,
    text: &'a [u8],
) -> Result<(), AllocError>
    requires { spelling.fits lexeme text.now ≡ true }
    ensures { OnOk result (token_list tokens.new.items
        ≡ token_list tokens.old.items
        ++ with_token (spelling.kind_of lexeme text.now) at text.now []) }
{
    if let Some(kind) = kind_of(lexeme, text) {
        let Ok(text) = str::from_utf8(text) else {
            // A lexeme that is a token has only ASCII bytes.
            unreachable!()
        };
        tokens.push(Token { kind, at, text })?;
    }
    Ok(())
}

/// Returns whether a token of the kind separates successions.
fn is_separator(kind: TokenKind) -> bool
    ensures { result ≡ rule.is_separator kind }
{
    matches!(
        kind,
        TokenKind::Semicolon
            | TokenKind::Then
            | TokenKind::Do
            | TokenKind::Else
            | TokenKind::Fi
            | TokenKind::Od
            | TokenKind::Begin
            | TokenKind::End
    )
}

/// Returns the place of the first token that is one too many in succession without a separator.
pub(crate) fn first_too_many(tokens: &[Token]) -> Option<u32>
    ensures { result ≡ first_too_many 0 (token_list tokens.now) }
{
    let mut count = 0;
    for token in tokens {
        if is_separator(token.kind) {
            count = 0;
        } else if count < SUCCESSION_LIMIT {
            count += 1;
        } else {
            return Some(token.at);
        }
    }
    None
}

fn depth_after(kind: TokenKind, depth: usize) -> usize
    requires { depth ≤ NESTING_LIMIT }
    ensures { result ≡ rule.depth_after kind depth }
{
    match kind {
        TokenKind::If | TokenKind::While => depth + 1,
        TokenKind::Fi | TokenKind::Od => depth.saturating_sub(1),
        _ => depth,
    }
}

/// Returns the place of the first token that is too deep.
pub(crate) fn first_too_deep(tokens: &[Token]) -> Option<u32>
    ensures { result ≡ first_too_deep 0 (token_list tokens.now) }
{
    let mut depth = 0;
    for token in tokens {
        depth = depth_after(token.kind, depth);
        if depth > NESTING_LIMIT {
            return Some(token.at);
        }
    }
    None
}

/// Reads a program text. It is refused for the first error that applies, each searched for in the
/// whole text before the next: `TooLong`, `BadByte`, `OpenName`, `TooNested`, `TooManyTokens`,
/// `Syntax`. `Memory` may come only once the text is known to be not too long.
pub fn read(alloc: Global, text: &[u8]) -> Result<Tree, ReadError>
    ensures answer { MatchResult result (IsTextOf text.now) (IsRefusal text.now) }
    ensures whole { (p : Program) → IsTextOf text.now p
        → MatchResult result (λ t. t ≡ p) (λ e. e ≡ Memory) }
{
    if text.len() > TEXT_LIMIT {
        return Err(ReadError::TooLong);
    }
    let scanned = scan(alloc, text)?;
    let tokens = scanned.as_slice();
    if let Some(at) = first_too_deep(tokens) {
        return Err(ReadError::TooNested(at));
    }
    if let Some(at) = first_too_many(tokens) {
        return Err(ReadError::TooManyTokens(at));
    }
    let (globals, procs) = parse(alloc, tokens, text.len() as u32)?;
    let tree = Tree::new(alloc, globals, procs)?;
    Ok(tree)
}
