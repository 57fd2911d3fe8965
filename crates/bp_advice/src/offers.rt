//! The possible continuations of a text, in few words: if all tokens of a group may follow, they
//! are named by the group's name. The tokens that may come next in a text.
ghost use Rattle.std.specs.Prelude.{◌≡◌, ◌↔◌, ◌++◌, ◌∷◌, IsTrue, IfOk, Contains};
ghost use Rattle.bp_syntax.specs.declared.tokens.TokenKind.{TokenKind};
ghost use Rattle.bp_syntax.specs.declared.errors.ReadError.TheVariants.{Syntax, Memory};
ghost use Rattle.bp_advice.specs.Explanations.{IsProgram, BeginsProgram, MayFollow, IsJudged};

use crate::sentences::between;
use bp_syntax::TokenKind::{
    self, Ampersand, Assert, Assume, Bang, Bar, Caret, Differ, Equal, Goto, If, Implies, Name, One,
    Open, Print, Return, Skip, While, Zero,
};
use bp_syntax::{ReadError, TOKEN_KINDS, has_one_refusal, read, spelling_of};
use std::alloc::{AllocError, Global};
use std::fmt;
use std::fmt::Write;

/// The tokens that begin a statement, if no limit prevents one.
const STATEMENT: [TokenKind; 9] = [Skip, Goto, Return, If, While, Assert, Assume, Print, Name];

/// The tokens that begin an expression.
const EXPRESSION: [TokenKind; 5] = [Zero, One, Bang, Open, Name];

/// The tokens between the two sides of an expression.
const OPERATOR: [TokenKind; 6] = [Bar, Caret, Ampersand, Equal, Differ, Implies];

/// A possible continuation of a text.
#[derive(Clone, Copy, PartialEq, Eq)]
pub(crate) enum Offer {
    Statement,
    Expression,
    Operator,
    Name,
    /// The end of the text.
    End,
    /// The token of this kind.
    Token(TokenKind),
}

/// Offers the group by its name, in place of its tokens, if it has all of these.
fn offer_group(
    kinds: &mut Vec<TokenKind>,
    group: &[TokenKind],
    offer: Offer,
    offers: &mut Vec<Offer>,
) -> Result<(), AllocError> {
    if group.iter().all(|kind| kinds.contains(kind)) {
        offers.push(offer)?;
        kinds.retain(|kind| !group.contains(kind));
    }
    Ok(())
}

/// Returns the offer of a token of its own.
fn offer_of(kind: TokenKind) -> Offer {
    if kind == TokenKind::Name {
        Offer::Name
    } else {
        Offer::Token(kind)
    }
}

/// Returns the possible continuations of a text.
pub(crate) fn offers_after(alloc: Global, front: &[u8]) -> Result<Vec<Offer>, AllocError> {
    let mut kinds = kinds_after(alloc, front)?;
    let mut offers = Vec::new(alloc);
    offer_group(&mut kinds, &STATEMENT, Offer::Statement, &mut offers)?;
    offer_group(&mut kinds, &EXPRESSION, Offer::Expression, &mut offers)?;
    offer_group(&mut kinds, &OPERATOR, Offer::Operator, &mut offers)?;
    for kind in kinds.as_slice() {
        offers.push(offer_of(*kind))?;
    }
    if may_end(alloc, front)? {
        offers.push(Offer::End)?;
    }
    Ok(offers)
}

impl fmt::Display for Offer {
    fn fmt<W: fmt::Write>(&self, f: &mut fmt::Formatter<W>) -> fmt::Result {
        match self {
            Offer::Statement => write!(f, "a statement"),
            Offer::Expression => write!(f, "an expression"),
            Offer::Operator => write!(f, "an operator"),
            Offer::Name => write!(f, "a name"),
            Offer::End => write!(f, "the end of the text"),
            Offer::Token(kind) => write!(f, "'{}'", spelling_of(*kind)),
        }
    }
}

/// Returns the offers, with commas and an `or` between them.
pub(crate) fn list_of(alloc: Global, offers: &[Offer]) -> Result<String, AllocError> {
    let mut list = String::new(alloc);
    for (place, offer) in offers.iter().enumerate() {
        let before = between(place, offers.len(), " or ");
        write!(list, "{before}{offer}")?;
    }
    Ok(list)
}

/// Returns whether the error is that of refused memory.
fn is_memory(error: &ReadError) -> bool
    ensures { IsTrue result ↔ (error.now ≡ Memory) }
{
    matches!(error, ReadError::Memory)
}

/// Returns whether the error is that a text of this size ends too early.
fn is_early_end(error: &ReadError, size: usize) -> bool
    ensures { IsTrue result ↔ (error.now ≡ Syntax size) }
{
    match error {
        ReadError::Syntax(at) => *at as usize == size,
        _ => false,
    }
}

fn begins_program(alloc: Global, text: &[u8]) -> Result<bool, AllocError>
    ensures { IfOk result (λ b. IsTrue b ↔ BeginsProgram text.now) }
{
    has_one_refusal();
    let error = match read(alloc, text) {
        Ok(_) => return Ok(true),
        Err(error) => error,
    };
    if is_memory(&error) {
        return Err(AllocError);
    }
    Ok(is_early_end(&error, text.len()))
}

/// Returns the front and then the token on a line of its own: the front may end with a comment.
fn text_with(alloc: Global, front: &[u8], token: &[u8]) -> Result<Vec<u8>, AllocError>
    ensures { IfOk result (λ v. v.items ≡ front.now ++ 10 ∷ token.now) }
{
    let mut text = Vec::new(alloc);
    text.extend_from_slice(front)?;
    text.push(b'\n')?;
    text.extend_from_slice(token)?;
    Ok(text)
}

/// Returns whether a program begins with the front and then this token.
pub(crate) fn may_follow(alloc: Global, front: &[u8], token: &str) -> Result<bool, AllocError>
    ensures { IfOk result (λ b. IsTrue b ↔ MayFollow front.now token.now) }
{
    let text = text_with(alloc, front, token.as_bytes())?;
    begins_program(alloc, text.as_slice())
}

/// Returns the kinds of the tokens that may follow the front. One name is tried for all.
pub(crate) fn kinds_after(alloc: Global, front: &[u8]) -> Result<Vec<TokenKind>, AllocError>
    ensures { IfOk result (λ v. (kind : TokenKind)
        → IsJudged front.now kind (Contains v.items kind)) }
{
    let mut kinds = Vec::new(alloc);
    let all = TOKEN_KINDS;
    for kind in &all {
        if may_follow(alloc, front, spelling_of(*kind))? {
            kinds.push(*kind)?;
        }
    }
    Ok(kinds)
}

/// Returns whether the front is a program.
pub(crate) fn may_end(alloc: Global, front: &[u8]) -> Result<bool, AllocError>
    ensures { IfOk result (λ b. IsTrue b ↔ IsProgram front.now) }
{
    has_one_refusal();
    let error = match read(alloc, front) {
        Ok(_) => return Ok(true),
        Err(error) => error,
    };
    if is_memory(&error) {
        return Err(AllocError);
    }
    Ok(false)
}
