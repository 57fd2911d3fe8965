//! The operators between two operands, by their precedence.
ghost use Rattle.std.specs.Prelude.{◌≡◌};
ghost use Rattle.bp_syntax.specs.ParserState as rule;

use crate::exprs::Op;
use crate::tokens::TokenKind;

/// The precedence of an operator that associates to the left: the strongest first.
#[derive(Clone, Copy, PartialEq, Eq)]
pub(crate) enum Precedence {
    /// `=` and `!=`.
    Equality,
    /// `&`.
    Conjunction,
    /// `^`.
    Exclusion,
    /// `|`.
    Disjunction,
}

/// Returns the operator of the precedence for a token of the kind.
pub(crate) fn operator(precedence: Precedence, kind: TokenKind) -> Option<Op>
    ensures { result ≡ rule.operator precedence kind }
{
    match (precedence, kind) {
        (Precedence::Equality, TokenKind::Equal) => Some(Op::Equal),
        (Precedence::Equality, TokenKind::Differ) => Some(Op::Differ),
        (Precedence::Conjunction, TokenKind::Ampersand) => Some(Op::And),
        (Precedence::Exclusion, TokenKind::Caret) => Some(Op::Xor),
        (Precedence::Disjunction, TokenKind::Bar) => Some(Op::Or),
        _ => None,
    }
}
