//! Mistakes of writers who know other languages, and the corrections.
use crate::contexts::{Context, is_name};
use crate::offers::Offer;
use crate::sentences::Named;
use bp_syntax::TokenKind::{self, Becomes, Close, Else, End, Fi, Od, Semicolon};
use bp_syntax::{is_reserved, spelling_of};
use std::alloc::{AllocError, Global};

/// A mistake, named for the writer's belief about the language.
#[derive(Clone, Copy, PartialEq, Eq)]
pub(crate) enum Mistake {
    /// `?` as a value.
    ChoiceAsValue,
    /// A call as a value.
    CallAsValue,
    /// A type before a variable, a procedure or a formal.
    TypedVariable,
    TypedProcedure,
    TypedFormal,
    /// More than one label after `goto`.
    ManyLabels,
    /// Another one, by its correction.
    Other(&'static str),
}

/// Returns whether the token of this kind is among the offers.
fn has_token(offers: &[Offer], kind: TokenKind) -> bool {
    offers.contains(&Offer::Token(kind))
}

/// Returns whether a name is among the offers, and no reserved word.
fn is_name_due(offers: &[Offer]) -> bool {
    let is_word = |offer: &Offer| match offer {
        Offer::Token(kind) => is_reserved(spelling_of(*kind).as_bytes()),
        _ => false,
    };
    offers.contains(&Offer::Name) && !offers.iter().any(is_word)
}

/// Returns whether only statements are among the offers, and no word that ends a body.
fn is_statement_due(offers: &[Offer]) -> bool {
    offers.contains(&Offer::Statement)
        && !has_token(offers, End)
        && !has_token(offers, Else)
        && !has_token(offers, Fi)
        && !has_token(offers, Od)
}

/// The words that end a body.
const BODY_ENDS: &[&[u8]] = &[b"end", b"else", b"fi", b"od"];

/// The words by which other languages begin a declaration.
const TYPES: &[&[u8]] = &[
    b"bool",
    b"boolean",
    b"int",
    b"bit",
    b"var",
    b"let",
    b"void",
    b"proc",
    b"procedure",
];

/// The words that begin the text after a statement or a declaration.
const BEGINNINGS: &[&[u8]] = &[
    b"skip", b"goto", b"return", b"if", b"while", b"assert", b"assume", b"print", b"end", b"else",
    b"fi", b"od", b"decl",
];

/// Returns the mistake in a declaration.
fn declaration_mistake(offers: &[Offer], context: &Context<'_>) -> Option<Mistake> {
    if context.found == b"decl".as_slice() && offers.contains(&Offer::End) {
        Some(Mistake::Other("globals are declared before the first procedure"))
    } else if context.found == b"decl".as_slice() && offers.contains(&Offer::Statement) {
        Some(Mistake::Other("locals are declared after 'begin', before the first statement"))
    } else if !TYPES.contains(&context.before) || !is_name(context.found) {
        None
    } else if has_token(offers, Close) {
        Some(Mistake::TypedFormal)
    } else if context.next == b"(".as_slice() {
        Some(Mistake::TypedProcedure)
    } else {
        Some(Mistake::TypedVariable)
    }
}

/// Returns the mistake in the order of statements.
fn statement_mistake(offers: &[Offer], context: &Context<'_>) -> Option<Mistake> {
    let is_else_if = matches!(context.called, b"elsif" | b"elif" | b"elseif" | b"elsf");
    if context.found == b"then".as_slice() && is_else_if {
        Some(Mistake::Other("there is no 'elsif': nest an 'if' in 'else'"))
    } else if BODY_ENDS.contains(&context.found) && has_token(offers, Else) {
        Some(Mistake::Other("each 'if' has an 'else': write 'else skip; fi'"))
    } else if BODY_ENDS.contains(&context.found) && is_statement_due(offers) {
        Some(Mistake::Other("write 'skip;' where there is nothing to do"))
    } else if context.before == b"return".as_slice() && has_token(offers, Semicolon) {
        Some(Mistake::Other("'return' has no value: assign it to a global, then 'return;'"))
    } else if context.found == b";".as_slice() && offers.contains(&Offer::Statement) {
        Some(Mistake::Other("leave out this ';'"))
    } else {
        None
    }
}

/// Returns the mistake in place of an expression: the token may be the second byte of another
/// language's operator.
fn operator_mistake(found: &[u8]) -> Option<Mistake> {
    match found {
        b"=" => Some(Mistake::Other("equality is written '='")),
        b"|" => Some(Mistake::Other("'or' is written '|'")),
        b"&" => Some(Mistake::Other("'and' is written '&'")),
        b"?" => Some(Mistake::ChoiceAsValue),
        _ => None,
    }
}

/// Returns the mistake in a value.
fn value_mistake(offers: &[Offer], context: &Context<'_>) -> Option<Mistake> {
    if context.found == b"=".as_slice() && has_token(offers, Becomes) {
        Some(Mistake::Other("an assignment is written ':='"))
    } else if is_name_due(offers) && is_reserved(context.found) {
        Some(Mistake::Other("that is a reserved word"))
    } else if offers.contains(&Offer::Expression) {
        operator_mistake(context.found)
    } else if context.found == b"(".as_slice()
        && offers.contains(&Offer::Operator)
        && is_name(context.before)
    {
        Some(Mistake::CallAsValue)
    } else {
        None
    }
}

/// Returns the mistake in a statement of another dialect.
fn dialect_mistake(context: &Context<'_>) -> Option<Mistake> {
    let is_atomic = matches!(context.before, b"atomic_begin" | b"atomic_end");
    if context.found == b",".as_slice() && context.second == b"goto".as_slice() {
        Some(Mistake::ManyLabels)
    } else if context.found == b";".as_slice() && is_atomic {
        Some(Mistake::Other(
            "there are no atomic blocks: a parallel assignment is one step, a lock guards more",
        ))
    } else if context.before == b"dead".as_slice() && is_name(context.found) {
        Some(Mistake::Other("leave this out: a value that nobody reads does no harm"))
    } else if context.found == b"constrain".as_slice() {
        Some(Mistake::Other("write 'assume (..);' after the assignment"))
    } else {
        None
    }
}

/// Returns the mistake at a place with these offers and tokens.
pub(crate) fn mistake_at(offers: &[Offer], context: &Context<'_>) -> Option<Mistake> {
    dialect_mistake(context)
        .or(declaration_mistake(offers, context))
        .or(statement_mistake(offers, context))
        .or(value_mistake(offers, context))
}

/// Returns whether the token at the place begins the text after a statement or a declaration. A
/// name may continue an expression instead: on the same line the token after it decides.
fn begins_next(context: &Context<'_>) -> bool {
    if BEGINNINGS.contains(&context.found) {
        return true;
    }
    let is_returned = context.before == b"return".as_slice() && !context.is_on_new_line;
    if !is_name(context.found) || is_returned {
        return false;
    }
    context.is_on_new_line || matches!(context.next, b":=" | b"(" | b":" | b",")
}

/// Returns whether a semicolon is missing before the token at a place with these offers.
pub(crate) fn misses_semicolon(offers: &[Offer], context: &Context<'_>) -> bool {
    has_token(offers, Semicolon) && begins_next(context) && context.found != b"constrain".as_slice()
}

/// Explains how a choice becomes a value: that of a variable, if it is the first value of it.
fn choice(alloc: Global, context: &Context<'_>) -> Result<String, AllocError> {
    let is_alone = context.third != b",".as_slice();
    if context.before != b":=".as_slice() || !is_alone || !is_name(context.second) {
        return format!(in alloc; "; a choice stands alone in a condition, as in 'if (?)'");
    }
    let name = Named(context.second);
    format!(in alloc;
        "; a choice stands alone in a condition: \
        write 'if (?) then {name} := 1; else {name} := 0; fi'"
    )
}

/// Advises how to correct a mistake at a place with these tokens around it.
pub(crate) fn advice(
    alloc: Global,
    mistake: Mistake,
    context: &Context<'_>,
) -> Result<String, AllocError> {
    let (before, found) = (Named(context.before), Named(context.found));
    match mistake {
        Mistake::ChoiceAsValue => choice(alloc, context),
        Mistake::CallAsValue => format!(in alloc;
            "; a call has no value: let '{before}' assign a global, \
            and write '{before}(..);' before this statement"
        ),
        Mistake::ManyLabels => {
            let next = Named(context.next);
            format!(in alloc;
                "; 'goto' has one label: write 'if (?) then goto {before}; else goto {next}; fi'"
            )
        }
        Mistake::TypedVariable => format!(in alloc; "; a variable is declared by 'decl {found};'"),
        Mistake::TypedProcedure => format!(in alloc;
            "; a procedure begins with its name: write '{found}(..) begin .. end'"
        ),
        Mistake::TypedFormal => format!(in alloc; "; a formal is a name alone: write '{found}'"),
        Mistake::Other(words) => format!(in alloc; "; {words}"),
    }
}
