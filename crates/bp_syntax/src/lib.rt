//! The language of programs, as definitions that are apart from any code: tokens, grammar, trees,
//! scopes and limits. And what reads program texts: the lexer cuts a text into tokens, and the
//! parser makes a tree of them.
#![tactic(auto)]

mod checked_trees;
mod errors;
pub mod exprs;
mod laws;
mod lexemes;
mod lexer;
pub mod limits;
pub mod names;
mod parser;
pub mod procs;
pub mod stmts;
mod tokens;
mod trees;

pub use checked_trees::Checked;
pub use errors::{CheckError, ReadError};
pub use exprs::{Decider, Expr, Exprs, Op, Sub};
pub use laws::{has_names_on_one_line, has_one_cut, has_one_refusal, has_one_tree};
pub use lexemes::{Lexeme, take_lexeme};
pub use lexer::read;
pub use names::{Name, Names};
pub use procs::{Proc, Procs};
pub use stmts::{Block, Form, Stmt};
pub use tokens::{LexemeKind, TOKEN_KINDS, TokenKind, is_reserved, spelling_of};
pub use trees::Tree;
