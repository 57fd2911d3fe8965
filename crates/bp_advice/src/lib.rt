//! Explanations of errors of programs, for people: the place of an error in a text, the line, and
//! the expected tokens there or the mistake. Explanations of other errors share its parts.
#![tactic(auto)]

mod check_sentences;
mod contexts;
mod declarations;
mod explanations;
mod guesses;
mod mistakes;
mod offers;
mod read_sentences;
mod sentences;

pub use declarations::{first_procedure, tree_of};
pub use explanations::{
    Explanation, Place, about_line, explain_program, explained, lines_of, sentence_of,
};
pub use guesses::{near_entry, near_global, near_name};
pub use read_sentences::{ENDS_IN_CR_LF, ends_in_cr_lf};
pub use sentences::{Count, Named, Plain, Quoted, between, cut_name, listed, number_at_front};
