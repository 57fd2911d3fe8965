//! Texts: pieces and the calls that write them, lines and columns, fields, decimals, strings of
//! JSON, and a line with a caret. Nothing here knows of programs.
#![tactic(auto)]

mod decimals;
mod displayed_texts;
mod excerpts;
mod formats;
mod lines;
mod pieces;
mod sinks;

pub use decimals::{digits, number_of};
pub use displayed_texts::{no_control_is_displayed, push_displayed, strings_are_read_back};
pub use excerpts::{excerpt_of, push_line, push_place};
pub use formats::{
    Machine, after, after_word, bit_at, long_number_at, number_at, short_number_at, span_at,
};
pub use lines::{
    FIRST, Line, Position, after_all, first_line, last_line, line_of, part_before, part_from,
    position_from, position_of, push_on_one_line, take_line, text_from_line,
};
pub use pieces::{
    Piece, push_bytes, push_left, push_piece, push_pieces, push_right, push_spaces, put_pieces,
};
pub use sinks::{Sink, WriteError, put};
