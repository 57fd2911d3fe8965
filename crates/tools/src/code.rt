//! Tests of `bp_code`: how operators bind, and a refused tree.
mod checks;
mod operators;
