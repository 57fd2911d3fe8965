//! Tests of `bp_machine`: sessions by hand, and their attempts if memory is refused.
mod growths;
mod sessions;
