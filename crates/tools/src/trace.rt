//! Tests of `bp_trace`: watchers of a replay.
mod watches;
