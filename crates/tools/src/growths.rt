//! Calls of several crates, with each allocation failing in turn: `.ci/growths` runs each test of a
//! module of this name with its Nth allocation failing. N counts upwards from the line that says
//! that all is ready to the one that says how the call ended. A refused call leaves borrowed values
//! as they were, and the same call returns the same again as if nothing had happened.
mod calls;
mod without_memory;
