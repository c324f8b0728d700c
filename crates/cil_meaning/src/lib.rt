//! What the instructions of CIL do (ECMA-335 III), as steps of a machine: a place in the code, a stack and
//! the arguments. A lone body's machine has four ints as arguments, and its stack holds ints.
#![tactic(auto)]

mod machine;
mod row;

pub use machine::{LoneState, LoneStepped, lone_step};
