//! One instruction of CIL (ECMA-335 III), and the table of all of them (VI.C.2).
//!
//! ```text
//! bytes ─ opcode ─ line of the table ─ operand ─ instruction, and the place behind it
//! ```
//!
//! What an instruction does is not said here: the crates that say it stand on this one alone, and so do those that read
//! whole bodies.
#![tactic(auto)]

mod fault;
mod instruction;
mod laws;
mod opcode;
#[cfg(test)]
mod tests;

pub use fault::{BodyCause, BodyFault};
pub use instruction::{Found, Instr, Simple, entry, first, next, number};
pub use laws::{left_out_is_the_standards, one_instruction, table_is_the_standards};
pub use opcode::{LEFT_OUT, Op, Operand, TABLE};
