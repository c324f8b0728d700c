//! The head of a constructor: what it does before it has called a constructor of its own class or of the base on `this`
//! (ECMA-335 II.10.5.1; ECMA-334 on field initializers and constructor initializers).
//!
//! ```text
//! ldarg.0  VALUE  stfld f                   a field initializer, one for each store
//! ldarg.0  VALUE .. VALUE  call .ctor       the call at the end
//! ```
//!
//! A value is a tree: the number of the instruction that makes it, over the values that this one takes. `nop`s may stand
//! anywhere. What a beginning of a head makes on the stack stands in `specs/Begun`, what makes some code a head in
//! `specs/Head`, and which place a refusal tells in `specs/Fault`.
#![tactic(auto)]

mod begun;
mod constant;
mod end;
mod head;
mod known;
mod maker;
mod plain;
mod read;
mod row;
mod trees;

pub use constant::Constant;
pub use head::{Head, Store, Value};
pub use maker::Maker;
pub use read::{BadHead, bad_head, read_head};
pub use trees::trees_are_code;
