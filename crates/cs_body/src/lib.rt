//! Method bodies as C# trees (ECMA-334, clauses 12 and 13).
//!
//! A [`Body`] has its home, its variables and its statements; statements hold expressions and statements. Variables and labels
//! are named by number, members by their number in the assembly.
#![tactic(auto)]

mod body;
mod tree;

pub use body::{Body, Home, Role, Var};
pub use tree::{BinaryOp, Case, Catch, Expr, Literal, Section, Stmt, UnaryOp};
