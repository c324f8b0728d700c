//! The rows of a class table: types and members, by their numbers, and what it means that they make one
//! (ECMA-335 II.8, II.10).
#![tactic(auto)]

mod fault;
mod row;

pub use fault::TableFault;
pub use row::{Access, Kind, Literal, MemberKind, MemberRow, Param, Sort, TypeRow, Virt, Way};
