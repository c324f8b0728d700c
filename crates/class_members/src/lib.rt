//! Whether the members of a class table can stand beside one another (ECMA-335 II.22.15, II.22.26; ECMA-334 on
//! declarations in a class).
//!
//! ```text
//! class C { int Size; void Size() {} }     the two share a name and may not: the first of them is told
//! class C { class D {} int D; }            a member has the name of a nested type
//! interface I { int size; }                a field that can't stand where it stands
//! ```
#![tactic(auto)]

mod fieldless;
mod nested;
mod odd;
mod pair;
mod reference;
mod sign;
mod unique;

pub use unique::members_are_unique;
