//! The profile as far as the rows of own types and own members decide it: what a type is made of, and which types its members
//! name (ECMA-335 II.22).
//!
//! ```text
//! ValueType        a type that extends System.ValueType                          the type
//! RefShape         a field, or a method's result, that is a place by reference   the member
//! StaticShape      a static class with an instance member                        the type
//! NoConstructor    a class, not static, without an instance constructor          the type
//! InterfaceShape   a member of an interface, static or with a body               the member
//! Finalizer        an override of Object.Finalize                                the member
//! DelegateShape    a delegate without the usual constructor and Invoke           the type
//! EnumShape        an enum over no integer type, or with methods                 the type
//! ArrayDepth       a type with more than 32 brackets                             the member that names it
//! ```
//!
//! Of several failures that of the first condition counts, and there the one with the least token.
#![tactic(auto)]

mod check;
mod marks;
mod members;
mod own;
mod shape;
mod types;

pub use check::check_shapes;
pub use own::{Instances, Own, Told, is_sound};
