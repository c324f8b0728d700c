//! The types that a text declares, as one list: each behind the type that it stands in, in the order of the text
//! (ECMA-334, 14.2, 14.3, 15.3.9).
//!
//! ```text
//! namespace A.B { class C { class D { } } class E { } }        A.B.C, in it A.B.C.D, A.B.E
//! ```
#![tactic(auto)]

mod declared;
mod scope;
mod walk;

pub use declared::{Declared, What, Within};
pub use scope::{dotted, joined};
pub use walk::declared_types;
