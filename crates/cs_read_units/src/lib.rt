//! Readers of types, namespaces and whole texts (ECMA-334, 14.2, 14.3, 15.2, 16, 18, 19 and 20), each exactly its production in
//! `cs_units`.
//!
//! ```text
//! unit ─ namespace ─ type ─ enum · delegate · body ─ item ─ member (cs_read_members)
//!            └────────┘                       └─ type ─┘
//! ```
//!
//! Types stand in one another: a number says how many more may be opened, and recursion is by it alone. The expressions and blocks of
//! members are read by the closure of a [`Level`].
//!
//! [`Level`]: cs_read_calls::Level
#![tactic(auto)]

mod bodies;
mod delegates;
mod enums;
mod spaces;
mod supertypes;

pub use bodies::{item, kind, type_in_text};
pub use delegates::delegate_type;
pub use enums::enum_type;
pub use spaces::{placed_path, unit};
pub use supertypes::bases;
