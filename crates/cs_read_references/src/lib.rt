//! Readers of reference texts (ECMA-334, clauses 14 to 20), each exactly its production in `cs_references`.
//!
//! ```text
//! text ─ namespace ─ type ─ enum · delegate · body ─ item ─ member ─ parameters · accessors · the value of a constant
//!            └────────┘                       └─ type ─┘
//! ```
//!
//! Types stand in one another: a number says how many more may be opened, and recursion is by it alone.
#![tactic(auto)]

mod accessors;
mod bodies;
mod fields;
mod kinds_of_members;
mod methods;
mod spaces;
mod values;

pub use spaces::reference_text;
