//! Readers of members (ECMA-334, clause 15), each exactly its production in `cs_units`.
//!
//! ```text
//! modifiers (behind them) ─ member ─ field · constant · method · property · indexer · operator · constructor
//!                                      └─ parameters · accessors · an expression or a block, by the closure of `Level`
//! ```
//!
//! The expressions and blocks that stand in a member are read by the closure of a [`Level`], as those one level lower are in the
//! readers of expressions: here it is the whole depth of an expression that is left.
//!
//! [`Level`]: cs_read_calls::Level
#![tactic(auto)]

mod accessors;
mod constructors;
mod fields;
mod kinds_of_members;
mod methods;
mod parts;

pub use accessors::without_setter;
pub use constructors::maker;
pub use kinds_of_members::any_member;
pub use methods::more_parts;
pub use parts::{limit, named, params};
