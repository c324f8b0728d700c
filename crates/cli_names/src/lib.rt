//! The names of all types of a program: those of the references, and behind them those of the assembly itself, which is where
//! references to types look (ECMA-335 II.22.32, II.22.37).
//!
//! ```text
//! references: 0 System.Object        TypeDef: 1 <Module>   2 N.A   3 B, in row 2
//! names:      0 Object in System, at the top of the references   1 A in N, at the top of the assembly   2 B, in 1
//! ```
#![tactic(auto)]

mod names;
mod outers;
#[cfg(test)]
mod tests;
mod text;

pub use names::{own_types, type_names};
pub use outers::outers_of;
pub use text::text_at;
