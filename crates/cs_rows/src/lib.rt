//! Worked rows of the C# grammar: lists of tokens, and the trees or faults that the productions give for them. They show that the
//! productions say what they are meant to say.
//!
//! ```text
//! tokens ─ expression | block      each row is a law of the productions, with no reader in it
//! ```
#![tactic(auto)]

mod rows;

pub use rows::{
    blocks_are_as_meant, casts_are_as_meant, depths_are_as_meant, kinds_are_as_meant,
    operators_are_as_meant,
};
