//! The rules of verification (ECMA-335 III.1.8, III.3 and III.4, in the profile): what each instruction asks of the frame
//! before it, and what frame it leaves.
//!
//! ```text
//! Setting   what the method has, and what its tokens mean ─┐
//! Spot      where the instruction stands                   ├─ the first rule that is broken, or the frame behind it
//! Row, frame                                               ─┘
//! ```
//!
//! The rules are asked in their order. What each asks stands in `specs/`, one file for each kind.
#![tactic(auto)]

mod held;
mod look;
mod rule;
mod setting;

pub use held::{Held, held_by, number_slot};
pub use look::{member_at, named_member, named_row, named_ty};
pub use rule::Rule;
pub use setting::{CoreTypes, Setting, Spot};
