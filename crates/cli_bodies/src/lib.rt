//! The profile as far as the body of one method decides it: catches, the head of a constructor, and what follows an
//! `unbox`.
//!
//! ```text
//! CatchClass   a catch whose class is no exception              at its handler
//! CatchOrder   a catch that an earlier one of its try covers    at its handler
//! Head         the head of a constructor                        as told
//! Unbox        a value in a box that isn't read at once         at the `unbox`
//! ```
//!
//! Of several failures the one at the least offset counts, and there the first condition. That an instruction or a clause
//! isn't taken at all is told when the body is read.
#![tactic(auto)]

mod catches;
mod check;
mod least;
mod method;
mod named;
mod unboxes;

pub use check::check_body;
pub use method::{Failure, Method};
