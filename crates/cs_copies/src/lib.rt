//! Copies of C# bodies, and of each part of one. A copy equals what it was made of.
#![tactic(auto)]

mod copying;
#[cfg(test)]
mod tests;

pub use copying::{
    copied_body, copied_case, copied_catch, copied_expr, copied_literal, copied_section,
    copied_stmt,
};
