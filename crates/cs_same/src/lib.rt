//! Whether two C# bodies are the same, and of each part of one. The answer is yes exactly where they are equal.
#![tactic(auto)]

mod sameness;
#[cfg(test)]
mod tests;

pub use sameness::{
    same_body, same_case, same_catch, same_expr, same_home, same_literal, same_role, same_section,
    same_stmt, same_variable,
};
