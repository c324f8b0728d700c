//! Tests of the conditions on the body of one method, over small class tables.
#![tactic(auto)]

#[cfg(test)]
mod tests;
