//! Least maps of facts that flow over instructions (ECMA-335 III.1.8.1).
#![tactic(auto)]
