//! Where the instructions of a body stand among its regions, and where they lead (ECMA-335 I.12.4.2.8, III.1.7.5).
//!
//! ```text
//! Body ─ places ─ RegionTree ─┐
//! rows ─ aims ────────────────┴─ a Spot for each instruction
//! ```
#![tactic(auto)]

mod aim;
mod head;
mod jump;
mod region;
mod spot;

pub use spot::spots;
