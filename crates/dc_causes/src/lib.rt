//! Ordered causes: how a reader's definition says what it reads and what is wrong, so that 'one reading or the first
//! fault, and never both' is proved once.
//!
//! A step is a relation to its own answers, `Result A F → Type 0`: `Ok` with what is read, `Err` with the fault. Steps
//! are put together so that the first fault in their order counts:
//!
//! ```text
//! Gives a                  this value                       Traverse visit k items   what a step reads of each item
//! Test Fact fault          a fact, or this fault            Times count visit        what a step reads for each number
//! Reads Is fault           the value that is so, or this    InOrder asked causes     the first cause that faults
//! Told tell step           a step in other words            Each Fact fault items    the first item that isn't right
//! a ← first; next          `Then`: one step, then another   Least Fact fault         the least number that is so
//!                                                           Below bound visit        the least number that faults
//!                                                           Rounds round             the first round that faults
//! ```
//!
//! A reader is then its definition, its contract, and its law in the shape of the definition:
//!
//! ```text
//! ReadsHeaders : List ℕ → Step Headers ImageFault                                       -- in specs/
//! ReadsHeaders file = do
//!   signature ← Reads (IsU32 file 0x3C) (wrong NotPe 0)
//!   Test (IsU32 file signature pe_signature) (wrong NotPe 0x3C)
//!   Reads (IsPe file) (wrong NotPe (signature + 24))
//!
//! fn headers_of(file: &[u8]) -> Result<Headers, ImageFault>                             // in src/
//!     ensures read { IfOk result (ReadBy (ReadsHeaders file.now)) }
//!     ensures fault { IfErr result (FaultOf (ReadsHeaders file.now)) }
//!
//! single-headers : (file : List ℕ) → IsSingle (ReadsHeaders file)                       -- in proofs/
//! single-headers file =
//!     single-then _ _ (single-reads _ _ (one_number 4 file 0x3C)) (λ signature _.
//!     single-then _ _ (single-test _ _) (λ _ _. single-reads _ _ (one_headers file)))
//! ```
//!
//! A call that takes memory answers `Or<F>` and says `OnFault step`: want of memory is free. In its proof each return is
//! `stop` or `go` at each step: `go a read (go b read (stop fault fails refl))`. Of conditions that are asked of rows
//! [`first_broken`] finds the first that is broken, at its least row; [`first_broken_place`] finds the least place, and
//! there the first rule. [`least_repeated_key`] finds what stands twice.
#![tactic(auto)]

mod condition;
mod key;
mod laws;
#[cfg(test)]
mod tests;

pub use condition::{Condition, first_broken, first_broken_place};
pub use key::least_repeated_key;
pub use laws::{
    Parts, first_fault_in_order, one_answer, parts_keep_an_answer, parts_keep_one_answer,
};
