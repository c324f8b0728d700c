//! Signatures: the blobs that say of a field, a method, a property or a list of locals which types it has
//! (ECMA-335 II.23.2).
//!
//! A blob is a lead byte, for all but a field a count, and then types. A type is BYREF or not, any number of
//! SZARRAY, and an element, behind which CLASS and VALUETYPE have the number of a type. Numbers stand in
//! their shortest spelling. A fault is at the first byte with which no signature goes on.
#![tactic(auto)]

mod element;
mod kind;
mod laws;
mod number;
mod raw;
mod signature;
#[cfg(test)]
mod tests;
mod ty;

pub use laws::one_reading;
pub use raw::{MethodSig, RawTy, SigFault};
pub use signature::{field_sig, local_sig, method_sig, property_sig};
