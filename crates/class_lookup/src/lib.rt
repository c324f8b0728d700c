//! What a look-up of a name in a type finds: the members of that name of each type that is searched, by number; overrides
//! and members without a name are left out (ECMA-335 I.8.10.4; ECMA-334 on member look-up).
//!
//! ```text
//! class A { M(int)  M(string)  virtual N }      in B: M finds B.M, A.M(int), A.M(string)
//! class B : A { M()  override N }                     N finds A.N
//! ```
#![tactic(auto)]

mod found;
mod law;
mod rest;

pub use found::{Found, lookup};
pub use law::one_lookup;
