//! What the flags of types, fields and methods say (ECMA-335 II.23.1): from where they may be named, what a type is, and
//! whether a method has a slot of its own.
//!
//! ```text
//! type 0x100101: public, sealed        method 0x1C6: public, virtual, with a new slot        field 0x51: private, static, literal
//! ```
#![tactic(auto)]

mod access;
mod bits;
mod slot;
#[cfg(test)]
mod tests;

pub use access::{member_access, type_access};
pub use bits::{MemberFlag, TypeFlag, has_member_flag, has_type_flag};
pub use slot::virt_of;
