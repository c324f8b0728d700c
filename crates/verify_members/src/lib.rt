//! Whether members are used as they may be (ECMA-335 I.8.5.3, III.3.19, III.4.2, III.4.21): what a delegate is made of, the
//! receivers of calls that go by no slot, and whether a member may be named from the method.
#![tactic(auto)]

mod access;
mod base;
mod delegate;
mod function;
mod receiver;

pub use access::keeps_access;
pub use base::is_by_base;
pub use delegate::keeps_delegate;
pub use receiver::keeps_receiver;
