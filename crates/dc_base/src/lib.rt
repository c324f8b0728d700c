//! What every crate of the decompiler speaks of: the numbers that name types and members, the types of
//! values (ECMA-335 I.8.2), the texts and lists that public fields hold, the numbers that its heaps and
//! signatures spell ([`compressed`]), and the answer for want of memory.
#![tactic(auto)]

mod failure;
mod identifiers;
mod list;
mod names;
mod number;
mod stack;
mod text;
mod text16;
mod ty;

pub use failure::{NoMemory, Or};
pub use identifiers::{keyword, legal};
pub use list::Seq;
pub use names::{MemberId, Place, Token, TypeId};
pub use number::{compressed, one_number_begins};
pub use sqlite_items::{Boxed, Items};
pub use stack::Stack;
pub use text::Text;
pub use text16::Text16;
pub use ty::{Core, Prim_, Ty};
