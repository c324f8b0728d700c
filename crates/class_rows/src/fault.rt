// Why rows make no class table.

use dc_base::{MemberId, TypeId};
use thiserror::Error;

/// The part that fails, with the least number at which it does.
#[derive(Clone, Copy, Debug, PartialEq, Eq, Error)]
pub enum TableFault {
    #[error("a chain of bases or of outer types of this type doesn't end")]
    Cycle(TypeId),
    #[error("another type or a namespace has the full name of this type")]
    Twice(TypeId),
    #[error("this member can't stand beside another one, or can't stand in its type")]
    Duplicate(MemberId),
    #[error("this type names a type that isn't there or doesn't fit")]
    MissingBase(TypeId),
    #[error("this one of the core types isn't there")]
    MissingCore(u8),
    #[error("this class has no implementer of this method of an interface")]
    Unimplemented(TypeId, MemberId),
}
