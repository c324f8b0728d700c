// Why a body has no reading.

ghost use Rattle.std.specs.Prelude.{◌≡◌};
ghost use Rattle.dc_base.specs.declared.failure.Or.TheVariants.{Fault};

use dc_base::Or;
use thiserror::Error;

/// Why a body has no reading. Of several causes the one that is listed first counts, and of its places the least.
#[derive(Clone, Copy, Debug, PartialEq, Eq, Error)]
pub enum BodyCause {
    /// The bytes begin with no header.
    #[error("the bytes begin with no header")]
    BadHeader,
    /// The code is longer than the limit.
    #[error("the code is longer than the limit")]
    TooLong,
    /// The code passes the bytes, or an instruction the code.
    #[error("the bytes end too early")]
    Truncated,
    /// No instruction has the opcode.
    #[error("no instruction has the opcode {0:#x}")]
    BadOpcode(u16),
    /// The opcode is that of an instruction that isn't taken.
    #[error("the instruction with the opcode {0:#x} is not taken")]
    OutOfProfile(u16),
    /// The instruction leads to a place at which none starts.
    #[error("an instruction leads to a place at which none starts")]
    BadTarget,
    /// A section, or one of its clauses, doesn't stand as it has to.
    #[error("a section or a clause does not stand as it has to")]
    BadSection,
    /// A clause of a kind that isn't taken, which is given.
    #[error("a clause of the kind {0} is not taken")]
    OutOfProfileClause(u32),
}

/// Where and why a body has no reading. The place counts from the header's first byte, or for [`crate::next`] in the
/// code that is handed in.
#[derive(Clone, Copy, Debug, PartialEq, Eq, Error)]
#[error("{cause}, at {at}")]
pub struct BodyFault {
    pub cause: BodyCause,
    pub at: u32,
}

/// A fault of a body, where memory might have been wanted.
impl From<BodyFault> for Or<BodyFault> {
    ghost from_gives = { λ fault or. or ≡ Fault fault };

    fn from(fault: BodyFault) -> Self {
        Or::Fault(fault)
    }
}
