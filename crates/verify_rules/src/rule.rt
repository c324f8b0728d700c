// The rules.

use thiserror::Error;

/// A rule that an instruction breaks. Of several, the first in this order counts.
#[derive(Clone, Copy, Debug, PartialEq, Eq, Error)]
pub enum Rule {
    #[error("fewer slots than the instruction takes")]
    Underflow,
    #[error("a frame is deeper than the method's limit")]
    MaxStack,
    #[error("the code or a region ends without a jump")]
    FallOff,
    #[error("a jump that may not lead there")]
    Jump,
    #[error("a stack that isn't empty where it has to be")]
    Empty,
    #[error("locals that don't begin as zeros")]
    InitLocals,
    #[error("a slot of a kind that the instruction doesn't take")]
    Kind,
    #[error("an integer for a truth")]
    Truth,
    #[error("a reference or an address whose type doesn't fit")]
    Assign,
    #[error("another receiver in place of the method's own")]
    ThisStore,
    #[error("a field stored to that is written by its type's constructor alone")]
    InitOnly,
    #[error("a call on a receiver on which it may not be made")]
    Receiver,
    #[error("something between the making of an address and its use")]
    Gap,
    #[error("a slot that may not stand over a jump")]
    Border,
    #[error("frames that don't agree where they meet")]
    Merge,
    #[error("a member that may not be named here")]
    Access,
}
