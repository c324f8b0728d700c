// Why an assembly is refused for a signature.

ghost use Rattle.std.specs.Prelude.{◌≡◌};
ghost use Rattle.dc_base.specs.declared.failure.Or.TheVariants.{Fault};

use cli_metadata::MetaFault;
use cli_signature::SigFault;
use dc_base::{Or, Token};
use thiserror::Error;

/// Why a row has no signature: there is no blob, or it is none.
#[derive(Clone, Copy, Debug, PartialEq, Eq, Error)]
pub enum SigCause {
    #[error("{0}")]
    Meta(MetaFault),
    #[error("{0}")]
    Sig(SigFault),
}

/// The token of a row that has no signature, and why.
#[derive(Clone, Copy, Debug, PartialEq, Eq, Error)]
#[error("{:08x}: {cause}", .token.0)]
pub struct SigRefusal {
    pub token: Token,
    pub cause: SigCause,
}

impl From<SigRefusal> for Or<SigRefusal> {
    ghost from_gives = { λ refusal or. or ≡ Fault refusal };

    fn from(refusal: SigRefusal) -> Self {
        Or::Fault(refusal)
    }
}
