// The lesser of two faults.

ghost use Rattle.cli_tokens.specs.Faults.{IsLesser};

use cli_metadata::MetaFault;
use dc_base::Token;
use thiserror::Error;

/// A token that stands for nothing, and why.
#[derive(Clone, Copy, Debug, PartialEq, Eq, Error)]
#[error("{:08x}: {fault}", .token.0)]
pub struct TokenFault {
    pub token: Token,
    pub fault: MetaFault,
}

// The one whose token is less.
pub(crate) fn lesser(least: Option<TokenFault>, other: TokenFault) -> TokenFault
    ensures { IsLesser least other result }
{
    match least {
        Some(least) if least.token.0 <= other.token.0 => least,
        _ => other,
    }
}
