// The first of some tokens that stands for nothing.

ghost use Rattle.std.specs.Prelude.{IfSome, IfNone};
ghost use Rattle.cli_tokens.specs.Faults.{IsFirst, NoneFails, IsNext};

use crate::least::{TokenFault, lesser};
use crate::token_fault;
use cli_metadata::Metadata;
use dc_base::Token;

/// The least of these tokens that stands for nothing, with its fault. It takes the time of one look at each. Takes no memory.
#[tactic(auto, using(crate::proofs::UpTo::all_some, crate::proofs::UpTo::all_none))]
pub fn first_token_fault(metadata: &Metadata, tokens: &[Token]) -> Option<TokenFault>
    ensures some { IfSome result (IsFirst metadata.now tokens.now) }
    ensures none { IfNone result (NoneFails metadata.now tokens.now) }
{
    let mut least = None;
    for token in tokens {
        least = with(metadata, *token, least);
    }
    least
}

// The least fault, with that of one more token.
fn with(metadata: &Metadata, token: Token, least: Option<TokenFault>) -> Option<TokenFault>
    ensures { IsNext metadata.now token least result }
{
    match token_fault(metadata, token) {
        Some(fault) => Some(lesser(least, TokenFault { token, fault })),
        None => least,
    }
}
