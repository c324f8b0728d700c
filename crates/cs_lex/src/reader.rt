// The readers that those of the productions call.

ghost use Rattle.std.specs.Prelude.{◌≡◌, true, false, [], ◌∷◌, MatchResult, Ok, Err};
ghost use Rattle.cs_token.specs.Tokens.{kind_of};
ghost use Rattle.cs_grammar.specs.Kinds.{begins as begins_of, has as has_of};
ghost use Rattle.cs_grammar.specs.Grammar.{one};
ghost use Rattle.cs_grammar.specs.Reads.{Finds};

use crate::Cursor;
use cs_grammar::Fault;
use cs_token::Token;

fn has(kinds: &[u16], kind: u16) -> bool
    ensures { result ≡ has_of kinds.now kind }
{
    kinds.iter().any(|k| *k == kind)
}

/// Whether the next token is of one of these kinds.
pub fn begins(tokens: &Cursor, kinds: &[u16]) -> bool
    ensures { result ≡ begins_of (λ t. kind_of t.lexeme) kinds.now tokens.now }
{
    match tokens.peek() {
        Some(next) => has(kinds, next.kind()),
        None => false,
    }
}

/// Takes one token, of this kind.
pub fn expect(tokens: &mut Cursor, kind: u16) -> Result<(), Fault>
    ensures { Finds ((one (λ t. kind_of t.lexeme) (kind ∷ []) (λ _. tt)).reads tokens.old) result tokens.new }
{
    take_one(tokens, &[kind])?;
    Ok(())
}

/// Takes one token, of one of these kinds.
pub fn take_one<'a>(tokens: &mut Cursor<'a>, kinds: &[u16]) -> Result<Token<'a>, Fault>
    ensures { let read = (one (λ t. kind_of t.lexeme) kinds.now (λ t. t)).reads tokens.old in
        MatchResult result (λ taken. read ≡ Ok (taken, tokens.new)) (λ fault. (fault ≡ Fault.Unexpected) × (read ≡ Err (false, tokens.new))) }
{
    if !begins(tokens, kinds) {
        return Err(Fault::Unexpected);
    }
    match tokens.advance() {
        Some(taken) => Ok(taken),
        None => Err(Fault::Unexpected),
    }
}

/// Refuses a next token of one of these kinds as too deep.
pub fn limit(tokens: &Cursor, kinds: &[u16]) -> Result<(), Fault>
    ensures { MatchResult result (λ _. begins_of (λ t. kind_of t.lexeme) kinds.now tokens.now ≡ false)
        (λ fault. (fault ≡ Fault.TooDeep) × (begins_of (λ t. kind_of t.lexeme) kinds.now tokens.now ≡ true)) }
{
    if begins(tokens, kinds) {
        return Err(Fault::TooDeep);
    }
    Ok(())
}
