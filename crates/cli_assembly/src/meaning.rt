// What tokens mean.

ghost use Rattle.std.specs.Prelude.{◌≡◌, ◌≤◌, length, true, false, nat_lt, slice_get};
ghost use Rattle.std.specs.Option.{option_copied};
ghost use Rattle.std.specs.List.Sorted.{IsPartitionPoint};
ghost use Rattle.cli_assembly.specs.Meaning.{AreInOrder, MeaningsAreMeant, meaning, number_of};

use dc_base::{MemberId, Seq, Text16, Token, Ty};

/// What a token that an instruction, a local signature or a catch names stands for (ECMA-335 III.1.9): a type, a member,
/// the types of the locals, or a text of the user strings.
#[derive(Debug, Drop)]
pub enum Named {
    OfType(Ty),
    OfMember(MemberId),
    OfLocals(Seq<Ty>),
    OfText(Text16),
}

/// What a token means among `tokens`, which stand in their order, each once. None where it isn't among them.
pub fn meaning_of(tokens: &[(Token, Named)], token: Token) -> Option<&Named>
    requires { AreInOrder tokens.now }
    ensures { option_copied result ≡ meaning tokens.now token }
{
    let number = below(tokens, token);
    match tokens.get(number) {
        Some((found, named)) if found.0 == token.0 => Some(named),
        _ => None,
    }
}

// How many of the tokens are below this one.
fn below(tokens: &[(Token, Named)], token: Token) -> usize
    requires { AreInOrder tokens.now }
    ensures within { result ≤ length tokens.now }
    ensures parts { IsPartitionPoint (λ e. nat_lt (number_of e) token.0 ≡ true) (λ e. nat_lt (number_of e) token.0 ≡ false) tokens.now result }
{
    tokens.partition_point(|e| e.0.0 < token.0)
}

/// A law, and no step: among tokens in their order one means what stands beside it, and nothing else.
pub fn tokens_mean()
    ensures { MeaningsAreMeant }
{}
