// A whole text as tokens, or the place where none stands.

ghost use Rattle.std.specs.Prelude.{◌≤◌, ◌^◌, length, IfOk, IfErr};
ghost use Rattle.std.specs.Str.{chars};
ghost use Rattle.cs_lex.specs.Lexed.{IsLexed, Stops, HasOneAnswer};

use crate::{Cursor, End, Tokens, cut};
use thiserror::Error;

/// The first place where no token stands.
#[derive(Clone, Copy, Debug, PartialEq, Eq, Error)]
#[error("no token at {line}:{column}")]
pub struct LexFault {
    pub line: usize,
    pub column: usize,
}

/// The tokens of a text, and the place of its end.
#[derive(Drop)]
pub struct Lexed<'a> {
    pub tokens: Cursor<'a>,
    pub line: usize,
    pub column: usize,
}

/// Cuts a whole text into tokens.
pub fn lex(source: &str) -> Result<Lexed<'_>, LexFault>
    requires { length source.now ≤ 2 ^ 31 }
    ensures ok { IfOk result (λ lexed. IsLexed (chars source.now) lexed) }
    ensures fault { IfErr result (Stops (chars source.now)) }
{
    let Tokens { tokens, end } = cut(source);
    let End {
        line,
        column,
        whole,
    } = end;
    if whole {
        Ok(Lexed {
            tokens,
            line,
            column,
        })
    } else {
        Err(LexFault { line, column })
    }
}

/// A text is one list of tokens and no other, or has one first place where none stands, and never both.
pub fn one_answer()
    ensures { HasOneAnswer }
{}
