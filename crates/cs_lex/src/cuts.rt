// A text as tokens, up to its end or the first place where none stands.

ghost use Rattle.std.specs.Prelude.{◌≡◌, ◌≤◌, ◌^◌, length, None};
ghost use Rattle.std.specs.Str.{chars};
ghost use Rattle.cs_token.specs.Tokens.{token_at};
ghost use Rattle.cs_token.specs.Pieces.{Follows};
ghost use Rattle.cs_lex.specs.Lexed.{IsCut};
ghost use Rattle.cs_lex.specs.Cursors.{Counts};

use crate::Cursor;
use crate::places::advanced;
use cs_token::{Token, before, behind_gap};

/// Where tokens end: at the text's end, or at the first place where no token stands.
#[derive(Clone, Copy, Debug, PartialEq, Eq)]
pub struct End {
    pub line: usize,
    pub column: usize,
    /// Whether this is the text's end.
    pub whole: bool,
}

/// The tokens at the front of a text, as far as they go.
#[derive(Drop)]
pub struct Tokens<'a> {
    pub tokens: Cursor<'a>,
    pub end: End,
}

/// How many tokens stand at the front of a text, with gaps between them, and what stands behind the last one and its gap.
fn counted(text: &str) -> (usize, &str)
    requires { length text.now ≤ 2 ^ 31 }
    ensures count { Counts result.0 (chars text.now) (chars result.1.now) }
    ensures end { token_at (chars result.1.now) ≡ None }
    ensures ends { Follows result.1.now text.now }
{
    let mut count = 0;
    let mut left = text;
    while let Some((_token, rest)) = Token::first(left, 1, 1) {
        count += 1;
        left = behind_gap(rest);
    }
    (count, left)
}

/// Cuts a text into tokens, as far as they go.
pub fn cut(source: &str) -> Tokens<'_>
    requires { length source.now ≤ 2 ^ 31 }
    ensures { IsCut (chars source.now) result }
{
    let here = behind_gap(source);
    let place = advanced(before(source, here), 1, 1);
    let (left, rest) = counted(here);
    let (line, column) = advanced(before(source, rest), 1, 1);
    Tokens {
        tokens: Cursor::at(source, here, place, left),
        end: End {
            line,
            column,
            whole: rest.is_empty(),
        },
    }
}
