// Lines and columns.

ghost use Rattle.std.specs.Prelude.{◌≡◌, ◌+◌, ◌^◌, ◌<◌, length, IsUtf8};
ghost use Rattle.std.specs.Str.{chars};
ghost use Rattle.cs_token.specs.Cuts.{place_after};
ghost use Rattle.cs_lex.specs.Places.{next_place, HasRoom};

use cs_token::split_first;

/// Line and column behind a character.
fn stepped(line: usize, column: usize, c: char) -> (usize, usize)
    requires line { line + 1 < 2 ^ 64 }
    requires column { column + 1 < 2 ^ 64 }
    ensures { result ≡ next_place line column c }
{
    if c == '\n' {
        (line + 1, 1)
    } else {
        (line, column + 1)
    }
}

/// Line and column behind some characters.
pub(crate) fn advanced(skipped: &str, line: usize, column: usize) -> (usize, usize)
    requires { HasRoom (2 ^ 64) line column (length skipped.now) }
    ensures value { result ≡ place_after (line, column) (chars skipped.now) }
    ensures text { IsUtf8 skipped.now }
{
    let mut place = (line, column);
    let mut left = skipped;
    while let Some((c, rest)) = split_first(left) {
        place = stepped(place.0, place.1, c);
        left = rest;
    }
    place
}
