// What stands between tokens.

ghost use Rattle.std.specs.Prelude.{◌≡◌, ◌∷◌, false, MatchOption};
ghost use Rattle.std.specs.Str.{chars};
ghost use Rattle.cs_token.specs.Words.{is_blank as is_blank_of, begins_comment as begins_comment_of, behind_gap as gap_passed};
ghost use Rattle.cs_token.specs.Pieces.{Follows};

use crate::fronts::split_first;

fn is_blank(c: char) -> bool
    ensures { result ≡ is_blank_of c }
{
    c == ' ' || c == '\t' || c == '\r' || c == '\n'
}

fn begins_comment(first: char, rest: &str) -> bool
    ensures { result ≡ begins_comment_of (first ∷ chars rest.now) }
{
    match split_first(rest) {
        Some((second, _)) => first == '/' && second == '/',
        None => false,
    }
}

/// Whether a gap goes on over the first character, and if so whether behind it one is inside a comment.
fn goes_on(inside: bool, first: char, rest: &str) -> Option<bool>
    ensures { MatchOption result (gap_passed inside (first ∷ chars rest.now) ≡ first ∷ chars rest.now)
        (λ next. gap_passed inside (first ∷ chars rest.now) ≡ gap_passed next (chars rest.now)) }
{
    if inside {
        return Some(first != '\n');
    }
    if is_blank(first) {
        return Some(false);
    }
    if begins_comment(first, rest) {
        return Some(true);
    }
    None
}

/// What stands behind the blanks and comments that a text begins with.
pub fn behind_gap(text: &str) -> &str
    ensures rest { chars result.now ≡ gap_passed false (chars text.now) }
    ensures ends { Follows result.now text.now }
{
    let mut inside = false;
    let mut left = text;
    while let Some((first, rest)) = split_first(left) {
        match goes_on(inside, first, rest) {
            Some(next) => inside = next,
            None => return left,
        }
        left = rest;
    }
    left
}
