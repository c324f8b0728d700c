// Signs.

ghost use Rattle.std.specs.Prelude.{◌≡◌, ◌<◌, MatchOption, IfSome, Some, None};
ghost use Rattle.std.specs.Str.{chars};
ghost use Rattle.cs_token.specs.Words.{single_at, double_at, sign_at};
ghost use Rattle.cs_token.specs.Pieces.{Passes};

use crate::fronts::split_first;

const SINGLES: [char; 24] = [
    '{', '}', '(', ')', '[', ']', ',', ';', ':', '.', '?', '=', '<', '>', '&', '|', '^', '+', '-',
    '*', '/', '%', '!', '~',
];

const DOUBLES: [(char, char); 16] = [
    ('=', '='),
    ('!', '='),
    ('<', '='),
    ('>', '='),
    ('<', '<'),
    ('>', '>'),
    ('&', '&'),
    ('|', '|'),
    ('=', '>'),
    (':', ':'),
    ('+', '='),
    ('-', '='),
    ('*', '='),
    ('&', '='),
    ('|', '='),
    ('^', '='),
];

fn single(c: char) -> Option<usize>
    ensures { result ≡ single_at c }
{
    SINGLES.iter().position(|s| *s == c)
}

fn double(c: char, d: char) -> Option<usize>
    ensures { result ≡ double_at c d }
{
    DOUBLES.iter().position(|s| s.0 == c && s.1 == d)
}

/// The sign that a text begins with, by its number, and what stands behind it. Two minus signs are none.
#[tactic(auto, using(crate::proofs::Parts::past))]
pub(crate) fn sign(text: &str) -> Option<(usize, &str)>
    ensures value { MatchOption result (sign_at (chars text.now) ≡ None) (λ p. sign_at (chars text.now) ≡ Some (p.0, chars p.1.now)) }
    ensures small { IfSome result (λ p. p.0 < 40) }
    ensures passes { IfSome result (λ p. Passes p.1.now text.now) }
{
    let (first, behind_one) = split_first(text)?;
    let Some((second, behind_two)) = split_first(behind_one) else {
        return Some((single(first)?, behind_one));
    };
    if first == '-' && second == '-' {
        return None;
    }
    match double(first, second) {
        Some(k) => Some((24 + k, behind_two)),
        None => Some((single(first)?, behind_one)),
    }
}
