// Numbers and their suffix.

ghost use Rattle.std.specs.Prelude.{◌≡◌, [], MatchOption};
ghost use Rattle.std.specs.Str.{chars};
ghost use Rattle.cs_token.specs.Words.{front, behind, is_digit as is_digit_of, behind_u as u_passed, suffix_at, number_of};
ghost use Rattle.cs_token.specs.Pieces.{Follows, BeginsWithDigit, shifted as shifted_of};

use crate::Suffix;
use crate::fronts::split_first;

pub(crate) fn is_digit(c: char) -> bool
    ensures { result ≡ is_digit_of c }
{
    '0' <= c && c <= '9'
}

/// The value of the digit that a text begins with, and what stands behind it.
fn first_digit(text: &str) -> Option<(u64, &str)>
    ensures digit { MatchOption result ((front is_digit_of (chars text.now) ≡ []) × (behind is_digit_of (chars text.now) ≡ chars text.now))
        (λ p. BeginsWithDigit text.now p.0 p.1.now) }
{
    let (first, rest) = split_first(text)?;
    if is_digit(first) {
        Some((first as u64 - 48, rest))
    } else {
        None
    }
}

/// `value` with one more digit, if it is below 2^64.
fn shifted(value: Option<u64>, digit: u64) -> Option<u64>
    ensures { result ≡ shifted_of value digit }
{
    value?.checked_mul(10)?.checked_add(digit)
}

/// The number that the digits at the front of a text write, if it is below 2^64, and what stands behind them.
pub(crate) fn number(text: &str) -> (Option<u64>, &str)
    ensures value { result.0 ≡ number_of (front is_digit_of (chars text.now)) }
    ensures rest { chars result.1.now ≡ behind is_digit_of (chars text.now) }
    ensures ends { Follows result.1.now text.now }
{
    let mut value = Some(0);
    let mut left = text;
    while let Some((digit, rest)) = first_digit(left) {
        value = shifted(value, digit);
        left = rest;
    }
    (value, left)
}

/// The suffix that a text begins with, and what stands behind it.
#[tactic(auto, using(crate::proofs::Parts::onward))]
pub(crate) fn suffix(text: &str) -> (Suffix, &str)
    ensures value { suffix_at (chars text.now) ≡ (result.0, chars result.1.now) }
    ensures ends { Follows result.1.now text.now }
{
    match split_first(text) {
        Some(('U', rest)) => behind_u(rest),
        Some(('L', rest)) => (Suffix::Long, rest),
        _ => (Suffix::Plain, text),
    }
}

fn behind_u(text: &str) -> (Suffix, &str)
    ensures value { u_passed (chars text.now) ≡ (result.0, chars result.1.now) }
    ensures ends { Follows result.1.now text.now }
{
    match split_first(text) {
        Some(('L', rest)) => (Suffix::UnsignedLong, rest),
        _ => (Suffix::Unsigned, text),
    }
}
