// Characters and texts in quotes.

ghost use Rattle.std.specs.Prelude.{◌≡◌, ◌<◌, ◌++◌, MatchOption, IfSome, IfOk, OnOk, IsSome, Some, None};
ghost use Rattle.std.specs.Char.Escape.{encode_utf16};
ghost use Rattle.std.specs.Str.{chars};
ghost use Rattle.cs_token.specs.Tokens.{hex_digit_at, hex_at, escape_of, escape_at, units_at, only_unit, behind_quote as quote_passed, text_at, char_at};
ghost use Rattle.cs_token.specs.Pieces.{Passes, units_of, text_from, found_units};

use crate::fronts::split_first;
use dc_base::NoMemory;
use std::alloc::Global;

/// The UTF-16 units of one character or escape.
#[derive(Clone, Copy)]
pub(crate) enum Units {
    One(u16),
    Two(u16, u16),
}

/// The units of a character.
fn in_utf16(c: char) -> Units
    ensures { units_of result ≡ encode_utf16 c }
{
    let code = c as u32;
    if code < 0x1_0000 {
        return Units::One(code as u16);
    }
    let above = code - 0x1_0000;
    Units::Two(
        (0xD800 + above / 0x400) as u16,
        (0xDC00 + above % 0x400) as u16,
    )
}

/// The hexadecimal digit that a text begins with, and what stands behind it.
fn hex_digit(text: &str) -> Option<(u32, &str)>
    ensures value { MatchOption result (hex_digit_at (chars text.now) ≡ None) (λ p. hex_digit_at (chars text.now) ≡ Some (p.0, chars p.1.now)) }
    ensures small { IfSome result (λ p. p.0 < 16) }
    ensures passes { IfSome result (λ p. Passes p.1.now text.now) }
{
    let (first, rest) = split_first(text)?;
    Some((first.to_digit(16)?, rest))
}

/// The unit of the four hexadecimal digits that a text begins with, and what stands behind them.
#[tactic(auto, using(crate::proofs::Parts::past))]
fn hex(text: &str) -> Option<(u16, &str)>
    ensures value { MatchOption result (hex_at (chars text.now) ≡ None) (λ p. hex_at (chars text.now) ≡ Some (p.0, chars p.1.now)) }
    ensures passes { IfSome result (λ p. Passes p.1.now text.now) }
{
    let (a, behind_a) = hex_digit(text)?;
    let (b, behind_b) = hex_digit(behind_a)?;
    let (c, behind_c) = hex_digit(behind_b)?;
    let (d, rest) = hex_digit(behind_c)?;
    Some(((((a * 16 + b) * 16 + c) * 16 + d) as u16, rest))
}

/// The unit that an escape of one letter is.
fn escaped(c: char) -> Option<u16>
    ensures { result ≡ escape_of c }
{
    match c {
        '\\' => Some(92),
        '"' => Some(34),
        '\'' => Some(39),
        '0' => Some(0),
        'n' => Some(10),
        'r' => Some(13),
        't' => Some(9),
        _ => None,
    }
}

/// The unit of the escape that stands behind a `\`, and what stands behind it.
#[tactic(auto, using(crate::proofs::Parts::past))]
fn escape(text: &str) -> Option<(u16, &str)>
    ensures value { MatchOption result (escape_at (chars text.now) ≡ None) (λ p. escape_at (chars text.now) ≡ Some (p.0, chars p.1.now)) }
    ensures passes { IfSome result (λ p. Passes p.1.now text.now) }
{
    let (first, rest) = split_first(text)?;
    if first == 'u' {
        return hex(rest);
    }
    Some((escaped(first)?, rest))
}

/// The units of the character or escape that a text begins with, and what stands behind it.
#[tactic(auto, using(crate::proofs::Parts::past))]
fn unit(text: &str) -> Option<(Units, &str)>
    ensures value { MatchOption result (units_at (chars text.now) ≡ None) (λ p. units_at (chars text.now) ≡ Some (units_of p.0, chars p.1.now)) }
    ensures passes { IfSome result (λ p. Passes p.1.now text.now) }
{
    let (first, rest) = split_first(text)?;
    if first == '\\' {
        let (unit, rest) = escape(rest)?;
        return Some((Units::One(unit), rest));
    }
    if first == '\n' || first == '\r' {
        return None;
    }
    Some((in_utf16(first), rest))
}

fn only(units: Units) -> Option<u16>
    ensures { result ≡ only_unit (units_of units) }
{
    match units {
        Units::One(unit) => Some(unit),
        Units::Two(_, _) => None,
    }
}

/// What stands behind a closing quote.
fn behind_quote(text: &str, quote: char) -> Option<&str>
    ensures value { MatchOption result (quote_passed quote (chars text.now) ≡ None) (λ rest. quote_passed quote (chars text.now) ≡ Some (chars rest.now)) }
    ensures passes { IfSome result (λ rest. Passes rest.now text.now) }
{
    let (first, rest) = split_first(text)?;
    if first == quote { Some(rest) } else { None }
}

/// The unit of a character behind its opening quote, and what stands behind its closing quote.
pub(crate) fn character(text: &str) -> Option<(u16, &str)>
    ensures value { MatchOption result (char_at (chars text.now) ≡ None) (λ p. char_at (chars text.now) ≡ Some (p.0, chars p.1.now)) }
    ensures passes { IfSome result (λ p. Passes p.1.now text.now) }
{
    if behind_quote(text, '\'').is_some() {
        return None;
    }
    let (units, rest) = unit(text)?;
    let unit = only(units)?;
    Some((unit, behind_quote(rest, '\'')?))
}

/// The next units of a text in quotes, none at its closing quote, and what stands behind them.
#[tactic(auto, using(crate::proofs::Parts::past))]
fn part(text: &str) -> Option<(Option<Units>, &str)>
    ensures value { MatchOption result (text_at (chars text.now) ≡ None) (λ p. text_at (chars text.now) ≡ text_from p.0 (chars p.1.now)) }
    ensures passes { IfSome result (λ p. Passes p.1.now text.now) }
{
    if let Some(rest) = behind_quote(text, '"') {
        return Some((None, rest));
    }
    let (units, rest) = unit(text)?;
    Some((Some(units), rest))
}

/// What stands behind the closing quote of a text, from behind its opening quote on.
pub(crate) fn behind_text(text: &str) -> Option<&str>
    ensures value { MatchOption result (text_at (chars text.now) ≡ None) (λ rest. text_at (chars text.now) ≡ Some (found_units (text_at (chars text.now)), chars rest.now)) }
    ensures passes { IfSome result (λ rest. Passes rest.now text.now) }
{
    let mut left = text;
    while let Some((units, rest)) = part(left) {
        match units {
            Some(_) => left = rest,
            None => return Some(rest),
        }
    }
    None
}

/// The units of a text in quotes, from behind its opening quote on.
pub(crate) fn text_units(alloc: Global, text: &str) -> Result<Vec<u16>, NoMemory>
    requires { IsSome (text_at (chars text.now)) }
    ensures { IfOk result (λ found. found.items ≡ found_units (text_at (chars text.now))) }
{
    let mut found = Vec::new(alloc);
    let mut left = text;
    while let Some((Some(units), rest)) = part(left) {
        push(&mut found, units)?;
        left = rest;
    }
    Ok(found)
}

fn push(found: &mut Vec<u16>, units: Units) -> Result<(), NoMemory>
    ensures { OnOk result (found.new.items ≡ found.old.items ++ units_of units) }
{
    match units {
        Units::One(unit) => found.push(unit)?,
        Units::Two(high, low) => {
            found.push(high)?;
            found.push(low)?;
        }
    }
    Ok(())
}
