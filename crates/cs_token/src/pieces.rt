// The token that a text begins with, before its value is made.

ghost use Rattle.std.specs.Prelude.{◌≡◌, ◌||◌, ◌==◌, MatchOption, IfSome, IfOk, IsSome, IsTrue, Some, None};
ghost use Rattle.std.specs.Str.{chars};
ghost use Rattle.std.proofs.Math.Utf8.{encodes};
ghost use Rattle.unicode_ident.specs.Ident.{is_xid_start, is_xid_continue};
ghost use Rattle.cs_token.specs.Words.{front, behind, is_digit as is_digit_of, number_of, suffix_at, sign_at};
ghost use Rattle.cs_token.specs.Tokens.{kind_of, named, escaped as escaped_name, numbered, made, char_at, text_at, token_at};
ghost use Rattle.cs_token.specs.Pieces.{Passes, Starts, found_units};
ghost use Rattle.cs_token.specs.Found.{lexeme_of, IsRead, IsFound};

use crate::fronts::split_first;
use crate::numbers::{is_digit, number, suffix};
use crate::quotes::{behind_text, character, text_units};
use crate::signs::sign;
use crate::words::{keyword_number, kind_of_name, split_word};
use crate::{Lexeme, Suffix};
use dc_base::{NoMemory, Text, Text16};
use std::alloc::Global;

/// A token as it stands in a text. Of a text in quotes this is the text from behind its opening quote on.
#[derive(Clone, Copy)]
pub(crate) enum Piece<'a> {
    Name(&'a str),
    Keyword(u8),
    Number(u64, Suffix),
    Char(u16),
    Literal(&'a str),
    Sign(u8),
}

impl<'a> Piece<'a> {
    pub(crate) fn kind(&self) -> u16
        ensures { result ≡ kind_of (lexeme_of self.now) }
    {
        match self {
            Piece::Name(name) => kind_of_name(name),
            Piece::Number(_, Suffix::Plain) => 1,
            Piece::Number(_, _) => 8,
            Piece::Char(_) => 2,
            Piece::Literal(_) => 3,
            Piece::Sign(sign) => 10 + u16::from(*sign),
            Piece::Keyword(keyword) => 60 + u16::from(*keyword),
        }
    }

    pub(crate) fn lexeme(&self, alloc: Global) -> Result<Lexeme, NoMemory>
        requires { IsRead self.now }
        ensures { IfOk result (λ lexeme. lexeme ≡ lexeme_of self.now) }
    {
        match self {
            Piece::Name(name) => Ok(Lexeme::Name(Text::of(alloc, name)?)),
            Piece::Number(number, suffix) => Ok(Lexeme::Number(*number, *suffix)),
            Piece::Char(unit) => Ok(Lexeme::Char(*unit)),
            Piece::Literal(text) => literal(alloc, text),
            Piece::Sign(sign) => Ok(Lexeme::Sign(*sign)),
            Piece::Keyword(keyword) => Ok(Lexeme::Keyword(*keyword)),
        }
    }
}

fn literal(alloc: Global, text: &str) -> Result<Lexeme, NoMemory>
    requires { IsSome (text_at (chars text.now)) }
    ensures { IfOk result (λ lexeme. lexeme ≡ Lexeme.Literal (found_units (text_at (chars text.now)))) }
{
    let units = text_units(alloc, text)?;
    Ok(Lexeme::Literal(Text16::of(alloc, units.as_slice())?))
}

fn begins_word(first: char) -> bool
    ensures value { result ≡ ((first == 95) || is_xid_start first) }
    ensures continues { IsTrue result → IsTrue (is_xid_continue first) }
{
    if first == '_' {
        unicode_ident::is_xid_continue(first)
    } else {
        unicode_ident::is_xid_start(first)
    }
}

/// The name or keyword that a text begins with.
fn word(text: &str) -> (Piece<'_>, &str)
    requires { Starts is_xid_continue (chars text.now) }
    ensures found { IsFound (Some (named (encodes (front is_xid_continue (chars text.now))), behind is_xid_continue (chars text.now))) result.0 (chars result.1.now) }
    ensures passes { Passes result.1.now text.now }
{
    let (word, rest) = split_word(text);
    match keyword_number(word) {
        Some(number) => (Piece::Keyword(number as u8), rest),
        None => (Piece::Name(word), rest),
    }
}

/// The name behind an `@`.
fn escaped(text: &str) -> Option<(Piece<'_>, &str)>
    ensures found { MatchOption result ((escaped_name (encodes (front is_xid_continue (chars text.now))) (behind is_xid_continue (chars text.now))) ≡ None) (λ p. IsFound (escaped_name (encodes (front is_xid_continue (chars text.now))) (behind is_xid_continue (chars text.now))) p.0 (chars p.1.now)) }
    ensures passes { IfSome result (λ p. Passes p.1.now text.now) }
{
    let (word, rest) = split_word(text);
    let _number = keyword_number(word)?;
    Some((Piece::Name(word), rest))
}

/// The number that a text begins with.
fn numeral(text: &str) -> Option<(Piece<'_>, &str)>
    requires { Starts is_digit_of (chars text.now) }
    ensures found { MatchOption result ((numbered (number_of (front is_digit_of (chars text.now))) (suffix_at (behind is_digit_of (chars text.now)))) ≡ None) (λ p. IsFound (numbered (number_of (front is_digit_of (chars text.now))) (suffix_at (behind is_digit_of (chars text.now)))) p.0 (chars p.1.now)) }
    ensures passes { IfSome result (λ p. Passes p.1.now text.now) }
{
    let (value, behind) = number(text);
    let value = value?;
    let (suffix, rest) = suffix(behind);
    Some((Piece::Number(value, suffix), rest))
}

/// The character behind its opening quote.
fn quoted_character(text: &str) -> Option<(Piece<'_>, &str)>
    ensures found { MatchOption result ((made (λ unit. Lexeme.Char unit) (char_at (chars text.now))) ≡ None) (λ p. IsFound (made (λ unit. Lexeme.Char unit) (char_at (chars text.now))) p.0 (chars p.1.now)) }
    ensures passes { IfSome result (λ p. Passes p.1.now text.now) }
{
    let (unit, rest) = character(text)?;
    Some((Piece::Char(unit), rest))
}

/// The text behind its opening quote.
fn quoted_text(text: &str) -> Option<(Piece<'_>, &str)>
    ensures found { MatchOption result ((made (λ units. Lexeme.Literal units) (text_at (chars text.now))) ≡ None) (λ p. IsFound (made (λ units. Lexeme.Literal units) (text_at (chars text.now))) p.0 (chars p.1.now)) }
    ensures passes { IfSome result (λ p. Passes p.1.now text.now) }
{
    let rest = behind_text(text)?;
    Some((Piece::Literal(text), rest))
}

/// The sign that a text begins with.
fn signed(text: &str) -> Option<(Piece<'_>, &str)>
    ensures found { MatchOption result ((made (λ k. Lexeme.Sign k) (sign_at (chars text.now))) ≡ None) (λ p. IsFound (made (λ k. Lexeme.Sign k) (sign_at (chars text.now))) p.0 (chars p.1.now)) }
    ensures passes { IfSome result (λ p. Passes p.1.now text.now) }
{
    let (sign, rest) = sign(text)?;
    Some((Piece::Sign(sign as u8), rest))
}

/// The token that a text begins with, and what stands behind it.
pub(crate) fn first_piece(text: &str) -> Option<(Piece<'_>, &str)>
    ensures found { MatchOption result ((token_at (chars text.now)) ≡ None) (λ p. IsFound (token_at (chars text.now)) p.0 (chars p.1.now)) }
    ensures passes { IfSome result (λ p. Passes p.1.now text.now) }
{
    let (first, rest) = split_first(text)?;
    if begins_word(first) {
        return Some(word(text));
    }
    if first == '@' {
        return escaped(rest);
    }
    if is_digit(first) {
        return numeral(text);
    }
    if first == '\'' {
        return quoted_character(rest);
    }
    if first == '"' {
        return quoted_text(rest);
    }
    signed(text)
}
