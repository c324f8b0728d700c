// Names and keywords.

ghost use Rattle.std.specs.Prelude.{◌≡◌, ◌++◌, [], position, MatchOption};
ghost use Rattle.std.specs.Str.{bytes_eq, chars};
ghost use Rattle.std.proofs.Math.Utf8.{encodes};
ghost use Rattle.unicode_ident.specs.Ident.{is_xid_continue};
ghost use Rattle.cs_token.specs.Words.{front, behind};
ghost use Rattle.cs_token.specs.Tokens.{keyword_number as keyword_number_of, kind_of_name as kind_of_name_of};
ghost use Rattle.cs_token.specs.Pieces.{BeginsWithPart};

use crate::fronts::{before, split_first};

const KEYWORDS: [&str; 77] = [
    "abstract",
    "as",
    "base",
    "bool",
    "break",
    "byte",
    "case",
    "catch",
    "char",
    "checked",
    "class",
    "const",
    "continue",
    "decimal",
    "default",
    "delegate",
    "do",
    "double",
    "else",
    "enum",
    "event",
    "explicit",
    "extern",
    "false",
    "finally",
    "fixed",
    "float",
    "for",
    "foreach",
    "goto",
    "if",
    "implicit",
    "in",
    "int",
    "interface",
    "internal",
    "is",
    "lock",
    "long",
    "namespace",
    "new",
    "null",
    "object",
    "operator",
    "out",
    "override",
    "params",
    "private",
    "protected",
    "public",
    "readonly",
    "ref",
    "return",
    "sbyte",
    "sealed",
    "short",
    "sizeof",
    "stackalloc",
    "static",
    "string",
    "struct",
    "switch",
    "this",
    "throw",
    "true",
    "try",
    "typeof",
    "uint",
    "ulong",
    "unchecked",
    "unsafe",
    "ushort",
    "using",
    "virtual",
    "void",
    "volatile",
    "while",
];

/// The number of a keyword (ECMA-334, 6.4.4), from 0 in the order of their letters.
pub(crate) fn keyword_number(word: &str) -> Option<usize>
    ensures { result ≡ keyword_number_of word.now }
{
    place_among(&KEYWORDS, word)
}

fn place_among(words: &[&str], word: &str) -> Option<usize>
    ensures { result ≡ position (λ w. bytes_eq w.now word.now) words.now }
{
    words.iter().position(|w| *w == word)
}

/// The kind of a name. Contextual keywords have kinds of their own.
pub(crate) fn kind_of_name(name: &str) -> u16
    ensures { result ≡ kind_of_name_of name.now }
{
    if name == "global" {
        return 4;
    }
    if name == "get" {
        return 5;
    }
    if name == "set" {
        return 6;
    }
    if name == "indexer" {
        return 7;
    }
    0
}

/// What stands behind the first character of a text, if that may be part of a word.
fn behind_part(text: &str) -> Option<&str>
    ensures { MatchOption result ((front is_xid_continue (chars text.now) ≡ []) × (behind is_xid_continue (chars text.now) ≡ chars text.now))
        (λ rest. BeginsWithPart text.now rest.now) }
{
    let (first, rest) = split_first(text)?;
    if unicode_ident::is_xid_continue(first) {
        Some(rest)
    } else {
        None
    }
}

/// The characters at the front of a text that may be part of a word, and what stands behind them.
pub(crate) fn split_word(text: &str) -> (&str, &str)
    ensures word { result.0.now ≡ encodes (front is_xid_continue (chars text.now)) }
    ensures rest { chars result.1.now ≡ behind is_xid_continue (chars text.now) }
    ensures whole { text.now ≡ result.0.now ++ result.1.now }
{
    let mut left = text;
    while let Some(rest) = behind_part(left) {
        left = rest;
    }
    (before(text, left), left)
}
