// The forms of tokens, and where they stand.

use super::*;
use cs_token::{Lexeme, Token};
use std::alloc::Global;
use std::fmt::Write;
use std::test::Fail;

/// A token in a few words.
fn show(alloc: Global, token: &Token, out: &mut String) -> Result<(), Fail> {
    match token.lexeme(alloc)? {
        Lexeme::Name(name) => write!(out, "name {}", name.as_str())?,
        Lexeme::Keyword(number) => write!(out, "keyword {number}")?,
        Lexeme::Number(number, suffix) => write!(out, "{number} {suffix:?}")?,
        Lexeme::Char(unit) => write!(out, "unit {unit}")?,
        Lexeme::Literal(text) => write!(out, "units {:?}", text.units())?,
        Lexeme::Sign(number) => write!(out, "sign {number}")?,
    }
    Ok(())
}

/// The tokens of a text, or the place where none stands.
fn shown(alloc: Global, source: &str) -> Result<String, Fail> {
    let mut out = String::new(alloc);
    // The tables have no longer text.
    if source.len() > 99 {
        return Ok(out);
    }
    match lex(source) {
        Ok(lexed) => {
            let mut tokens = lexed.tokens;
            for _ in 0..tokens.left() {
                if let Some(token) = tokens.advance() {
                    write!(out, "{}:{} ", token.line(), token.column())?;
                    show(alloc, &token, &mut out)?;
                    out.push_str("; ")?;
                }
            }
            write!(out, "{}:{}", lexed.line, lexed.column)?;
        }
        Err(fault) => write!(out, "{fault}")?,
    }
    Ok(out)
}

#[test]
fn reads_each_form_of_a_token(rt: HostRuntime) -> Result<(), Fail> {
    let alloc = rt.alloc();
    for (source, tokens) in [
        ("", "1:1"),
        ("caf\u{e9}_1", "1:1 name caf\u{e9}_1; 1:7"),
        ("_ @class", "1:1 name _; 1:3 name class; 1:9"),
        ("abstract while", "1:1 keyword 0; 1:10 keyword 76; 1:15"),
        ("get async", "1:1 name get; 1:5 name async; 1:10"),
        ("12abc", "1:1 12 Plain; 1:3 name abc; 1:6"),
        ("a<=b", "1:1 name a; 1:2 sign 26; 1:4 name b; 1:5"),
        (
            "a< =b",
            "1:1 name a; 1:2 sign 12; 1:4 sign 11; 1:5 name b; 1:6",
        ),
        (
            "x=>-1",
            "1:1 name x; 1:2 sign 32; 1:4 sign 18; 1:5 1 Plain; 1:6",
        ),
        (
            "'a' '\\'' '\"'",
            "1:1 unit 97; 1:5 unit 39; 1:10 unit 34; 1:13",
        ),
        ("'\\u00fF'", "1:1 unit 255; 1:9"),
        ("\"\"", "1:1 units []; 1:3"),
        ("\"a'\u{1f600}\"", "1:1 units [97, 39, 55357, 56832]; 1:6"),
        (
            "\"\\\\\\\"\\'\\0\\n\\r\\t\\uD83d\"",
            "1:1 units [92, 34, 39, 0, 10, 13, 9, 55357]; 1:23",
        ),
    ] {
        assert_eq!(rt; shown(alloc, source)?.as_str(), tokens);
    }
    Ok(())
}

#[test]
fn reads_numbers_below_2_to_the_64_with_each_suffix(rt: HostRuntime) -> Result<(), Fail> {
    let alloc = rt.alloc();
    for (source, tokens) in [
        (
            "18446744073709551615",
            "1:1 18446744073709551615 Plain; 1:21",
        ),
        (
            "18446744073709551615U",
            "1:1 18446744073709551615 Unsigned; 1:22",
        ),
        (
            "18446744073709551615L",
            "1:1 18446744073709551615 Long; 1:22",
        ),
        (
            "18446744073709551615UL",
            "1:1 18446744073709551615 UnsignedLong; 1:23",
        ),
        ("007LU", "1:1 7 Long; 1:5 name U; 1:6"),
        ("x 18446744073709551616", "no token at 1:3"),
        ("18446744073709551616U", "no token at 1:1"),
        ("18446744073709551616L", "no token at 1:1"),
        ("184467440737095516150UL", "no token at 1:1"),
    ] {
        assert_eq!(rt; shown(alloc, source)?.as_str(), tokens);
    }
    Ok(())
}

#[test]
fn passes_over_comments_and_lines(rt: HostRuntime) -> Result<(), Fail> {
    let alloc = rt.alloc();
    for (source, tokens) in [
        ("// only a comment", "1:18"),
        (
            "namespace N {\n",
            "1:1 keyword 39; 1:11 name N; 1:13 sign 0; 2:1",
        ),
        ("a\r\n\tb\r\n", "1:1 name a; 2:2 name b; 3:1"),
        (
            "a//--\n;//\"\n// c\n 1// d",
            "1:1 name a; 2:1 sign 7; 4:2 1 Plain; 4:7",
        ),
        ("a/b", "1:1 name a; 1:2 sign 20; 1:3 name b; 1:4"),
        ("\"//\"a", "1:1 units [47, 47]; 1:5 name a; 1:6"),
        (
            "\u{e9}\u{e9} \u{e9}",
            "1:1 name \u{e9}\u{e9}; 1:4 name \u{e9}; 1:5",
        ),
        ("//\u{1f600}\r x\ny", "2:1 name y; 2:2"),
    ] {
        assert_eq!(rt; shown(alloc, source)?.as_str(), tokens);
    }
    Ok(())
}

#[test]
fn tells_where_no_token_stands(rt: HostRuntime) -> Result<(), Fail> {
    let alloc = rt.alloc();
    for (source, fault) in [
        ("\u{feff}class", "no token at 1:1"),
        ("\u{e9} --x", "no token at 1:3"),
        ("a---b", "no token at 1:2"),
        ("- - @x", "no token at 1:5"),
        ("@", "no token at 1:1"),
        ("a\n #", "no token at 2:2"),
        ("''", "no token at 1:1"),
        ("'\u{1f600}'", "no token at 1:1"),
        ("'ab'", "no token at 1:1"),
        ("\"a", "no token at 1:1"),
        ("\"a\n\"", "no token at 1:1"),
        ("\"\\x41\"", "no token at 1:1"),
        ("\"\\u00g0\"", "no token at 1:1"),
        ("a\u{c}b", "no token at 1:2"),
    ] {
        assert_eq!(rt; shown(alloc, source)?.as_str(), fault);
    }
    Ok(())
}

#[test]
fn goes_as_far_as_tokens_stand(rt: HostRuntime) {
    let Tokens { tokens, end } = cut("a;\n ?$b");
    assert_eq!(rt; tokens.left(), 3);
    assert_eq!(rt; (end.line, end.column), (2, 3));
    assert!(rt; !end.whole);
}

#[test]
fn tells_the_first_byte_of_no_character(rt: HostRuntime) {
    for (bytes, line, column) in [
        (b"a\xff".as_slice(), 1, 2),
        (b"\xc3\xa9\n\xc3\xa9\xe2\x82", 2, 2),
        (b"\xed\xa0\x80", 1, 1),
        (b"// \x80", 1, 4),
    ] {
        assert_eq!(rt; text_of(bytes), Err(LexFault { line, column }));
    }
    assert_eq!(rt; text_of(b"\xc3\xa9"), Ok("\u{e9}"));
}
