// Tokens that are written, against the text that they are.

use crate::{write_character, write_name, write_number, write_text};
use cs_token::Suffix;

#[test]
fn names_and_numbers_as_they_are_written(rt: HostRuntime) {
    for (name, wanted) in [
        ("x", "x"),
        ("class", "@class"),
        ("Class", "Class"),
        ("get", "get"),
        ("caf\u{e9}", "caf\u{e9}"),
    ] {
        let mut out = String::new(rt.alloc());
        assert!(rt; write_name(&mut out, name).is_ok());
        assert!(rt; out.as_str() == wanted);
    }
    for (number, suffix, wanted) in [
        (0, Suffix::Plain, "0"),
        (7, Suffix::Unsigned, "7U"),
        (10, Suffix::Long, "10L"),
        (u64::MAX, Suffix::UnsignedLong, "18446744073709551615UL"),
    ] {
        let mut out = String::new(rt.alloc());
        assert!(rt; write_number(&mut out, number, suffix).is_ok());
        assert!(rt; out.as_str() == wanted);
    }
}

#[test]
fn characters_and_texts_as_they_are_written(rt: HostRuntime) {
    for (unit, wanted) in [
        (0x61, "'a'"),
        (0x27, "'\\''"),
        (0x22, "'\"'"),
        (0x5c, "'\\\\'"),
        (0, "'\\0'"),
        (7, "'\\u0007'"),
        (0x7e, "'~'"),
        (0x7f, "'\\u007f'"),
        (0xd83d, "'\\ud83d'"),
    ] {
        let mut out = String::new(rt.alloc());
        assert!(rt; write_character(&mut out, unit).is_ok());
        assert!(rt; out.as_str() == wanted);
    }
    let mut out = String::new(rt.alloc());
    let units = [0x61, 0x27, 0x22, 0x5c, 0, 0x30, 10, 13, 9, 0x20, 0xabcd];
    assert!(rt; write_text(&mut out, &units).is_ok());
    assert!(rt; out.as_str() == "\"a'\\\"\\\\\\00\\n\\r\\t \\uabcd\"");
}
