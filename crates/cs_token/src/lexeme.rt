// What a token is, apart from its place.

use dc_base::{Text, Text16};

/// What stands behind a number's digits (ECMA-334, 6.4.5.3): nothing, `U`, `L` or `UL`.
#[derive(Clone, Copy, Debug, PartialEq, Eq)]
pub enum Suffix {
    Plain,
    Unsigned,
    Long,
    UnsignedLong,
}

/// A token's value. A keyword and a sign are known by their number, which is 0 for the first of its list.
#[derive(Debug, Drop)]
pub enum Lexeme {
    /// Without the `@` that stands before a keyword.
    Name(Text),
    Keyword(u8),
    Number(u64, Suffix),
    Char(u16),
    Literal(Text16),
    Sign(u8),
}
