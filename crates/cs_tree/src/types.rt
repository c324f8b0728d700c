// Places, names, paths, types and parameters.

use dc_base::{Seq, Text};

/// Where the first token of a part stands. Line and column count from 1; both are 0 where the part wasn't read.
#[derive(Clone, Copy, Debug, PartialEq, Eq)]
pub struct Spot {
    pub line: u32,
    pub column: u32,
}

impl Spot {
    /// The place of a part that wasn't read.
    pub const NONE: Spot = Spot { line: 0, column: 0 };
}

/// A name where it is declared, or behind a dot: `x`, `@class`.
#[derive(Debug, Drop)]
pub struct Name {
    pub spot: Spot,
    /// Without the `@` that stands before a keyword.
    pub text: Text,
}

/// `A.B.C`
#[derive(Debug, Drop)]
pub struct Path {
    pub spot: Spot,
    pub names: Seq<Text>,
}

/// The types that a keyword names (ECMA-334, 8.3.5, 8.2.3 and 8.2.5).
#[derive(Clone, Copy, Debug, PartialEq, Eq)]
pub enum KeywordType {
    Bool,
    Char,
    Sbyte,
    Byte,
    Short,
    Ushort,
    Int,
    Uint,
    Long,
    Ulong,
    Object,
    String,
}

/// A type without brackets.
#[derive(Debug, Drop)]
pub enum TypeName {
    /// `int`
    Keyword { keyword: KeywordType },
    /// `global::A.B`
    Global { path: Seq<Text> },
}

/// A type: `int`, `global::A.B[][]`
#[derive(Debug, Drop)]
pub struct TypeForm {
    pub spot: Spot,
    pub name: TypeName,
    /// How many pairs of brackets stand behind the name.
    pub ranks: u32,
}

/// How an argument is passed (ECMA-334, 15.6.2): `x`, `ref x`, `out x`
#[derive(Clone, Copy, Debug, PartialEq, Eq)]
pub enum Way {
    Value,
    Ref,
    Out,
}

/// A parameter: `int x`, `ref int x`, `out int x`
#[derive(Debug, Drop)]
pub struct Param {
    pub way: Way,
    pub ty: TypeForm,
    pub name: Name,
}
