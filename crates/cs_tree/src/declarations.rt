// Types and whole texts (ECMA-334, clauses 14 to 20).

use crate::members::{Member, Mods};
use crate::types::{Name, Param, Path, Spot, TypeForm};
use dc_base::{Boxed, Items, Seq, Text};

/// What stands between the braces of a type.
#[derive(Debug, Drop)]
#[cycle(declared)]
pub enum Item {
    Member { member: Member },
    Type { decl: Boxed<Decl> },
}

/// A constant of an enum (ECMA-334, 19.4): `A = 5,`, `B = -5,`
#[derive(Debug, Drop)]
pub struct Enumerator {
    pub name: Name,
    pub negative: bool,
    pub value: u64,
}

/// A type that has a body of members.
#[derive(Clone, Copy, Debug, PartialEq, Eq)]
pub enum Kind {
    Class,
    Interface,
    /// In reference texts.
    Struct,
}

/// A type (ECMA-334, clauses 15, 16, 18, 19 and 20). Its place is that of its first token, and a note is its name in the assembly
/// where the text has another one.
#[derive(Debug, Drop)]
#[cycle(declared)]
pub enum Decl {
    /// `public class A : global::B, global::C { }`; `interface` and, in reference texts, `struct` likewise
    Body {
        spot: Spot,
        note: Option<Text>,
        mods: Mods,
        kind: Kind,
        name: Name,
        bases: Seq<TypeForm>,
        items: Items<Item>,
    },
    /// `public enum E : int { A = 0, B = -1, }`
    Enum {
        spot: Spot,
        note: Option<Text>,
        mods: Mods,
        name: Name,
        ty: TypeForm,
        enumerators: Seq<Enumerator>,
    },
    /// `public delegate int D(int a);`; no type is `void`
    Delegate {
        spot: Spot,
        note: Option<Text>,
        mods: Mods,
        result: Option<TypeForm>,
        name: Name,
        params: Seq<Param>,
    },
}

/// What a text is made of.
#[derive(Debug, Drop)]
pub enum Space {
    /// `namespace A.B { }` (ECMA-334, 14.3), with the namespace in the assembly where the text has another one
    Namespace {
        spot: Spot,
        note: Option<Text>,
        path: Path,
        types: Items<Decl>,
    },
    /// A type in no namespace.
    Type {
        decl: Decl,
    },
}

/// A whole text (ECMA-334, 14.2), and the name of the assembly that it is the text of.
#[derive(Debug, Drop)]
pub struct Unit {
    pub assembly: Option<Text>,
    pub spaces: Items<Space>,
}
