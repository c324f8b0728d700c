// A type where it is declared.

use cs_tree::{Enumerator, Item, Kind, Mods, Name, Param, TypeForm};
use dc_base::{Text, TypeId};

/// What stands directly round a declaration.
#[derive(Clone, Copy, Debug, PartialEq, Eq)]
pub enum Within {
    /// A namespace, or nothing.
    Space,
    Interface,
    /// A class or a struct.
    Type,
}

/// What kind of type is declared, and what stands in it.
#[derive(Debug, Drop)]
pub enum What<'a> {
    Body {
        kind: Kind,
        bases: &'a [TypeForm],
        items: &'a [Item],
    },
    Enum {
        ty: &'a TypeForm,
        enumerators: &'a [Enumerator],
    },
    Delegate {
        result: Option<&'a TypeForm>,
        params: &'a [Param],
    },
}

/// A type that a text declares.
#[derive(Debug, Drop)]
pub struct Declared<'a> {
    /// The number of the type that it is nested in.
    pub outer: Option<TypeId>,
    pub within: Within,
    /// Its namespace with dots between the names; empty where it has none, or is nested.
    pub space: Text,
    /// Its full name: the namespace, the types round it from the outside in, and its own name, with dots between them.
    pub full: Text,
    pub mods: Mods,
    pub name: &'a Name,
    pub what: What<'a>,
}
