// What the productions of modifiers and members leave.

use cs_tree::{Access, Accessor, Mods, Name, Spot};
use dc_base::{Seq, Text};

/// The access word, if there is one, and its place.
#[derive(Clone, Copy, Debug, PartialEq, Eq)]
pub struct Accessed {
    pub access: Option<Access>,
    pub spot: Option<Spot>,
}

/// The modifiers of a declaration, and the place of the first, if there is one.
#[derive(Clone, Copy, Debug, PartialEq, Eq)]
pub struct Marked {
    pub mods: Mods,
    pub spot: Option<Spot>,
}

/// The interface that a method implements by name, and the method's name behind it.
#[derive(Debug, Drop)]
pub struct Implementing {
    pub path: Seq<Text>,
    pub name: Name,
}

/// The accessors of a property or an indexer.
#[derive(Debug, Drop)]
pub struct Accessors {
    pub getter: Option<Accessor>,
    pub setter: Option<Accessor>,
}
