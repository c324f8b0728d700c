// The types of values.

use crate::TypeId;

/// A primitive type (ECMA-335 III.1.1.1): truth, a UTF-16 unit, or an integer, signed or not, of that many bytes.
#[derive(Clone, Copy, Debug, PartialEq, Eq, PartialOrd, Ord, Hash)]
pub enum Prim_ {
    Bool,
    Char,
    I1,
    U1,
    I2,
    U2,
    I4,
    U4,
    I8,
    U8,
}

/// A type without brackets: nothing, a primitive, a reference type, a value type or an enum.
#[derive(Clone, Copy, Debug, PartialEq, Eq, PartialOrd, Ord, Hash)]
pub enum Core {
    Void,
    Prim(Prim_),
    Class(TypeId),
    Value(TypeId),
    Enum(TypeId),
}

/// A type: its core, the number of array brackets on it, and whether it is a lent place (`ref`) of that type.
#[derive(Clone, Copy, Debug, PartialEq, Eq, PartialOrd, Ord, Hash)]
pub struct Ty {
    pub core: Core,
    pub arrays: u8,
    pub lent: bool,
}
