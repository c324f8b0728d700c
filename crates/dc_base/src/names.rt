// The numbers that name things.

/// A metadata token: the table's number in the top byte, the row below it (ECMA-335 II.22).
#[derive(Clone, Copy, Debug, PartialEq, Eq, PartialOrd, Ord, Hash)]
pub struct Token(pub u32);

/// A type, by its place in the list of all types, from 0.
#[derive(Clone, Copy, Debug, PartialEq, Eq, PartialOrd, Ord, Hash)]
pub struct TypeId(pub u32);

/// A member, by its place in the list of all members, from 0.
#[derive(Clone, Copy, Debug, PartialEq, Eq, PartialOrd, Ord, Hash)]
pub struct MemberId(pub u32);

/// A place in a method's code: the method's token, and the offset in bytes from the start of its code (ECMA-335
/// III.1.7.2).
#[derive(Clone, Copy, Debug, PartialEq, Eq, PartialOrd, Ord, Hash)]
pub struct Place {
    pub token: Token,
    pub offset: u32,
}
