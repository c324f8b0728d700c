// What an instruction does.

use dc_base::{Prim_, Seq, Token};

/// What an instruction does with the stack and with what lies outside it. Slots are named from below: an instruction on
/// two slots has the lower one as its left operand, and the upper one as its right.
///
/// An aim is a number in the instruction's own list of targets, in the order that it has there. What it counts is for
/// whoever made that list: bytes of the code as it was read, or instructions.
#[derive(Debug, Drop)]
pub enum Row {
    /// Nothing.
    Nop,
    /// Puts a second copy of the upper slot.
    Dup,
    /// Drops the upper slot.
    Pop,
    /// Leaves the method, with the slot as its result where it has one.
    Return,
    LoadArgument(u16),
    StoreArgument(u16),
    ArgumentAddress(u16),
    LoadLocal(u16),
    StoreLocal(u16),
    LocalAddress(u16),
    /// The null reference.
    Null,
    /// `ldc.i4.0` and `ldc.i4.1`, which false and true are written with. Where no truth is meant, it is 0 or 1.
    Truth(bool),
    Int(i32),
    Long(i64),
    /// The text that a token names among the user strings.
    Text(Token),
    /// A sum, difference, product, quotient or remainder of two integers. Where it is unsigned they count as such, and
    /// where it is checked a result that doesn't fit is a fault.
    Arithmetic {
        op: Operator,
        unsigned: bool,
        checked: bool,
    },
    /// An operator on the bits of two slots.
    Bitwise(BitOperator),
    /// The lower slot with its bits moved by the upper one.
    Shift(ShiftOperator),
    /// The negative of an integer, or its complement.
    Unary(UnaryOperator),
    /// Whether the test holds of two slots. Where it is unsigned, integers count as such.
    Compare {
        test: Test,
        unsigned: bool,
    },
    /// The integer as one of this type. Where it is unsigned the operand counts as such, and where it is checked one that
    /// doesn't fit the type is a fault; else its low bits are kept.
    Convert {
        to: Prim_,
        unsigned: bool,
        checked: bool,
    },
    /// Goes to its aim.
    Branch {
        to: u32,
    },
    /// Goes to its aim where the slot is true, not zero or not null, or where it is the opposite.
    BranchIf {
        truth: bool,
        to: u32,
    },
    /// Goes to its aim where the test holds of two slots.
    BranchCompare {
        test: Test,
        unsigned: bool,
        to: u32,
    },
    /// Goes to the aim that has the slot's number, and on where none has.
    Switch(Seq<u32>),
    /// Leaves regions for its aim, with an empty stack.
    Leave {
        to: u32,
    },
    Throw,
    /// Throws the exception of the catch again.
    Rethrow,
    /// Ends a finally.
    EndFinally,
    /// Calls a method, or by the receiver's slot the method that stands there.
    Call {
        callee: Token,
        by_slot: bool,
    },
    /// Makes an object by a constructor.
    New(Token),
    /// A method as a function that a delegate may be made of: the method itself, or the one that the receiver has in its
    /// slot.
    Function {
        target: Token,
        by_slot: bool,
    },
    LoadField(Token),
    FieldAddress(Token),
    StoreField(Token),
    LoadStatic(Token),
    StaticAddress(Token),
    StoreStatic(Token),
    /// An array of elements of this type.
    NewArray(Token),
    /// The length of an array.
    Length,
    LoadElement(Access),
    ElementAddress(Token),
    StoreElement(Access),
    /// What lies at an address.
    LoadIndirect(Access),
    StoreIndirect(Access),
    /// The reference, which has to be to such an object.
    Cast(Token),
    /// The reference where it is to such an object, and else null.
    IsInstance(Token),
    Box(Token),
    /// The address of the value in a box.
    Unbox(Token),
    /// The value in a box.
    UnboxAny(Token),
}

/// How a place is read or written: as an integer of the size and sign that a mnemonic names, as a reference, or as the
/// type that a token names.
#[derive(Clone, Copy, Debug, PartialEq, Eq)]
pub enum Access {
    Number(Prim_),
    Reference,
    Typed(Token),
}

/// An operator on two integers.
#[derive(Clone, Copy, Debug, PartialEq, Eq)]
pub enum Operator {
    Add,
    Sub,
    Mul,
    Div,
    Rem,
}

/// An operator on the bits of two slots.
#[derive(Clone, Copy, Debug, PartialEq, Eq)]
pub enum BitOperator {
    And,
    Or,
    Xor,
}

/// Where bits move to. To the right, the sign is kept or zeros come in.
#[derive(Clone, Copy, Debug, PartialEq, Eq)]
pub enum ShiftOperator {
    Left,
    Right,
    RightUnsigned,
}

/// An operator on one integer.
#[derive(Clone, Copy, Debug, PartialEq, Eq)]
pub enum UnaryOperator {
    Negate,
    Complement,
}

/// A test of two slots.
#[derive(Clone, Copy, Debug, PartialEq, Eq)]
pub enum Test {
    Equal,
    Unequal,
    Less,
    AtMost,
    Greater,
    AtLeast,
}
