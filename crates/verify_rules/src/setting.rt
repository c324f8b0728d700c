// What a method's instructions are judged by.

use cil_rows::Row;
use class_table::ClassTable;
use cli_assembly::Named;
use dc_base::{MemberId, Seq, Token, Ty, TypeId};

/// The types of the namespace System that the rules speak of. `prims` has those of the primitive types, in their order
/// from Boolean to UInt64.
#[derive(Debug, Drop)]
pub struct CoreTypes {
    pub object: TypeId,
    pub string: TypeId,
    pub array: TypeId,
    pub exception: TypeId,
    pub prims: Seq<TypeId>,
}

/// A method, and what its tokens mean.
#[derive(Drop)]
pub struct Setting<'a> {
    pub table: &'a ClassTable,
    /// What each token means, by token.
    pub tokens: &'a [(Token, Named)],
    pub core: &'a CoreTypes,
    /// For each type, whether a static field of it is used only behind a question whether the type is initialized.
    pub touching: &'a [bool],
    /// For each delegate type its method Invoke.
    pub invokes: &'a [Option<MemberId>],
    /// The virtual members that C# names by `base` in the method's class.
    pub by_base: &'a [MemberId],
    /// The protected members of references that C# doesn't find by their names in the method's class.
    pub hidden: &'a [MemberId],
    /// The accessors of properties that are printed as such.
    pub printed: &'a [MemberId],
    pub method: MemberId,
    pub max_stack: u16,
    /// Whether the method's locals begin as zeros.
    pub init_locals: bool,
    pub locals: &'a [Ty],
    /// What its instructions do. Their aims are numbers of instructions.
    pub rows: &'a [Row],
}

/// Where an instruction stands in its method.
#[derive(Clone, Copy, Debug, PartialEq, Eq)]
pub struct Spot {
    pub number: u32,
    /// A branch, a switch or a `leave` aims at it.
    pub is_aim: bool,
    /// It is the first of a try.
    pub begins_try: bool,
    /// It is the first of a try or of a handler.
    pub begins_region: bool,
    /// It goes on to where no instruction of its region stands.
    pub falls_off: bool,
    /// It leads to where its regions don't let it, or ends a region that it may not end.
    pub jumps_off: bool,
    /// It is the call of a constructor that ends the head of one.
    pub ends_head: bool,
}
