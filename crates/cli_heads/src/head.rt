// Heads as trees.

use dc_base::{Items, MemberId, Seq};

/// A value: the number of the instruction that makes it, and the values that this instruction takes, from the lowest slot
/// up.
#[derive(Debug, Drop)]
#[cycle(value)]
pub struct Value {
    pub at: u32,
    pub of: Items<Value>,
}

/// A store to a field of `this`: the numbers of the instruction that pushes `this` and of the store, the field, and what is
/// stored.
#[derive(Debug, Drop)]
pub struct Store {
    pub receiver: u32,
    pub value: Value,
    pub at: u32,
    pub field: MemberId,
}

/// A head: its stores in order, then the call of a constructor on `this` with its arguments.
#[derive(Debug, Drop)]
pub struct Head {
    pub stores: Seq<Store>,
    pub receiver: u32,
    pub arguments: Seq<Value>,
    pub call: u32,
    pub callee: MemberId,
}
