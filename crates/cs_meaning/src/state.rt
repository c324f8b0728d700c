// What a running body has and how it ends.

use dc_base::Items;

/// A value. A body that calls nothing computes with ints alone.
#[derive(Debug, Drop)]
pub enum Value {
    Int(i32),
}

/// The variables of a running body, each with its value, or none while it is unassigned (ECMA-334, 9.1).
#[derive(Debug, Drop)]
pub struct State {
    pub vars: Items<Option<Value>>,
}

/// How a statement ends (ECMA-334, 13.2 and 13.10): at its end point, by a jump, with an exception, at a question to
/// the world outside, or as nothing that a typed body does.
#[derive(Debug, Drop)]
pub enum End {
    Falls,
    Breaks,
    Continues,
    Goes(u32),
    Returns(Option<Value>),
    Throws(Value),
    Asks,
    Wrong,
}
