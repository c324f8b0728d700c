// What the productions of expressions leave.

use cs_tree::{Arg, Form, Name, Spot, TypeForm};
use dc_base::Items;

/// An expression, how many operators, calls, casts, lambdas and pairs of parentheses stand on its longest path, and the place of
/// its first token, which may be a parenthesis that leaves nothing in the tree.
#[derive(Debug, Drop)]
pub struct Measured {
    pub form: Form,
    pub height: u32,
    pub spot: Spot,
    /// Whether arguments in parentheses stand at its end, so that it can be a statement.
    pub is_call: bool,
}

/// Arguments, and the height of the highest.
#[derive(Debug, Drop)]
pub struct Args {
    pub args: Items<Arg>,
    pub height: u32,
}

/// What a text that begins with `global` turns out to be: an expression, a type, or a type with a name behind it.
#[derive(Debug, Drop)]
pub enum Lead {
    Form { read: Measured },
    Type { ty: TypeForm },
    Named { ty: TypeForm, name: Name },
}

/// Which production is asked for at some level.
#[derive(Clone, Copy, Debug, PartialEq, Eq)]
pub enum Part {
    /// What stands behind a cast.
    Operand,
    /// `!a`, or what stands without an operator in front.
    Unary,
    /// `a * b`
    Multiplicative,
    /// `a + b`
    Additive,
    /// `a << b`
    Shift,
    /// `a < b`, `a is T`
    Relational,
    /// `a == b`
    Equality,
    /// `a & b`
    And,
    /// `a ^ b`
    ExclusiveOr,
    /// `a | b`
    InclusiveOr,
    /// `a && b`
    ConditionalAnd,
    /// An expression.
    Whole,
    /// An expression that doesn't begin with `global`.
    Plain,
}
