// How tightly expressions bind.

ghost use Rattle.std.specs.Prelude.{◌≡◌};
ghost use Rattle.cs_layout.specs.Layout.{form_shown, is_minus_op as is_minus_of};

use cs_layout::binary_level;
use cs_tree::{Form, UnaryOp};

/// How tightly `is` and `as` bind.
pub const RELATIONAL: u8 = 7;

/// How tightly an operator before its operand binds.
pub const UNARY: u8 = 11;

/// How tightly a cast binds.
pub const CAST: u8 = 12;

/// How tightly a new array binds.
pub const NEW_ARRAY: u8 = 13;

/// How tightly all other expressions bind.
pub const PRIMARY: u8 = 14;

/// How tightly an expression binds; a greater number binds tighter.
pub fn level(form: &Form) -> u8
    ensures { result ≡ (form_shown form.now).level }
{
    match form {
        Form::Conditional { .. } => 0,
        Form::Binary { op, .. } => binary_level(*op),
        Form::Is { .. } | Form::As { .. } => RELATIONAL,
        Form::Unary { .. } => UNARY,
        Form::Cast { .. } => CAST,
        Form::NewArray { .. } => NEW_ARRAY,
        Form::Literal { .. }
        | Form::Name { .. }
        | Form::This { .. }
        | Form::Member { .. }
        | Form::Call { .. }
        | Form::BaseMember { .. }
        | Form::BaseCall { .. }
        | Form::Global { .. }
        | Form::GlobalCall { .. }
        | Form::Index { .. }
        | Form::New { .. }
        | Form::Checked { .. }
        | Form::Unchecked { .. }
        | Form::Default { .. }
        | Form::Lambda { .. } => PRIMARY,
    }
}

/// Whether an expression begins with a minus sign of its own.
pub fn is_minus(form: &Form) -> bool
    ensures { result ≡ (form_shown form.now).is_minus }
{
    match form {
        Form::Unary { op, .. } => is_minus_op(*op),
        _ => false,
    }
}

/// Whether an operator is the minus sign.
pub fn is_minus_op(op: UnaryOp) -> bool
    ensures { result ≡ is_minus_of op }
{
    match op {
        UnaryOp::Minus => true,
        UnaryOp::Not | UnaryOp::Complement => false,
    }
}

/// Whether an expression is a lambda.
pub fn is_lambda(form: &Form) -> bool
    ensures { result ≡ (form_shown form.now).is_lambda }
{
    match form {
        Form::Lambda { .. } => true,
        _ => false,
    }
}
