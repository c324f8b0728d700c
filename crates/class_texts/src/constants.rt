// The values of constants.

ghost use Rattle.std.specs.Prelude.{◌≡◌, IfOk};
ghost use Rattle.std.specs.Option.{option_map};
ghost use Rattle.class_texts.specs.MemberRows.{constant_value, literal_value, spelled, signed};

use class_rows::Literal;
use cs_tree::{Form, Literal as TreeLiteral};
use dc_base::NoMemory;
use std::alloc::Global;

/// The value of an expression that is a constant.
pub fn constant_value(alloc: Global, form: &Form) -> Result<Literal, NoMemory>
    ensures { IfOk result (λ value. value ≡ constant_value form.now) }
{
    match spelled(form) {
        Some((negative, literal)) => literal_value(alloc, negative, literal),
        None => Ok(Literal::NullText),
    }
}

// The literal in it, and whether a minus stands before it.
fn spelled(form: &Form) -> Option<(bool, &TreeLiteral)>
    ensures { option_map (λ p. (p.0, p.1.now)) result ≡ spelled form.now }
{
    match form {
        Form::Literal { literal, .. } => Some((false, literal)),
        Form::Unary { operand, .. } => {
            let (_, literal) = spelled(operand.get())?;
            Some((true, literal))
        }
        Form::Cast { operand, .. } => spelled(operand.get()),
        _ => None,
    }
}

fn literal_value(alloc: Global, negative: bool, literal: &TreeLiteral) -> Result<Literal, NoMemory>
    ensures { IfOk result (λ value. value ≡ literal_value negative literal.now) }
{
    match literal {
        TreeLiteral::Number { value, .. } => Ok(Literal::Number(signed(negative, *value))),
        TreeLiteral::Char { unit } => Ok(Literal::Number(i128::from(*unit))),
        TreeLiteral::Text { units } => Ok(Literal::Text(units.copied(alloc)?)),
        TreeLiteral::Bool { value } => Ok(Literal::Number(i128::from(*value))),
        TreeLiteral::Null => Ok(Literal::NullText),
    }
}

/// A number behind a minus, or alone.
pub fn signed(negative: bool, number: u64) -> i128
    ensures { result ≡ signed negative number }
{
    let number = i128::from(number);
    if negative { -number } else { number }
}
