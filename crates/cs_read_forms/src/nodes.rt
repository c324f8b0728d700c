// Expressions one level above their operand, and the type that a path is.

ghost use Rattle.std.specs.Prelude.{◌≡◌, ◌<◌, IsSome, Some, is_some};
ghost use Rattle.cs_tree.specs.declared.forms.Form.TheVariants.{Cast, Unary};
ghost use Rattle.cs_productions.specs.Tokens.{kind as kind_of, spot_of, unary_of};
ghost use Rattle.cs_productions.specs.Calls.{raised as raised_of};
ghost use Rattle.cs_productions.specs.Operators.{path_of};

use cs_productions::Measured;
use cs_read_calls::{OnHeap, raised};
use cs_read_types::{spot, unary};
use cs_token::Token;
use cs_tree::{Form, Spot, TypeForm, TypeName};

/// `(int)a`
pub(crate) fn cast(spot: Spot, ty: TypeForm, operand: OnHeap) -> Measured
    requires { operand.height < 65536 }
    ensures { result ≡ raised_of operand.height (Cast spot ty operand.form) spot }
{
    let OnHeap {
        form: operand,
        height,
        ..
    } = operand;
    raised(height, Form::Cast { spot, ty, operand }, spot)
}

/// `!a`, `~a` or `-a`, by its first token
pub(crate) fn one(token: &Token, operand: OnHeap) -> Measured
    requires { operand.height < 65536 }
    ensures { result ≡ raised_of operand.height (Unary (spot_of token.now) (unary_of (kind_of token.now)) operand.form) (spot_of token.now) }
{
    let OnHeap {
        form: operand,
        height,
        ..
    } = operand;
    let spot = spot(token);
    let op = unary(token.kind());
    raised(height, Form::Unary { spot, op, operand }, spot)
}

/// Whether an expression is a path.
pub(crate) fn is_path(form: &Form) -> bool
    ensures { result ≡ is_some (path_of form.now) }
{
    matches!(form, Form::Global { .. })
}

/// The type that a path is.
pub(crate) fn type_of_path(form: Form) -> TypeForm
    requires { IsSome (path_of form) }
    ensures { path_of form ≡ Some result }
{
    match form {
        Form::Global { spot, path } => TypeForm {
            spot,
            name: TypeName::Global { path },
            ranks: 0,
        },
        _ => unreachable!(),
    }
}
