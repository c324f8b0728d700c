// The first failure.

ghost use Rattle.std.specs.Prelude.{◌<◌, IfOk, IfErr, Ok};
ghost use Rattle.dc_causes.specs.Answer.{OnFault};
ghost use Rattle.cli_shapes.specs.Own.{IsSound};
ghost use Rattle.cli_shapes.specs.Profile.{ShapesInProfile};
ghost use Rattle.cli_shapes.specs.Shapes.{asked, Meets, IsUnmet};

use crate::marks::all_marks;
use crate::own::Own;
use crate::shape::{Rows, Shape};
use cli_conditions::Unmet;
use dc_base::Or;
use dc_causes::first_broken;
use std::alloc::Global;

/// That own types and members meet the conditions; what is unmet is the first failure, by condition and then by token.
///
/// It takes the time of a few looks at each own type, each own member and each parameter.
pub fn check_shapes(alloc: Global, own: &Own<'_>) -> Result<(), Or<Unmet>>
    requires { IsSound own.now }
    ensures met { IfOk result (λ met. ShapesInProfile own.now (Ok met)) }
    ensures unmet { IfErr result (OnFault (ShapesInProfile own.now)) }
{
    let marks = all_marks(alloc, own)?;
    let rows = Rows { own, marks };
    match first_broken(&Shape::ALL, &rows) {
        Some((shape, n)) => Err(Or::Fault(unmet(shape, &rows, n))),
        None => Ok(()),
    }
}

// What own type, or own member, n fails.
fn unmet(shape: Shape, rows: &Rows, n: usize) -> Unmet
    requires within { n < asked shape rows.now }
    requires fails { Meets shape rows.now n → ⊥ }
    ensures { IsUnmet shape rows.now n result }
{
    // That it doesn't meet the condition says that it fails it, since one of the two is so.
    let _fails = shape.fails(rows, n);
    Unmet {
        condition: shape.condition(),
        token: shape.token(rows, n),
    }
}
