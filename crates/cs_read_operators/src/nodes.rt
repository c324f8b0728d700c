// Expressions one level above their operands.

ghost use Rattle.std.specs.Prelude.{◌≡◌, ◌==◌, ◌<◌, max, cond, IfOk};
ghost use Rattle.cs_tree.specs.declared.forms.Form.TheVariants.{As, Binary, Conditional, Is};
ghost use Rattle.cs_productions.specs.Calls.{raised as raised_of};
ghost use Rattle.cs_productions.specs.Kinds.{kw_is};
ghost use Rattle.cs_productions.specs.Tokens.{binary_of};

use cs_productions::Measured;
use cs_read_calls::{OnHeap, raised};
use cs_read_types::binary;
use cs_read_types::kinds::KW_IS;
use cs_tree::{Form, TypeForm};
use dc_base::Boxed;
use std::alloc::{AllocError, Global};

/// `a + b`
pub(crate) fn two(
    alloc: Global,
    left: OnHeap,
    kind: u16,
    right: Measured,
) -> Result<Measured, AllocError>
    requires left { left.height < 65536 }
    requires right { right.height < 65536 }
    ensures { IfOk result (λ m. m ≡ raised_of (max left.height right.height) (Binary left.spot (binary_of kind) left.form right.form) left.spot) }
{
    let OnHeap {
        form: left,
        height,
        spot,
    } = left;
    let higher = height.max(right.height);
    let op = binary(kind);
    let right = Boxed::new(alloc, right.form)?;
    let form = Form::Binary {
        spot,
        op,
        left,
        right,
    };
    Ok(raised(higher, form, spot))
}

/// `a is T` or `a as T`, by its operator
pub(crate) fn tested(left: OnHeap, kind: u16, ty: TypeForm) -> Measured
    requires { left.height < 65536 }
    ensures { result ≡ raised_of left.height (cond (kind == kw_is) (Is left.spot left.form ty) (As left.spot left.form ty)) left.spot }
{
    let OnHeap {
        form: operand,
        height,
        spot,
    } = left;
    if kind == KW_IS {
        return raised(height, Form::Is { spot, operand, ty }, spot);
    }
    raised(height, Form::As { spot, operand, ty }, spot)
}

/// `a ? b : c`
pub(crate) fn three(
    alloc: Global,
    test: OnHeap,
    on_true: OnHeap,
    on_false: Measured,
) -> Result<Measured, AllocError>
    requires test { test.height < 65536 }
    requires on_true { on_true.height < 65536 }
    requires on_false { on_false.height < 65536 }
    ensures { IfOk result (λ m. m ≡ raised_of (max test.height (max on_true.height on_false.height)) (Conditional test.spot test.form on_true.form on_false.form) test.spot) }
{
    let OnHeap {
        form: test,
        height,
        spot,
    } = test;
    let higher = height.max(on_true.height.max(on_false.height));
    let on_true = on_true.form;
    let on_false = Boxed::new(alloc, on_false.form)?;
    let form = Form::Conditional {
        spot,
        test,
        on_true,
        on_false,
    };
    Ok(raised(higher, form, spot))
}
