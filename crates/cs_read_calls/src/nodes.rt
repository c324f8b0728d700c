// Expressions one level above their parts.

ghost use Rattle.std.specs.Prelude.{◌≡◌, ◌<◌, max, IfOk};
ghost use Rattle.dc_base.specs.declared.failure.Or.TheVariants.{Fault as WithFault};
ghost use Rattle.cs_grammar.specs.declared.fault.Fault.TheVariants.{TooDeep};
ghost use Rattle.cs_tree.specs.declared.forms.Form.TheVariants.{Index};
ghost use Rattle.cs_productions.specs.Tokens.{leaf as leaf_of};
ghost use Rattle.cs_productions.specs.Calls.{raised as raised_of, raised_call as raised_call_of, member_of, call_of};

use cs_grammar::Fault;
use cs_productions::{Args, Measured};
use cs_tree::{Form, Name, Spot};
use dc_base::{Boxed, Or};
use std::alloc::{AllocError, Global};

/// Too deep behind what was read, which goes.
pub fn too_deep(_read: Measured) -> Or<Fault>
    ensures { result ≡ WithFault TooDeep }
{
    Or::Fault(Fault::TooDeep)
}

/// An expression on the heap, to be a part of another.
#[derive(Debug, Drop)]
pub struct OnHeap {
    pub form: Boxed<Form>,
    pub height: u32,
    pub spot: Spot,
}

/// Puts an expression on the heap.
pub fn held(alloc: Global, read: Measured) -> Result<OnHeap, AllocError>
    ensures form { IfOk result (λ part. part.form ≡ read.form) }
    ensures height { IfOk result (λ part. part.height ≡ read.height) }
    ensures spot { IfOk result (λ part. part.spot ≡ read.spot) }
{
    let Measured {
        form,
        height,
        spot,
        ..
    } = read;
    let form = Boxed::new(alloc, form)?;
    Ok(OnHeap { form, height, spot })
}

/// An expression without operators.
pub fn leaf(form: Form, spot: Spot) -> Measured
    ensures { result ≡ leaf_of form spot }
{
    Measured {
        form,
        height: 0,
        spot,
        is_call: false,
    }
}

/// An expression one level above the highest of its parts.
pub fn raised(height: u32, form: Form, spot: Spot) -> Measured
    requires { height < 65536 }
    ensures { result ≡ raised_of height form spot }
{
    Measured {
        form,
        height: height + 1,
        spot,
        is_call: false,
    }
}

/// The same, with arguments at its end.
pub fn raised_call(height: u32, form: Form, spot: Spot) -> Measured
    requires { height < 65536 }
    ensures { result ≡ raised_call_of height form spot }
{
    Measured {
        form,
        height: height + 1,
        spot,
        is_call: true,
    }
}

/// `a.b`
pub(crate) fn member(alloc: Global, object: Measured, name: Name) -> Result<Measured, AllocError>
    requires { object.height < 65536 }
    ensures { IfOk result (λ m. m ≡ member_of object name) }
{
    let Measured {
        form,
        height,
        spot,
        ..
    } = object;
    let object = Boxed::new(alloc, form)?;
    Ok(raised(height, Form::Member { spot, object, name }, spot))
}

/// `a.b(c)`
pub(crate) fn call(
    alloc: Global,
    object: Measured,
    name: Name,
    args: Args,
) -> Result<Measured, AllocError>
    requires object { object.height < 65535 }
    requires args { args.height < 65536 }
    ensures { IfOk result (λ m. m ≡ call_of object name args) }
{
    let Measured {
        form,
        height,
        spot,
        ..
    } = object;
    let higher = args.height.max(height + 1);
    let args = args.args;
    let object = Boxed::new(alloc, form)?;
    let form = Form::Call {
        spot,
        object,
        name,
        args,
    };
    Ok(raised_call(higher, form, spot))
}

/// `a[b]`
pub fn element(alloc: Global, array: OnHeap, index: Measured) -> Result<Measured, AllocError>
    requires array { array.height < 65536 }
    requires index { index.height < 65536 }
    ensures { IfOk result (λ m. m ≡ raised_of (max array.height index.height) (Index array.spot array.form index.form) array.spot) }
{
    let OnHeap {
        form: array,
        height,
        spot,
    } = array;
    let higher = height.max(index.height);
    let index = Boxed::new(alloc, index.form)?;
    Ok(raised(higher, Form::Index { spot, array, index }, spot))
}
