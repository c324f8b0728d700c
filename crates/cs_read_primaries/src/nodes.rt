// Expressions one level above their parts.

ghost use Rattle.std.specs.Prelude.{◌≡◌, ◌<◌, ◌==◌, cond};
ghost use Rattle.cs_tree.specs.declared.forms.Form.TheVariants.{NewArray, Checked, Unchecked};
ghost use Rattle.cs_productions.specs.Kinds.{kw_checked};
ghost use Rattle.cs_productions.specs.Tokens.{kind as kind_of, spot_of};
ghost use Rattle.cs_productions.specs.Calls.{raised as raised_of};

use cs_productions::Measured;
use cs_read_calls::{OnHeap, raised};
use cs_read_types::kinds::KW_CHECKED;
use cs_read_types::spot;
use cs_token::Token;
use cs_tree::{Form, Spot, TypeForm};

/// `new int[a][]`
pub(crate) fn new_array(spot: Spot, element: TypeForm, length: OnHeap) -> Measured
    requires { length.height < 65536 }
    ensures { result ≡ raised_of length.height (NewArray spot element length.form) spot }
{
    let OnHeap {
        form: length,
        height,
        ..
    } = length;
    let form = Form::NewArray {
        spot,
        element,
        length,
    };
    raised(height, form, spot)
}

/// `checked(a)` or `unchecked(a)`, by its first token
pub(crate) fn checked(token: &Token, inner: OnHeap) -> Measured
    requires { inner.height < 65536 }
    ensures { result ≡ raised_of inner.height (cond (kind_of token.now == kw_checked) (Checked (spot_of token.now) inner.form) (Unchecked (spot_of token.now) inner.form)) (spot_of token.now) }
{
    let OnHeap {
        form: inner,
        height,
        ..
    } = inner;
    let spot = spot(token);
    if token.kind() == KW_CHECKED {
        return raised(height, Form::Checked { spot, inner }, spot);
    }
    raised(height, Form::Unchecked { spot, inner }, spot)
}
