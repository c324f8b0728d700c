// The least method that has no implementer for a class.

ghost use Rattle.std.specs.Prelude.{◌≡◌, ◌<◌, Some, true, IsTrue, length, slice_get};
ghost use Rattle.class_keys.specs.Least.{IsLeastOf};
ghost use Rattle.class_rows.specs.Types.{HasType, IsClass};
ghost use Rattle.class_implemented.specs.Known.{IsKnown};
ghost use Rattle.class_implemented.specs.Standing.{IsStandingAt};
ghost use Rattle.class_implemented.specs.Open.{IsMissing, AreClean, ArePassed};

use crate::chain::open_from;
use crate::known::Known;
use crate::standing::Standing;
use class_keys::lesser;
use class_parts::base_of;
use class_rows::{Kind, TypeRow};
use dc_base::TypeId;

/// The least method that is missing in a type; none is in a type that isn't a class.
pub fn missing(
    known: &Known,
    standing: &Standing,
    clean: &[bool],
    passed: &[Option<u32>],
    c: TypeId,
) -> Option<usize>
    requires known { IsKnown known.now }
    requires standing { c.0 < length known.now.types.now → IsStandingAt known.now standing.now c.0 }
    requires clean { AreClean known.now clean.now }
    requires passed { ArePassed known.now passed.now }
    ensures { IsLeastOf (IsMissing known.now c.0) result }
{
    if is_class(known.types, c) {
        missing_in_class(known, standing, clean, passed, c)
    } else {
        None
    }
}

pub fn is_class(types: &[TypeRow], t: TypeId) -> bool
    ensures yes { IsTrue result → HasType types.now t.0 (λ row. IsClass row.kind) }
    ensures no { HasType types.now t.0 (λ row. IsClass row.kind) → IsTrue result }
{
    match types.get(t.0 as usize) {
        Some(row) => matches!(row.kind, Kind::Class | Kind::StaticClass),
        None => false,
    }
}

// Goes up the base chain as far as there may be something missing.
fn missing_in_class(
    known: &Known,
    standing: &Standing,
    clean: &[bool],
    passed: &[Option<u32>],
    c: TypeId,
) -> Option<usize>
    requires known { IsKnown known.now }
    requires clean { AreClean known.now clean.now }
    requires standing { IsStandingAt known.now standing.now c.0 }
    requires passed { ArePassed known.now passed.now }
    requires class { HasType known.now.types.now c.0 (λ row. IsClass row.kind) }
    ensures { IsLeastOf (IsMissing known.now c.0) result }
{
    let mut least = open_from(known, standing, passed, c, c);
    let mut at = c;
    while let Some(base) = base_of(known.types, at) {
        if is_clean(clean, base) {
            return least;
        }
        least = lesser(least, open_from(known, standing, passed, c, base));
        at = base;
    }
    least
}

fn is_clean(clean: &[bool], t: TypeId) -> bool
    ensures { IsTrue result → slice_get clean.now t.0 ≡ Some true }
{
    match clean.get(t.0 as usize) {
        Some(mark) => *mark,
        None => false,
    }
}
