// References and arrays of them.

ghost use Rattle.std.specs.Prelude.{◌≡◌, ◌||◌, IsTrue, true, false};
ghost use Rattle.dc_base.specs.declared.ty.Core.{Core};
ghost use Rattle.class_rows.specs.Types.{HasType};
ghost use Rattle.class_rows.specs.Lookups.{IsAssignable, AreAssignable, IsReferenceTy, brackets, class_ty};
ghost use Rattle.class_assign.specs.Supers.{AreSupers};

use crate::{Supers, is_super};
use class_rows::{Kind, TypeRow};
use dc_base::{Core, Ty, TypeId};

/// Whether a reference to each type of a set may stand where one to another type is wanted. For each it takes the time of
/// its base chain and of the interfaces of each type in it.
pub fn assignable(types: &[TypeRow], supers: &Supers, set: &[Ty], to: Ty) -> bool
    requires { AreSupers types.now supers.now }
    ensures yes { IsTrue result → AreAssignable types.now set.now to }
    ensures no { AreAssignable types.now set.now to → IsTrue result }
{
    for from in set {
        if !goes(types, supers, *from, to) {
            return false;
        }
    }
    true
}

fn goes(types: &[TypeRow], supers: &Supers, from: Ty, to: Ty) -> bool
    requires { AreSupers types.now supers.now }
    ensures yes { IsTrue result → IsAssignable types.now from to }
    ensures no { IsAssignable types.now from to → IsTrue result }
{
    if is_same_ty(from, to) {
        true
    } else if is_either_lent(from, to) {
        false
    } else {
        goes_brackets(types, supers, from.core, from.arrays, to.core, to.arrays)
    }
}

// The same of types that aren't lent, by their brackets.
fn goes_brackets(
    types: &[TypeRow],
    supers: &Supers,
    from: Core,
    count: u8,
    to: Core,
    to_count: u8,
) -> bool
    requires { AreSupers types.now supers.now }
    ensures yes { IsTrue result → IsAssignable types.now (brackets from count) (brackets to to_count) }
    ensures no { IsAssignable types.now (brackets from count) (brackets to to_count) → IsTrue result }
{
    if count == 0 {
        to_count == 0 && goes_core(types, supers, from, to)
    } else if to_count == 0 {
        goes_core(types, supers, Core::Class(supers.array), to)
    } else if is_same_array(from, count, to, to_count) {
        true
    } else if are_references(from, count - 1, to, to_count - 1) {
        goes_brackets(types, supers, from, count - 1, to, to_count - 1)
    } else {
        false
    }
}

fn is_either_lent(one: Ty, other: Ty) -> bool
    ensures { result ≡ (one.lent || other.lent) }
{
    one.lent || other.lent
}

fn is_same_array(one: Core, count: u8, other: Core, other_count: u8) -> bool
    ensures yes { IsTrue result → (one ≡ other) × (count ≡ other_count) }
    ensures no { (one ≡ other) × (count ≡ other_count) → IsTrue result }
{
    count == other_count && is_same_core(one, other)
}

fn are_references(one: Core, count: u8, other: Core, other_count: u8) -> bool
    ensures yes { IsTrue result → IsReferenceTy one count × IsReferenceTy other other_count }
    ensures no { IsReferenceTy one count × IsReferenceTy other other_count → IsTrue result }
{
    is_reference(one, count) && is_reference(other, other_count)
}

fn is_reference(core: Core, count: u8) -> bool
    ensures yes { IsTrue result → IsReferenceTy core count }
    ensures no { IsReferenceTy core count → IsTrue result }
{
    match core {
        Core::Class(_) => true,
        Core::Void => count > 0,
        Core::Prim(_) => count > 0,
        Core::Value(_) => count > 0,
        Core::Enum(_) => count > 0,
    }
}

// The same of types without brackets.
fn goes_core(types: &[TypeRow], supers: &Supers, from: Core, to: Core) -> bool
    requires { AreSupers types.now supers.now }
    ensures yes { IsTrue result → IsAssignable types.now (brackets from 0) (brackets to 0) }
    ensures no { IsAssignable types.now (brackets from 0) (brackets to 0) → IsTrue result }
{
    match from {
        Core::Class(t) => goes_from_class(types, supers, t, to),
        _ => is_same_core(from, to),
    }
}

fn goes_from_class(types: &[TypeRow], supers: &Supers, t: TypeId, to: Core) -> bool
    requires { AreSupers types.now supers.now }
    ensures yes { IsTrue result → IsAssignable types.now (class_ty t.0) (brackets to 0) }
    ensures no { IsAssignable types.now (class_ty t.0) (brackets to 0) → IsTrue result }
{
    match to {
        Core::Class(above) => goes_class(types, supers, t, above),
        _ => false,
    }
}

fn is_same_core(one: Core, other: Core) -> bool
    ensures yes { IsTrue result → one ≡ other }
    ensures no { one ≡ other → IsTrue result }
{
    one == other
}

fn is_same_ty(one: Ty, other: Ty) -> bool
    ensures yes { IsTrue result → one ≡ other }
    ensures no { one ≡ other → IsTrue result }
{
    one == other
}

fn goes_class(types: &[TypeRow], supers: &Supers, t: TypeId, above: TypeId) -> bool
    requires { AreSupers types.now supers.now }
    ensures yes { IsTrue result → IsAssignable types.now (class_ty t.0) (class_ty above.0) }
    ensures no { IsAssignable types.now (class_ty t.0) (class_ty above.0) → IsTrue result }
{
    is_super(types, supers, t, above) || (above == supers.object && is_interface(types, t))
}

fn is_interface(types: &[TypeRow], t: TypeId) -> bool
    ensures yes { IsTrue result → HasType types.now t.0 (λ row. row.kind ≡ Kind.Interface) }
    ensures no { HasType types.now t.0 (λ row. row.kind ≡ Kind.Interface) → IsTrue result }
{
    match types.get(t.0 as usize) {
        Some(row) => matches!(row.kind, Kind::Interface),
        None => false,
    }
}
