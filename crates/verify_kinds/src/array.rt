// Arrays, and the places that accesses find.

ghost use Rattle.std.specs.Prelude.{◌≡◌, ◌<◌, Contains, Some};
ghost use Rattle.std.specs.Bool.{OnTrue, OnFalse};
ghost use Rattle.cli_assembly.specs.Meaning.{AreInOrder};
ghost use Rattle.verify_rules.specs.Held.{element_of, size_of};
ghost use Rattle.verify_rules.specs.Kinds.{Accesses, IsSized, IsReferenceAccess, IsSo, IsThere, AreArrays, IsArrayOf, HasLength, IsAddressOf, IsElementType, IsUntyped, IsValueHeld, IsAnyHeld};

use cil_rows::Access;
use dc_base::{Prim_, Ty};
use verify_rules::{Held, Setting, held_by, named_ty};
use verify_slots::Slot;

/// Whether an access finds a place of this type.
pub fn accesses(setting: &Setting<'_>, access: Access, ty: Ty) -> bool
    requires { AreInOrder setting.now.tokens.now }
    ensures yes { OnTrue result (Accesses setting.now access ty) }
    ensures no { OnFalse result (Accesses setting.now access ty → ⊥) }
{
    match access {
        Access::Number(prim) => is_sized(prim, held_by(setting.table, ty)),
        Access::Reference => is_held_reference(held_by(setting.table, ty)),
        Access::Typed(token) => is_just(named_ty(setting, token), ty),
    }
}

fn is_just(named: Option<Ty>, ty: Ty) -> bool
    ensures yes { OnTrue result (named ≡ Some ty) }
    ensures no { OnFalse result (named ≡ Some ty → ⊥) }
{
    match named {
        Some(other) => other == ty,
        None => false,
    }
}

fn is_held_reference(held: Held) -> bool
    ensures yes { OnTrue result (held ≡ Held.Reference) }
    ensures no { OnFalse result (held ≡ Held.Reference → ⊥) }
{
    matches!(held, Held::Reference)
}

fn is_sized(prim: Prim_, held: Held) -> bool
    ensures yes { OnTrue result (IsSized prim held) }
    ensures no { OnFalse result (IsSized prim held → ⊥) }
{
    match held {
        Held::Number(other) => size_of(prim) == size_of(other),
        _ => false,
    }
}

/// How many bytes a number has.
pub fn size_of(prim: Prim_) -> u8
    ensures { result ≡ size_of prim }
{
    match prim {
        Prim_::Bool | Prim_::I1 | Prim_::U1 => 1,
        Prim_::Char | Prim_::I2 | Prim_::U2 => 2,
        Prim_::I4 | Prim_::U4 => 4,
        Prim_::I8 | Prim_::U8 => 8,
    }
}

/// The element type of an array. None of any other type.
pub fn element_of(ty: Ty) -> Option<Ty>
    ensures { result ≡ element_of ty }
{
    if ty.lent || ty.arrays == 0 {
        return None;
    }
    Some(Ty {
        core: ty.core,
        arrays: ty.arrays - 1,
        lent: false,
    })
}

/// Whether a slot is an array, or null, that the access may read.
pub fn is_array_of(setting: &Setting<'_>, access: Access, slot: &Slot) -> bool
    requires { AreInOrder setting.now.tokens.now }
    ensures yes { OnTrue result (IsArrayOf setting.now access slot.now) }
    ensures no { OnFalse result (IsArrayOf setting.now access slot.now → ⊥) }
{
    match slot {
        Slot::Refs(set, _) => are_arrays(setting, access, set.items()),
        _ => false,
    }
}

fn are_arrays(setting: &Setting<'_>, access: Access, set: &[Ty]) -> bool
    requires { AreInOrder setting.now.tokens.now }
    ensures yes { OnTrue result (AreArrays setting.now access set.now) }
    ensures no { OnFalse result (AreArrays setting.now access set.now → ⊥) }
{
    (is_reference_access(access) || set.len() <= 1) && all_accessed(setting, access, set)
}

fn is_reference_access(access: Access) -> bool
    ensures yes { OnTrue result (IsReferenceAccess access) }
    ensures no { OnFalse result (IsReferenceAccess access → ⊥) }
{
    matches!(access, Access::Reference)
}

fn all_accessed(setting: &Setting<'_>, access: Access, set: &[Ty]) -> bool
    requires { AreInOrder setting.now.tokens.now }
    ensures yes { OnTrue result ((array : Ty) → Contains set.now array → IsSo (Accesses setting.now access) (element_of array)) }
    ensures no { OnFalse result (((array : Ty) → Contains set.now array → IsSo (Accesses setting.now access) (element_of array)) → ⊥) }
{
    for array in set {
        if !is_accessed(setting, access, element_of(*array)) {
            return false;
        }
    }
    true
}

fn is_accessed(setting: &Setting<'_>, access: Access, element: Option<Ty>) -> bool
    requires { AreInOrder setting.now.tokens.now }
    ensures yes { OnTrue result (IsSo (Accesses setting.now access) element) }
    ensures no { OnFalse result (IsSo (Accesses setting.now access) element → ⊥) }
{
    match element {
        Some(ty) => accesses(setting, access, ty),
        None => false,
    }
}

/// Whether a slot is an address of a place that the access may read.
pub fn is_address_of(setting: &Setting<'_>, access: Access, slot: &Slot) -> bool
    requires { AreInOrder setting.now.tokens.now }
    ensures yes { OnTrue result (IsAddressOf setting.now access slot.now) }
    ensures no { OnFalse result (IsAddressOf setting.now access slot.now → ⊥) }
{
    match slot {
        Slot::Lent(ty, _) => accesses(setting, access, *ty),
        _ => false,
    }
}

/// Whether an array may have elements of this type.
pub fn is_element_type(setting: &Setting<'_>, ty: Ty) -> bool
    ensures yes { OnTrue result (IsElementType setting.now ty) }
    ensures no { OnFalse result (IsElementType setting.now ty → ⊥) }
{
    is_any_held(held_by(setting.table, ty)) && ty.arrays < 255
}

/// Whether a place holds a value that may be boxed.
pub fn is_value_held(held: Held) -> bool
    ensures yes { OnTrue result (IsValueHeld held) }
    ensures no { OnFalse result (IsValueHeld held → ⊥) }
{
    matches!(held, Held::Number(_) | Held::Opaque(_))
}

/// Whether a place holds anything but an address.
pub fn is_any_held(held: Held) -> bool
    ensures yes { OnTrue result (IsAnyHeld held) }
    ensures no { OnFalse result (IsAnyHeld held → ⊥) }
{
    !matches!(held, Held::Nothing | Held::Address)
}
