// Arrays and addresses, once more.

ghost use Rattle.std.specs.Prelude.{◌≡◌, Contains};
ghost use Rattle.std.specs.Bool.{OnTrue, OnFalse};
ghost use Rattle.dc_base.specs.declared.names.Token.{Token};
ghost use Rattle.cli_assembly.specs.Meaning.{AreInOrder};
ghost use Rattle.verify_rules.specs.Held.{element_of};
ghost use Rattle.verify_rules.specs.Slots.{Is32, One, Three};
ghost use Rattle.verify_rules.specs.Puts.{FitsKind, FitsNumber};
ghost use Rattle.verify_rules.specs.Kinds.{IsSo, IsThere, IsArrayOf, HasLength, IsBehind, IsBehindUnbox, IsUntyped, held_access};

use crate::named::held_access;
use cil_rows::{Access, Row};
use dc_base::{Prim_, Ty};
use verify_kinds::{element_of, is_32, is_64, is_array_of, is_reference};
use verify_rules::{Held, Setting, Spot};
use verify_slots::Slot;

/// Whether the slot's kind is that of what a place holds.
pub fn fits_kind(held: Held, slot: &Slot) -> bool
    ensures yes { OnTrue result (FitsKind held slot.now) }
    ensures no { OnFalse result (FitsKind held slot.now → ⊥) }
{
    match held {
        Held::Number(prim) => fits_number(prim, slot),
        Held::Reference => is_reference(slot),
        Held::Opaque(ty) => match slot {
            Slot::Opaque(other) => ty.0 == other.0,
            _ => false,
        },
        Held::Address => matches!(slot, Slot::Lent(_, _)),
        Held::Nothing => false,
    }
}

fn fits_number(prim: Prim_, slot: &Slot) -> bool
    ensures yes { OnTrue result (FitsNumber prim slot.now) }
    ensures no { OnFalse result (FitsNumber prim slot.now → ⊥) }
{
    match prim {
        Prim_::I8 | Prim_::U8 => is_64(slot),
        _ => is_32(slot),
    }
}

pub fn stored_element(setting: &Setting<'_>, access: Access, frame: &[Slot]) -> bool
    requires { AreInOrder setting.now.tokens.now }
    ensures yes { OnTrue result (Three (λ x y z. IsArrayOf setting.now access x × Is32 y × IsSo (λ held. FitsKind held z) (held_access setting.now access)) frame.now) }
    ensures no { OnFalse result (Three (λ x y z. IsArrayOf setting.now access x × Is32 y × IsSo (λ held. FitsKind held z) (held_access setting.now access)) frame.now → ⊥) }
{
    match frame {
        [value, index, array, ..] => {
            is_array_of(setting, access, array)
                && is_32(index)
                && fits_access(held_access(setting, access), value)
        }
        _ => false,
    }
}

fn fits_access(held: Option<Held>, slot: &Slot) -> bool
    ensures yes { OnTrue result (IsSo (λ h. FitsKind h slot.now) held) }
    ensures no { OnFalse result (IsSo (λ h. FitsKind h slot.now) held → ⊥) }
{
    match held {
        Some(held) => fits_kind(held, slot),
        None => false,
    }
}

pub fn one_with_length(setting: &Setting<'_>, frame: &[Slot]) -> bool
    requires { AreInOrder setting.now.tokens.now }
    ensures yes { OnTrue result (One (HasLength setting.now) frame.now) }
    ensures no { OnFalse result (One (HasLength setting.now) frame.now → ⊥) }
{
    match frame {
        [slot, ..] => has_length(setting, slot),
        _ => false,
    }
}

fn has_length(setting: &Setting<'_>, slot: &Slot) -> bool
    requires { AreInOrder setting.now.tokens.now }
    ensures yes { OnTrue result (HasLength setting.now slot.now) }
    ensures no { OnFalse result (HasLength setting.now slot.now → ⊥) }
{
    match slot {
        Slot::Refs(set, _) => {
            are_all_arrays(set.items())
                && (set.len() <= 1 || is_array_of(setting, Access::Reference, slot))
        }
        _ => false,
    }
}

fn are_all_arrays(set: &[Ty]) -> bool
    ensures yes { OnTrue result ((array : Ty) → Contains set.now array → IsThere (element_of array)) }
    ensures no { OnFalse result (((array : Ty) → Contains set.now array → IsThere (element_of array)) → ⊥) }
{
    for array in set {
        if element_of(*array).is_none() {
            return false;
        }
    }
    true
}

pub fn is_behind_unbox(setting: &Setting<'_>, spot: Spot, access: Access) -> bool
    ensures yes { OnTrue result (IsBehindUnbox setting.now spot access) }
    ensures no { OnFalse result (IsBehindUnbox setting.now spot access → ⊥) }
{
    match access {
        Access::Typed(_) => follows_unbox(setting, spot),
        _ => true,
    }
}

fn follows_unbox(setting: &Setting<'_>, spot: Spot) -> bool
    ensures yes { OnTrue result ((unboxed : Token) × IsBehind setting.now spot (Row.Unbox unboxed)) }
    ensures no { OnFalse result (((unboxed : Token) × IsBehind setting.now spot (Row.Unbox unboxed)) → ⊥) }
{
    if spot.number == 0 {
        return false;
    }
    match setting.rows.get(spot.number as usize - 1) {
        Some(row) => matches!(row, Row::Unbox(_)),
        None => false,
    }
}

pub fn is_untyped(access: Access) -> bool
    ensures yes { OnTrue result (IsUntyped access) }
    ensures no { OnFalse result (IsUntyped access → ⊥) }
{
    !matches!(access, Access::Typed(_))
}
