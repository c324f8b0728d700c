// The slots that an instruction takes, by their kinds.

ghost use Rattle.std.specs.Prelude.{◌≡◌};
ghost use Rattle.std.specs.Bool.{OnTrue, OnFalse};
ghost use Rattle.cli_assembly.specs.Meaning.{AreInOrder};
ghost use Rattle.verify_rules.specs.Slots.{Is32, IsNumber, IsReference, AreOneSize, One, Two};
ghost use Rattle.verify_rules.specs.Kinds.{IsKept, IsCompared, IsConverted, IsCondition, IsBranchedOn, IsArrayOf, IsAddressOf, IsOwnPlace};

use crate::array::{is_address_of, is_array_of};
use crate::compare::{is_branched_on, is_compared, is_condition, is_converted};
use crate::slot::{are_one_size, is_32, is_kept, is_number, is_reference};
use cil_rows::{Access, Test};
use dc_base::{Prim_, Ty};
use verify_rules::{Setting, Spot};
use verify_slots::Slot;

pub fn one_kept(frame: &[Slot]) -> bool
    ensures yes { OnTrue result (One IsKept frame.now) }
    ensures no { OnFalse result (One IsKept frame.now → ⊥) }
{
    match frame {
        [slot, ..] => is_kept(slot),
        _ => false,
    }
}

pub fn one_32(frame: &[Slot]) -> bool
    ensures yes { OnTrue result (One Is32 frame.now) }
    ensures no { OnFalse result (One Is32 frame.now → ⊥) }
{
    match frame {
        [slot, ..] => is_32(slot),
        _ => false,
    }
}

pub fn one_number(frame: &[Slot]) -> bool
    ensures yes { OnTrue result (One IsNumber frame.now) }
    ensures no { OnFalse result (One IsNumber frame.now → ⊥) }
{
    match frame {
        [slot, ..] => is_number(slot),
        _ => false,
    }
}

pub fn one_reference(frame: &[Slot]) -> bool
    ensures yes { OnTrue result (One IsReference frame.now) }
    ensures no { OnFalse result (One IsReference frame.now → ⊥) }
{
    match frame {
        [slot, ..] => is_reference(slot),
        _ => false,
    }
}

pub fn one_condition(frame: &[Slot]) -> bool
    ensures yes { OnTrue result (One IsCondition frame.now) }
    ensures no { OnFalse result (One IsCondition frame.now → ⊥) }
{
    match frame {
        [slot, ..] => is_condition(slot),
        _ => false,
    }
}

pub fn one_converted(to: Prim_, unsigned: bool, checked: bool, frame: &[Slot]) -> bool
    ensures yes { OnTrue result (One (IsConverted to unsigned checked) frame.now) }
    ensures no { OnFalse result (One (IsConverted to unsigned checked) frame.now → ⊥) }
{
    match frame {
        [slot, ..] => is_converted(to, unsigned, checked, slot),
        _ => false,
    }
}

pub fn one_address(setting: &Setting<'_>, access: Access, frame: &[Slot]) -> bool
    requires { AreInOrder setting.now.tokens.now }
    ensures yes { OnTrue result (One (IsAddressOf setting.now access) frame.now) }
    ensures no { OnFalse result (One (IsAddressOf setting.now access) frame.now → ⊥) }
{
    match frame {
        [slot, ..] => is_address_of(setting, access, slot),
        _ => false,
    }
}

pub fn two_of_one_size(frame: &[Slot]) -> bool
    ensures yes { OnTrue result (Two AreOneSize frame.now) }
    ensures no { OnFalse result (Two AreOneSize frame.now → ⊥) }
{
    match frame {
        [upper, lower, ..] => are_one_size(lower, upper),
        _ => false,
    }
}

pub fn two_shifted(frame: &[Slot]) -> bool
    ensures yes { OnTrue result (Two (λ x y. IsNumber x × Is32 y) frame.now) }
    ensures no { OnFalse result (Two (λ x y. IsNumber x × Is32 y) frame.now → ⊥) }
{
    match frame {
        [upper, lower, ..] => is_number(lower) && is_32(upper),
        _ => false,
    }
}

pub fn two_compared(
    setting: &Setting<'_>,
    spot: Spot,
    test: Test,
    unsigned: bool,
    frame: &[Slot],
) -> bool
    ensures yes { OnTrue result (Two (IsCompared setting.now spot test unsigned) frame.now) }
    ensures no { OnFalse result (Two (IsCompared setting.now spot test unsigned) frame.now → ⊥) }
{
    match frame {
        [upper, lower, ..] => is_compared(setting, spot, test, unsigned, lower, upper),
        _ => false,
    }
}

pub fn two_branched_on(test: Test, frame: &[Slot]) -> bool
    ensures yes { OnTrue result (Two (IsBranchedOn test) frame.now) }
    ensures no { OnFalse result (Two (IsBranchedOn test) frame.now → ⊥) }
{
    match frame {
        [upper, lower, ..] => is_branched_on(test, lower, upper),
        _ => false,
    }
}

pub fn array_and_index(setting: &Setting<'_>, access: Access, frame: &[Slot]) -> bool
    requires { AreInOrder setting.now.tokens.now }
    ensures yes { OnTrue result (Two (λ x y. IsArrayOf setting.now access x × Is32 y) frame.now) }
    ensures no { OnFalse result (Two (λ x y. IsArrayOf setting.now access x × Is32 y) frame.now → ⊥) }
{
    match frame {
        [index, array, ..] => is_array_of(setting, access, array) && is_32(index),
        _ => false,
    }
}

pub fn value_and_address(setting: &Setting<'_>, access: Access, frame: &[Slot]) -> bool
    requires { AreInOrder setting.now.tokens.now }
    ensures yes { OnTrue result (Two (λ x y. IsAddressOf setting.now access x) frame.now) }
    ensures no { OnFalse result (Two (λ x y. IsAddressOf setting.now access x) frame.now → ⊥) }
{
    match frame {
        [_, address, ..] => is_address_of(setting, access, address),
        _ => false,
    }
}

/// Whether the place is there and isn't lent.
pub fn is_own_place(ty: Option<Ty>) -> bool
    ensures yes { OnTrue result (IsOwnPlace ty) }
    ensures no { OnFalse result (IsOwnPlace ty → ⊥) }
{
    match ty {
        Some(ty) => !ty.lent,
        None => false,
    }
}
