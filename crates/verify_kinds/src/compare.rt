// Tests, branches and conversions.

ghost use Rattle.std.specs.Prelude.{◌≡◌, ◌⊎◌, false};
ghost use Rattle.verify_rules.specs.Slots.{AreReferences};
ghost use Rattle.std.specs.Bool.{OnTrue, OnFalse};
ghost use Rattle.cil_rows.specs.declared.row.Row.TheVariants.{Truth};
ghost use Rattle.verify_rules.specs.Kinds.{IsCompared, IsBranchedOn, IsCondition, IsConverted, IsLengthsType, IsEquality, TellsReferences, TellsZero, IsLengthTest, IsBehind};

use crate::slot::{
    are_one_size, are_references, is_32, is_length, is_null, is_number, is_reference,
};
use cil_rows::{Row, Test};
use dc_base::Prim_;
use verify_rules::{Setting, Spot};
use verify_slots::Slot;

/// Whether a test may be made of two slots.
pub fn is_compared(
    setting: &Setting<'_>,
    spot: Spot,
    test: Test,
    unsigned: bool,
    lower: &Slot,
    upper: &Slot,
) -> bool
    ensures yes { OnTrue result (IsCompared setting.now spot test unsigned lower.now upper.now) }
    ensures no { OnFalse result (IsCompared setting.now spot test unsigned lower.now upper.now → ⊥) }
{
    are_one_size(lower, upper) || is_told(setting, spot, test, unsigned, lower, upper)
}

fn is_told(
    setting: &Setting<'_>,
    spot: Spot,
    test: Test,
    unsigned: bool,
    lower: &Slot,
    upper: &Slot,
) -> bool
    ensures yes { OnTrue result ((AreReferences lower.now upper.now × TellsReferences test unsigned upper.now) ⊎ IsLengthTest setting.now spot test unsigned lower.now upper.now) }
    ensures no { OnFalse result ((AreReferences lower.now upper.now × TellsReferences test unsigned upper.now) ⊎ IsLengthTest setting.now spot test unsigned lower.now upper.now → ⊥) }
{
    are_told(test, unsigned, lower, upper)
        || is_length_test(setting, spot, test, unsigned, lower, upper)
}

fn are_told(test: Test, unsigned: bool, lower: &Slot, upper: &Slot) -> bool
    ensures yes { OnTrue result (AreReferences lower.now upper.now × TellsReferences test unsigned upper.now) }
    ensures no { OnFalse result (AreReferences lower.now upper.now × TellsReferences test unsigned upper.now → ⊥) }
{
    are_references(lower, upper) && tells_references(test, unsigned, upper)
}

fn tells_references(test: Test, unsigned: bool, upper: &Slot) -> bool
    ensures yes { OnTrue result (TellsReferences test unsigned upper.now) }
    ensures no { OnFalse result (TellsReferences test unsigned upper.now → ⊥) }
{
    match test {
        Test::Greater => unsigned && is_null(upper),
        Test::Equal | Test::Unequal => true,
        Test::Less | Test::AtMost | Test::AtLeast => false,
    }
}

fn is_equality(test: Test) -> bool
    ensures yes { OnTrue result (IsEquality test) }
    ensures no { OnFalse result (IsEquality test → ⊥) }
{
    matches!(test, Test::Equal | Test::Unequal)
}

fn is_length_test(
    setting: &Setting<'_>,
    spot: Spot,
    test: Test,
    unsigned: bool,
    lower: &Slot,
    upper: &Slot,
) -> bool
    ensures yes { OnTrue result (IsLengthTest setting.now spot test unsigned lower.now upper.now) }
    ensures no { OnFalse result (IsLengthTest setting.now spot test unsigned lower.now upper.now → ⊥) }
{
    is_length(lower) && is_32(upper) && tells_zero(test, unsigned) && is_behind_zero(setting, spot)
}

fn tells_zero(test: Test, unsigned: bool) -> bool
    ensures yes { OnTrue result (TellsZero test unsigned) }
    ensures no { OnFalse result (TellsZero test unsigned → ⊥) }
{
    match test {
        Test::Equal => !unsigned,
        Test::Greater => unsigned,
        _ => false,
    }
}

// Whether the instruction stands directly behind `ldc.i4.0`.
fn is_behind_zero(setting: &Setting<'_>, spot: Spot) -> bool
    ensures yes { OnTrue result (IsBehind setting.now spot (Truth false)) }
    ensures no { OnFalse result (IsBehind setting.now spot (Truth false) → ⊥) }
{
    if spot.number == 0 {
        return false;
    }
    match setting.rows.get(spot.number as usize - 1) {
        Some(row) => is_zero(row),
        None => false,
    }
}

fn is_zero(row: &Row) -> bool
    ensures yes { OnTrue result (row.now ≡ Truth false) }
    ensures no { OnFalse result (row.now ≡ Truth false → ⊥) }
{
    match row {
        Row::Truth(truth) => !truth,
        _ => false,
    }
}

/// Whether a branch may test two slots.
pub fn is_branched_on(test: Test, lower: &Slot, upper: &Slot) -> bool
    ensures yes { OnTrue result (IsBranchedOn test lower.now upper.now) }
    ensures no { OnFalse result (IsBranchedOn test lower.now upper.now → ⊥) }
{
    are_one_size(lower, upper) || (are_references(lower, upper) && is_equality(test))
}

/// Whether a branch may ask if a slot is true, not zero or not null.
pub fn is_condition(slot: &Slot) -> bool
    ensures yes { OnTrue result (IsCondition slot.now) }
    ensures no { OnFalse result (IsCondition slot.now → ⊥) }
{
    is_number(slot) || is_reference(slot) || is_length(slot)
}

/// Whether a slot may be converted so.
pub fn is_converted(to: Prim_, unsigned: bool, checked: bool, slot: &Slot) -> bool
    ensures yes { OnTrue result (IsConverted to unsigned checked slot.now) }
    ensures no { OnFalse result (IsConverted to unsigned checked slot.now → ⊥) }
{
    is_number(slot) || (is_length(slot) && is_lengths_type(to, unsigned, checked))
}

fn is_lengths_type(to: Prim_, unsigned: bool, checked: bool) -> bool
    ensures yes { OnTrue result (IsLengthsType to unsigned checked) }
    ensures no { OnFalse result (IsLengthsType to unsigned checked → ⊥) }
{
    match to {
        Prim_::I4 => !unsigned && !checked,
        _ => false,
    }
}
