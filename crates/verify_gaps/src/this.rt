// Accesses to fields of `this`.

ghost use Rattle.std.specs.Prelude.{◌≡◌, false, Some};
ghost use Rattle.std.specs.Bool.{OnTrue, OnFalse};
ghost use Rattle.class_rows.specs.declared.row.Kind.TheVariants.{Class};
ghost use Rattle.cil_rows.specs.declared.row.Row.TheVariants.{LoadArgument};
ghost use Rattle.verify_rules.specs.Look.{method_row};
ghost use Rattle.verify_rules.specs.Puts.{owner_kind};
ghost use Rattle.verify_rules.specs.Kinds.{IsBehind, IsSo};
ghost use Rattle.verify_rules.specs.Gap.{IsOfThis};
ghost use Rattle.verify_gaps.specs.Parts.{IsOfClass};

use cil_rows::Row;
use class_rows::{Kind, MemberRow};
use verify_frames::owner_kind;
use verify_rules::{Setting, Spot, member_at};

/// Whether an access to a field stands directly behind a push of the receiver of a method of a class, and no other way leads
/// to it.
#[tactic(auto, using(crate::proofs::InClass::to_this, crate::proofs::InClass::not_behind, crate::proofs::InClass::not_in_class))]
pub fn is_of_this(setting: &Setting<'_>, spot: Spot) -> bool
    ensures yes { OnTrue result (IsOfThis setting.now spot) }
    ensures no { OnFalse result (IsOfThis setting.now spot → ⊥) }
{
    if spot.is_aim || spot.begins_region {
        return false;
    }
    is_behind_receiver(setting, spot) && is_in_class(setting)
}

fn is_in_class(setting: &Setting<'_>) -> bool
    ensures yes { OnTrue result (IsSo (IsOfClass setting.now) (method_row setting.now)) }
    ensures no { OnFalse result (IsSo (IsOfClass setting.now) (method_row setting.now) → ⊥) }
{
    match member_at(setting.table, setting.method) {
        Some(method) => is_of_class(setting, method),
        None => false,
    }
}

fn is_of_class(setting: &Setting<'_>, method: &MemberRow) -> bool
    ensures yes { OnTrue result (IsOfClass setting.now method.now) }
    ensures no { OnFalse result (IsOfClass setting.now method.now → ⊥) }
{
    !method.is_static && is_class(owner_kind(setting, method))
}

fn is_class(kind: Option<Kind>) -> bool
    ensures yes { OnTrue result (kind ≡ Some Class) }
    ensures no { OnFalse result (kind ≡ Some Class → ⊥) }
{
    match kind {
        Some(kind) => matches!(kind, Kind::Class),
        None => false,
    }
}

fn is_behind_receiver(setting: &Setting<'_>, spot: Spot) -> bool
    ensures yes { OnTrue result (IsBehind setting.now spot (LoadArgument 0)) }
    ensures no { OnFalse result (IsBehind setting.now spot (LoadArgument 0) → ⊥) }
{
    if spot.number == 0 {
        return false;
    }
    match setting.rows.get(spot.number as usize - 1) {
        Some(row) => is_receiver(row),
        None => false,
    }
}

fn is_receiver(row: &Row) -> bool
    ensures yes { OnTrue result (row.now ≡ LoadArgument 0) }
    ensures no { OnFalse result (row.now ≡ LoadArgument 0 → ⊥) }
{
    match row {
        Row::LoadArgument(number) => *number == 0,
        _ => false,
    }
}
