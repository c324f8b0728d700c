// The members that instructions name.

ghost use Rattle.std.specs.Prelude.{◌≡◌, slice_get};
ghost use Rattle.std.specs.Bool.{OnTrue, OnFalse};
ghost use Rattle.std.specs.Option.{option_copied};
ghost use Rattle.verify_rules.specs.Look.{types_of};
ghost use Rattle.verify_rules.specs.Slots.{IsReference, IsCode, Two};
ghost use Rattle.verify_rules.specs.Kinds.{IsSo, IsCalled, HasSlot, IsReferenceKind, IsInstanceField, IsStaticField, IsInstanceConstructor, IsMade};

use class_rows::{Kind, MemberRow, Sort, TypeRow};
use dc_base::TypeId;
use verify_frames::owner_kind;
use verify_kinds::is_reference;
use verify_rules::Setting;
use verify_slots::Slot;

pub fn names_instance_field(row: Option<&MemberRow>) -> bool
    ensures yes { OnTrue result (IsSo IsInstanceField (option_copied row.entry)) }
    ensures no { OnFalse result (IsSo IsInstanceField (option_copied row.entry) → ⊥) }
{
    match row {
        Some(row) => row.kind.sort() == Sort::Field && !row.is_static,
        None => false,
    }
}

pub fn names_static_field(row: Option<&MemberRow>) -> bool
    ensures yes { OnTrue result (IsSo IsStaticField (option_copied row.entry)) }
    ensures no { OnFalse result (IsSo IsStaticField (option_copied row.entry) → ⊥) }
{
    match row {
        Some(row) => row.kind.sort() == Sort::Field && row.is_static,
        None => false,
    }
}

pub fn names_called(setting: &Setting<'_>, by_slot: bool, row: Option<&MemberRow>) -> bool
    ensures yes { OnTrue result (IsSo (IsCalled setting.now by_slot) (option_copied row.entry)) }
    ensures no { OnFalse result (IsSo (IsCalled setting.now by_slot) (option_copied row.entry) → ⊥) }
{
    match row {
        Some(row) => is_called(setting, by_slot, row),
        None => false,
    }
}

fn is_called(setting: &Setting<'_>, by_slot: bool, row: &MemberRow) -> bool
    ensures yes { OnTrue result (IsCalled setting.now by_slot row.now) }
    ensures no { OnFalse result (IsCalled setting.now by_slot row.now → ⊥) }
{
    row.kind.sort() != Sort::Field && has_slot(setting, by_slot, row)
}

fn has_slot(setting: &Setting<'_>, by_slot: bool, row: &MemberRow) -> bool
    ensures yes { OnTrue result (HasSlot setting.now by_slot row.now) }
    ensures no { OnFalse result (HasSlot setting.now by_slot row.now → ⊥) }
{
    if by_slot {
        !row.is_static && is_reference_kind(owner_kind(setting, row))
    } else {
        true
    }
}

fn is_reference_kind(kind: Option<Kind>) -> bool
    ensures yes { OnTrue result (IsReferenceKind kind) }
    ensures no { OnFalse result (IsReferenceKind kind → ⊥) }
{
    match kind {
        Some(kind) => matches!(
            kind,
            Kind::Class | Kind::StaticClass | Kind::Interface | Kind::Delegate
        ),
        None => false,
    }
}

/// Whether an object or a delegate is made by this constructor of what stands there.
pub fn names_made(setting: &Setting<'_>, row: Option<&MemberRow>, frame: &[Slot]) -> bool
    ensures yes { OnTrue result (IsSo (λ maker. IsInstanceConstructor maker × IsMade (slice_get (types_of setting.now) maker.owner.0) frame.now) (option_copied row.entry)) }
    ensures no { OnFalse result (IsSo (λ maker. IsInstanceConstructor maker × IsMade (slice_get (types_of setting.now) maker.owner.0) frame.now) (option_copied row.entry) → ⊥) }
{
    match row {
        Some(row) => is_constructor(row) && is_made(type_at(setting, row.owner), frame),
        None => false,
    }
}

fn is_constructor(row: &MemberRow) -> bool
    ensures yes { OnTrue result (IsInstanceConstructor row.now) }
    ensures no { OnFalse result (IsInstanceConstructor row.now → ⊥) }
{
    row.kind.sort() == Sort::Constructor && !row.is_static
}

fn type_at<'a>(setting: &Setting<'a>, ty: TypeId) -> Option<&'a TypeRow>
    ensures { option_copied result ≡ slice_get (types_of setting.now) ty.0 }
{
    if ty.0 < setting.table.types() {
        Some(setting.table.type_row(ty))
    } else {
        None
    }
}

fn is_made(row: Option<&TypeRow>, frame: &[Slot]) -> bool
    ensures yes { OnTrue result (IsMade (option_copied row.entry) frame.now) }
    ensures no { OnFalse result (IsMade (option_copied row.entry) frame.now → ⊥) }
{
    match row {
        Some(row) => match row.kind {
            Kind::Class => !row.is_abstract,
            Kind::Delegate => target_and_code(frame),
            _ => false,
        },
        None => false,
    }
}

fn target_and_code(frame: &[Slot]) -> bool
    ensures yes { OnTrue result (Two (λ x y. IsReference x × IsCode y) frame.now) }
    ensures no { OnFalse result (Two (λ x y. IsReference x × IsCode y) frame.now → ⊥) }
{
    match frame {
        [code, target, ..] => is_reference(target) && is_code(code),
        _ => false,
    }
}

fn is_code(slot: &Slot) -> bool
    ensures yes { OnTrue result (IsCode slot.now) }
    ensures no { OnFalse result (IsCode slot.now → ⊥) }
{
    matches!(slot, Slot::Code(_))
}
