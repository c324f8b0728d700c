// What is written once: the receiver, and fields of constructors.

ghost use Rattle.std.specs.Prelude.{◌≡◌, true, false, slice_get};
ghost use Rattle.std.specs.Bool.{OnTrue, OnFalse};
ghost use Rattle.std.specs.Option.{option_copied};
ghost use Rattle.cli_assembly.specs.Meaning.{AreInOrder};
ghost use Rattle.verify_slots.specs.declared.slot.Mark.TheVariants.{This};
ghost use Rattle.verify_rules.specs.Look.{method_row};
ghost use Rattle.verify_rules.specs.Slots.{IsMarked};
ghost use Rattle.verify_rules.specs.Kinds.{IsSo};
ghost use Rattle.verify_rules.specs.Members.{KeepsThis, KeepsInitOnly, IsInitOnly, IsBeside, IsWritable, IsWritableOn, IfSo};

use crate::place::is_receiver;
use cil_rows::Row;
use class_rows::{MemberKind, MemberRow, Sort};
use verify_rules::{Setting, member_at, named_row};
use verify_slots::{Mark, Slot};

/// Whether the receiver of the method stays what it is.
pub fn keeps_this(setting: &Setting<'_>, row: &Row) -> bool
    ensures yes { OnTrue result (KeepsThis setting.now row.now) }
    ensures no { OnFalse result (KeepsThis setting.now row.now → ⊥) }
{
    match row {
        Row::StoreArgument(number) | Row::ArgumentAddress(number) => !is_receiver(setting, *number),
        _ => true,
    }
}

/// Whether a field that is written once is written by the constructor of its type.
pub fn keeps_init_only(setting: &Setting<'_>, row: &Row, frame: &[Slot]) -> bool
    requires { AreInOrder setting.now.tokens.now }
    ensures yes { OnTrue result (KeepsInitOnly setting.now row.now frame.now) }
    ensures no { OnFalse result (KeepsInitOnly setting.now row.now frame.now → ⊥) }
{
    match row {
        Row::StoreField(token) => is_writable_on(setting, frame.get(1), named_row(setting, *token)),
        Row::FieldAddress(token) => {
            is_writable_on(setting, frame.get(0), named_row(setting, *token))
        }
        Row::StoreStatic(token) | Row::StaticAddress(token) => {
            is_writable(setting, named_row(setting, *token))
        }
        _ => true,
    }
}

fn is_writable_on(setting: &Setting<'_>, slot: Option<&Slot>, field: Option<&MemberRow>) -> bool
    ensures yes { OnTrue result (IfSo (IsWritableOn setting.now (option_copied slot.entry)) (option_copied field.entry)) }
    ensures no { OnFalse result (IfSo (IsWritableOn setting.now (option_copied slot.entry)) (option_copied field.entry) → ⊥) }
{
    match field {
        Some(row) => !is_init_only(&row.kind)
            || (is_so_beside(setting, row, false) && is_this(slot)),
        None => true,
    }
}

fn is_writable(setting: &Setting<'_>, field: Option<&MemberRow>) -> bool
    ensures yes { OnTrue result (IfSo (IsWritable setting.now true) (option_copied field.entry)) }
    ensures no { OnFalse result (IfSo (IsWritable setting.now true) (option_copied field.entry) → ⊥) }
{
    match field {
        Some(row) => !is_init_only(&row.kind) || is_so_beside(setting, row, true),
        None => true,
    }
}

fn is_init_only(kind: &MemberKind) -> bool
    ensures yes { OnTrue result (IsInitOnly kind.now) }
    ensures no { OnFalse result (IsInitOnly kind.now → ⊥) }
{
    match kind {
        MemberKind::Field { init_only, .. } => *init_only,
        _ => false,
    }
}

// Whether the method is a constructor, or the initializer, of the field's type.
fn is_so_beside(setting: &Setting<'_>, field: &MemberRow, is_static: bool) -> bool
    ensures yes { OnTrue result (IsSo (IsBeside field.now is_static) (method_row setting.now)) }
    ensures no { OnFalse result (IsSo (IsBeside field.now is_static) (method_row setting.now) → ⊥) }
{
    match member_at(setting.table, setting.method) {
        Some(row) => is_beside(field, is_static, row),
        None => false,
    }
}

fn is_beside(field: &MemberRow, is_static: bool, row: &MemberRow) -> bool
    ensures yes { OnTrue result (IsBeside field.now is_static row.now) }
    ensures no { OnFalse result (IsBeside field.now is_static row.now → ⊥) }
{
    row.kind.sort() == Sort::Constructor
        && row.is_static == is_static
        && row.owner.0 == field.owner.0
}

// Whether the slot is the receiver of the method.
pub fn is_this(slot: Option<&Slot>) -> bool
    ensures yes { OnTrue result (IsSo (IsMarked This) (option_copied slot.entry)) }
    ensures no { OnFalse result (IsSo (IsMarked This) (option_copied slot.entry) → ⊥) }
{
    match slot {
        Some(slot) => is_marked_this(slot),
        None => false,
    }
}

fn is_marked_this(slot: &Slot) -> bool
    ensures yes { OnTrue result (IsMarked This slot.now) }
    ensures no { OnFalse result (IsMarked This slot.now → ⊥) }
{
    match slot {
        Slot::Refs(_, mark) => matches!(mark, Mark::This),
        _ => false,
    }
}
