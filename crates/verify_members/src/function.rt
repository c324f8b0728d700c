// What a delegate may be made of.

ghost use Rattle.std.specs.Prelude.{◌≡◌, ◌≢◌, false, slice_get};
ghost use Rattle.std.specs.Bool.{OnTrue, OnFalse};
ghost use Rattle.class_rows.specs.declared.row.Virt.TheVariants.{Plain};
ghost use Rattle.class_rows.specs.declared.row.Sort.TheVariants.{Constructor};
ghost use Rattle.class_rows.specs.Names.{IsReference};
ghost use Rattle.class_rows.specs.Members.{sort_of};
ghost use Rattle.verify_slots.specs.declared.slot.Mark.TheVariants.{This};
ghost use Rattle.verify_rules.specs.Look.{types_of};
ghost use Rattle.verify_rules.specs.Slots.{IsMarked};
ghost use Rattle.verify_rules.specs.Kinds.{IsSo};
ghost use Rattle.verify_rules.specs.Members.{IsFunctionOf, IsFunction, IsAccessor, IsByBase};

use crate::base::{is_by_base, is_of_references, lists};
use crate::receiver::is_plain;
use cil_rows::Row;
use class_rows::{MemberRow, Sort};
use dc_base::MemberId;
use verify_frames::is_this;
use verify_rules::Setting;
use verify_slots::Slot;

/// Whether a member that the instruction takes as a function may be one.
pub fn is_function_of(
    setting: &Setting<'_>,
    row: &Row,
    frame: &[Slot],
    member: MemberId,
    member_row: &MemberRow,
) -> bool
    ensures yes { OnTrue result (IsFunctionOf setting.now row.now frame.now member member_row.now) }
    ensures no { OnFalse result (IsFunctionOf setting.now row.now frame.now member member_row.now → ⊥) }
{
    match row {
        Row::Function { by_slot, .. } => is_function(setting, *by_slot, frame, member, member_row),
        _ => true,
    }
}

fn is_function(
    setting: &Setting<'_>,
    by_slot: bool,
    frame: &[Slot],
    member: MemberId,
    row: &MemberRow,
) -> bool
    ensures yes { OnTrue result (IsFunction setting.now by_slot frame.now member row.now) }
    ensures no { OnFalse result (IsFunction setting.now by_slot frame.now member row.now → ⊥) }
{
    is_no_constructor(row)
        && !lists(setting.printed, member)
        && is_no_accessor(setting, row)
        && is_called_as_itself(setting, by_slot, frame, member, row)
}

fn is_no_constructor(row: &MemberRow) -> bool
    ensures yes { OnTrue result (sort_of row.now.kind ≢ Constructor) }
    ensures no { OnFalse result ((sort_of row.now.kind ≢ Constructor) → ⊥) }
{
    row.kind.sort() != Sort::Constructor
}

fn is_no_accessor(setting: &Setting<'_>, row: &MemberRow) -> bool
    ensures yes { OnTrue result (IsAccessor (sort_of row.now.kind) → IsReference (types_of setting.now) row.now.owner.0 → ⊥) }
    ensures no { OnFalse result ((IsAccessor (sort_of row.now.kind) → IsReference (types_of setting.now) row.now.owner.0 → ⊥) → ⊥) }
{
    !is_accessor(row.kind.sort()) || !is_of_references(setting, row.owner)
}

fn is_accessor(sort: Sort) -> bool
    ensures yes { OnTrue result (IsAccessor sort) }
    ensures no { OnFalse result (IsAccessor sort → ⊥) }
{
    !matches!(sort, Sort::Field | Sort::Method | Sort::Constructor)
}

// Whether a virtual member that goes by no slot is one of `base`, on `this`.
fn is_called_as_itself(
    setting: &Setting<'_>,
    by_slot: bool,
    frame: &[Slot],
    member: MemberId,
    row: &MemberRow,
) -> bool
    ensures yes { OnTrue result (by_slot ≡ false → row.now.virt ≢ Plain → IsSo (IsMarked This) (slice_get frame.now 0) × IsByBase setting.now member row.now) }
    ensures no { OnFalse result ((by_slot ≡ false → row.now.virt ≢ Plain → IsSo (IsMarked This) (slice_get frame.now 0) × IsByBase setting.now member row.now) → ⊥) }
{
    by_slot || is_plain(row.virt) || is_base_on_this(setting, frame, member, row)
}

fn is_base_on_this(setting: &Setting<'_>, frame: &[Slot], member: MemberId, row: &MemberRow) -> bool
    ensures yes { OnTrue result (IsSo (IsMarked This) (slice_get frame.now 0) × IsByBase setting.now member row.now) }
    ensures no { OnFalse result (IsSo (IsMarked This) (slice_get frame.now 0) × IsByBase setting.now member row.now → ⊥) }
{
    is_this(frame.get(0)) && is_by_base(setting, member, row)
}
