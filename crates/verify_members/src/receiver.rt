// The receivers of calls that go by no slot.

ghost use Rattle.std.specs.Prelude.{◌≡◌, ◌≢◌, ◌⊎◌, true, false, slice_get, length};
ghost use Rattle.std.specs.Bool.{OnTrue, OnFalse};
ghost use Rattle.std.specs.Option.{option_copied};
ghost use Rattle.cli_assembly.specs.Meaning.{AreInOrder};
ghost use Rattle.cil_rows.specs.declared.row.Row.TheVariants.{Dup};
ghost use Rattle.class_rows.specs.declared.row.Virt.TheVariants.{Plain};
ghost use Rattle.class_rows.specs.Members.{sort_of};
ghost use Rattle.verify_slots.specs.declared.slot.Mark.TheVariants.{This, Fresh};
ghost use Rattle.verify_rules.specs.Look.{members_of, member_at};
ghost use Rattle.verify_rules.specs.Slots.{IsMarked};
ghost use Rattle.verify_rules.specs.Kinds.{IsBehind};
ghost use Rattle.verify_rules.specs.Members.{KeepsReceiver, IsReceived, IsReceivedBy, IsAddress, IsByBase, IfSo};

use crate::base::is_by_base;
use cil_rows::Row;
use class_rows::{MemberRow, Sort, Virt};
use dc_base::MemberId;
use verify_rules::{Setting, Spot, member_at, named_member};
use verify_slots::{Mark, Slot};

/// Whether a call is made on a receiver on which C# can make it, and a function by a slot is the copied receiver's.
pub fn keeps_receiver(setting: &Setting<'_>, spot: Spot, row: &Row, frame: &[Slot]) -> bool
    requires { AreInOrder setting.now.tokens.now }
    ensures yes { OnTrue result (KeepsReceiver setting.now spot row.now frame.now) }
    ensures no { OnFalse result (KeepsReceiver setting.now spot row.now frame.now → ⊥) }
{
    match row {
        Row::Call { callee, by_slot } => {
            let member = named_member(setting, *callee);
            is_called(setting, spot, *by_slot, member, frame)
        }
        Row::Function { by_slot, .. } => {
            if *by_slot {
                is_behind_dup(setting, spot) && !spot.is_aim
            } else {
                true
            }
        }
        _ => true,
    }
}

fn is_called(
    setting: &Setting<'_>,
    spot: Spot,
    by_slot: bool,
    member: Option<MemberId>,
    frame: &[Slot],
) -> bool
    ensures yes { OnTrue result (IfSo (λ m. IfSo (IsReceived setting.now spot by_slot m frame.now) (member_at (members_of setting.now) m)) member) }
    ensures no { OnFalse result (IfSo (λ m. IfSo (IsReceived setting.now spot by_slot m frame.now) (member_at (members_of setting.now) m)) member → ⊥) }
{
    match member {
        Some(member) => is_received_there(
            setting,
            spot,
            by_slot,
            member,
            frame,
            member_at(setting.table, member),
        ),
        None => true,
    }
}

fn is_received_there(
    setting: &Setting<'_>,
    spot: Spot,
    by_slot: bool,
    member: MemberId,
    frame: &[Slot],
    row: Option<&MemberRow>,
) -> bool
    ensures yes { OnTrue result (IfSo (IsReceived setting.now spot by_slot member frame.now) (option_copied row.entry)) }
    ensures no { OnFalse result (IfSo (IsReceived setting.now spot by_slot member frame.now) (option_copied row.entry) → ⊥) }
{
    match row {
        Some(row) => is_received(setting, spot, by_slot, member, frame, row),
        None => true,
    }
}

fn is_received(
    setting: &Setting<'_>,
    spot: Spot,
    by_slot: bool,
    member: MemberId,
    frame: &[Slot],
    row: &MemberRow,
) -> bool
    ensures yes { OnTrue result (IsReceived setting.now spot by_slot member frame.now row.now) }
    ensures no { OnFalse result (IsReceived setting.now spot by_slot member frame.now row.now → ⊥) }
{
    if by_slot {
        row.kind.sort() != Sort::Constructor
    } else if row.is_static {
        row.kind.sort() != Sort::Constructor
    } else {
        is_received_at(setting, spot, member, row, frame.get(row.params.len()))
    }
}

fn is_received_at(
    setting: &Setting<'_>,
    spot: Spot,
    member: MemberId,
    row: &MemberRow,
    slot: Option<&Slot>,
) -> bool
    ensures yes { OnTrue result (IfSo (IsReceivedBy setting.now spot member row.now (sort_of row.now.kind)) (option_copied slot.entry)) }
    ensures no { OnFalse result (IfSo (IsReceivedBy setting.now spot member row.now (sort_of row.now.kind)) (option_copied slot.entry) → ⊥) }
{
    match slot {
        Some(slot) => is_received_by(setting, spot, member, row, row.kind.sort(), slot),
        None => true,
    }
}

fn is_received_by(
    setting: &Setting<'_>,
    spot: Spot,
    member: MemberId,
    row: &MemberRow,
    sort: Sort,
    slot: &Slot,
) -> bool
    ensures yes { OnTrue result (IsReceivedBy setting.now spot member row.now sort slot.now) }
    ensures no { OnFalse result (IsReceivedBy setting.now spot member row.now sort slot.now → ⊥) }
{
    match sort {
        Sort::Constructor => is_marked(Mark::This, slot) && spot.ends_head,
        _ => is_address(slot) || is_there(setting, member, row, slot),
    }
}

// Whether the receiver is known to be there: it is `this`, or an object that was made here.
fn is_there(setting: &Setting<'_>, member: MemberId, row: &MemberRow, slot: &Slot) -> bool
    ensures yes { OnTrue result ((IsMarked This slot.now × (row.now.virt ≢ Plain → IsByBase setting.now member row.now)) ⊎ (IsMarked Fresh slot.now × (row.now.virt ≡ Plain))) }
    ensures no { OnFalse result ((IsMarked This slot.now × (row.now.virt ≢ Plain → IsByBase setting.now member row.now)) ⊎ (IsMarked Fresh slot.now × (row.now.virt ≡ Plain)) → ⊥) }
{
    (is_marked(Mark::This, slot) && is_plain_or_by_base(setting, member, row))
        || (is_marked(Mark::Fresh, slot) && is_plain(row.virt))
}

fn is_plain_or_by_base(setting: &Setting<'_>, member: MemberId, row: &MemberRow) -> bool
    ensures yes { OnTrue result (row.now.virt ≢ Plain → IsByBase setting.now member row.now) }
    ensures no { OnFalse result ((row.now.virt ≢ Plain → IsByBase setting.now member row.now) → ⊥) }
{
    is_plain(row.virt) || is_by_base(setting, member, row)
}

/// Whether a method has no slot.
pub fn is_plain(virt: Virt) -> bool
    ensures yes { OnTrue result (virt ≡ Plain) }
    ensures no { OnFalse result (virt ≡ Plain → ⊥) }
{
    matches!(virt, Virt::Plain)
}

fn is_address(slot: &Slot) -> bool
    ensures yes { OnTrue result (IsAddress slot.now) }
    ensures no { OnFalse result (IsAddress slot.now → ⊥) }
{
    matches!(slot, Slot::Lent(_, _))
}

fn is_marked(mark: Mark, slot: &Slot) -> bool
    ensures yes { OnTrue result (IsMarked mark slot.now) }
    ensures no { OnFalse result (IsMarked mark slot.now → ⊥) }
{
    match slot {
        Slot::Refs(_, own) => *own == mark,
        _ => false,
    }
}

// Whether the instruction stands directly behind a `dup`.
fn is_behind_dup(setting: &Setting<'_>, spot: Spot) -> bool
    ensures yes { OnTrue result (IsBehind setting.now spot Dup) }
    ensures no { OnFalse result (IsBehind setting.now spot Dup → ⊥) }
{
    if spot.number == 0 {
        return false;
    }
    match setting.rows.get(spot.number as usize - 1) {
        Some(row) => is_dup(row),
        None => false,
    }
}

fn is_dup(row: &Row) -> bool
    ensures yes { OnTrue result (row.now ≡ Dup) }
    ensures no { OnFalse result (row.now ≡ Dup → ⊥) }
{
    matches!(row, Row::Dup)
}
