// The rule as a whole.

ghost use Rattle.std.specs.Prelude.{◌≡◌, ◌<◌, length, slice_get, drop};
ghost use Rattle.std.specs.Bool.{OnTrue, OnFalse};
ghost use Rattle.std.specs.Option.{option_copied};
ghost use Rattle.cli_assembly.specs.Meaning.{AreInOrder};
ghost use Rattle.verify_rules.specs.Puts.{taken, arguments};
ghost use Rattle.verify_rules.specs.Gap.{HasNoGap, makers, Disturbs, Reads, IsTested, MayCopy, MayUse, IsOfReferenceElement};
ghost use Rattle.verify_frames.specs.Among.{HasSome, HasNone};
ghost use Rattle.verify_gaps.specs.Parts.{HasNoGapAmong, IsUnused, IsPending, TopMayBeCopied, MayBeCopied, MayBePassed, MayBeUsedAt, MayBeUsed};

use crate::disturb::{disturbs, reads};
use crate::maker::{has_pending, has_tested, has_unused, used_slots};
use crate::touch::{is_of_reference_element, is_touching};
use cil_rows::Row;
use verify_frames::{below, taken};
use verify_puts::arguments;
use verify_rules::{Setting, Spot};
use verify_slots::{Slot, Tested};

/// Whether nothing stands between the making of an address and its first use that could tell when it was made.
pub fn has_no_gap(setting: &Setting<'_>, spot: Spot, row: &Row, frame: &[Slot]) -> bool
    requires { AreInOrder setting.now.tokens.now }
    ensures yes { OnTrue result (HasNoGap setting.now spot row.now frame.now) }
    ensures no { OnFalse result (HasNoGap setting.now spot row.now frame.now → ⊥) }
{
    let used = used_slots(setting, row, frame);
    let rest = below(frame, taken(setting, row));
    has_no_gap_among(setting, spot, row, frame, used, rest)
}

fn has_no_gap_among(
    setting: &Setting<'_>,
    spot: Spot,
    row: &Row,
    frame: &[Slot],
    used: &[Slot],
    rest: &[Slot],
) -> bool
    requires { AreInOrder setting.now.tokens.now }
    ensures yes { OnTrue result (HasNoGapAmong setting.now spot row.now frame.now used.now rest.now) }
    ensures no { OnFalse result (HasNoGapAmong setting.now spot row.now frame.now used.now rest.now → ⊥) }
{
    if !is_quiet(setting, spot, row, frame, used) {
        return false;
    }
    if !is_untouched(setting, row, frame, used) {
        return false;
    }
    if !top_may_be_copied(setting, row, frame) {
        return false;
    }
    if !may_be_passed(setting, row, frame) {
        return false;
    }
    is_alone(used, rest)
}

fn is_quiet(setting: &Setting<'_>, spot: Spot, row: &Row, frame: &[Slot], used: &[Slot]) -> bool
    requires { AreInOrder setting.now.tokens.now }
    ensures yes { OnTrue result (Disturbs setting.now spot row.now frame.now → HasNone (IsUnused (makers used.now)) frame.now) }
    ensures no { OnFalse result ((Disturbs setting.now spot row.now frame.now → HasNone (IsUnused (makers used.now)) frame.now) → ⊥) }
{
    !disturbs(setting, spot, row, frame) || has_none_unused(frame, used)
}

#[tactic(auto, using(crate::proofs::Makers::some_or_none))]
fn has_none_unused(slots: &[Slot], used: &[Slot]) -> bool
    ensures yes { OnTrue result (HasNone (IsUnused (makers used.now)) slots.now) }
    ensures no { OnFalse result (HasNone (IsUnused (makers used.now)) slots.now → ⊥) }
{
    !has_unused(slots, used)
}

fn is_untouched(setting: &Setting<'_>, row: &Row, frame: &[Slot], used: &[Slot]) -> bool
    ensures yes { OnTrue result (Reads row.now → HasNone (IsPending setting.now (makers used.now)) frame.now) }
    ensures no { OnFalse result ((Reads row.now → HasNone (IsPending setting.now (makers used.now)) frame.now) → ⊥) }
{
    !reads(row) || has_none_pending(setting, frame, used)
}

#[tactic(auto, using(crate::proofs::Makers::some_or_none))]
fn has_none_pending(setting: &Setting<'_>, slots: &[Slot], used: &[Slot]) -> bool
    ensures yes { OnTrue result (HasNone (IsPending setting.now (makers used.now)) slots.now) }
    ensures no { OnFalse result (HasNone (IsPending setting.now (makers used.now)) slots.now → ⊥) }
{
    !has_pending(setting, slots, used)
}

fn top_may_be_copied(setting: &Setting<'_>, row: &Row, frame: &[Slot]) -> bool
    ensures yes { OnTrue result (TopMayBeCopied setting.now row.now frame.now) }
    ensures no { OnFalse result (TopMayBeCopied setting.now row.now frame.now → ⊥) }
{
    match frame {
        [slot, ..] => may_be_copied(setting, row, slot),
        _ => true,
    }
}

fn may_be_copied(setting: &Setting<'_>, row: &Row, slot: &Slot) -> bool
    ensures yes { OnTrue result (MayBeCopied setting.now row.now slot.now) }
    ensures no { OnFalse result (MayBeCopied setting.now row.now slot.now → ⊥) }
{
    match slot {
        Slot::Lent(_, Tested::By(maker)) => may_copy(setting, row, *maker),
        _ => true,
    }
}

fn may_copy(setting: &Setting<'_>, row: &Row, maker: u32) -> bool
    ensures yes { OnTrue result (MayCopy setting.now row.now maker) }
    ensures no { OnFalse result (MayCopy setting.now row.now maker → ⊥) }
{
    match row {
        Row::Dup => !is_touching(setting, maker),
        Row::Pop => false,
        _ => true,
    }
}

fn may_be_passed(setting: &Setting<'_>, row: &Row, frame: &[Slot]) -> bool
    requires { AreInOrder setting.now.tokens.now }
    ensures yes { OnTrue result (MayBePassed setting.now row.now frame.now) }
    ensures no { OnFalse result (MayBePassed setting.now row.now frame.now → ⊥) }
{
    for depth in 0..taken(setting, row) {
        if !may_be_used_at(setting, row, depth, slot_at(frame, depth)) {
            return false;
        }
    }
    true
}

// The slot so far below the top.
fn slot_at(frame: &[Slot], depth: usize) -> Option<&Slot>
    ensures { option_copied result ≡ slice_get frame.now depth }
{
    frame.get(depth)
}

fn may_be_used_at(setting: &Setting<'_>, row: &Row, depth: usize, slot: Option<&Slot>) -> bool
    requires { AreInOrder setting.now.tokens.now }
    ensures yes { OnTrue result (MayBeUsedAt setting.now row.now depth (option_copied slot.entry)) }
    ensures no { OnFalse result (MayBeUsedAt setting.now row.now depth (option_copied slot.entry) → ⊥) }
{
    match slot {
        Some(slot) => may_be_used(setting, row, depth, slot),
        None => true,
    }
}

fn may_be_used(setting: &Setting<'_>, row: &Row, depth: usize, slot: &Slot) -> bool
    requires { AreInOrder setting.now.tokens.now }
    ensures yes { OnTrue result (MayBeUsed setting.now row.now depth slot.now) }
    ensures no { OnFalse result (MayBeUsed setting.now row.now depth slot.now → ⊥) }
{
    match slot {
        Slot::Lent(_, Tested::By(maker)) => may_use(setting, row, depth, *maker),
        _ => true,
    }
}

fn may_use(setting: &Setting<'_>, row: &Row, depth: usize, maker: u32) -> bool
    requires { AreInOrder setting.now.tokens.now }
    ensures yes { OnTrue result (MayUse setting.now row.now depth maker) }
    ensures no { OnFalse result (MayUse setting.now row.now depth maker → ⊥) }
{
    let passed = is_passed(setting, row, depth, maker);
    match row {
        Row::Dup => true,
        _ => passed,
    }
}

// Whether the address of an element that is a reference is passed as an argument.
fn is_passed(setting: &Setting<'_>, row: &Row, depth: usize, maker: u32) -> bool
    requires { AreInOrder setting.now.tokens.now }
    ensures yes { OnTrue result (IsOfReferenceElement setting.now maker → depth < length (arguments setting.now row.now)) }
    ensures no { OnFalse result ((IsOfReferenceElement setting.now maker → depth < length (arguments setting.now row.now)) → ⊥) }
{
    !is_of_reference_element(setting, maker) || depth < arguments(setting, row).len()
}

fn is_alone(used: &[Slot], rest: &[Slot]) -> bool
    ensures yes { OnTrue result (HasSome IsTested used.now → HasNone (IsUnused (makers used.now)) rest.now) }
    ensures no { OnFalse result ((HasSome IsTested used.now → HasNone (IsUnused (makers used.now)) rest.now) → ⊥) }
{
    !has_tested(used) || has_none_unused(rest, used)
}
