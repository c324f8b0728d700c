// What may stand over a jump.

ghost use Rattle.std.specs.Prelude.{◌≡◌, true, drop, Contains};
ghost use Rattle.verify_slots.specs.declared.slot.Slot.{Slot};
ghost use Rattle.std.specs.Bool.{OnTrue, OnFalse};
ghost use Rattle.cli_assembly.specs.Meaning.{AreInOrder};
ghost use Rattle.verify_rules.specs.Slots.{IsFleeting, IsCode};
ghost use Rattle.verify_rules.specs.Gap.{Jumps, KeepsBorder};
ghost use Rattle.verify_frames.specs.Among.{HasNone, HasSome};

use crate::depth::taken;
use cil_rows::Row;
use verify_rules::{Setting, Spot};
use verify_slots::Slot;

/// Whether lengths, addresses and methods stand at no aim and over no jump, and no method is left for a later instruction.
pub fn keeps_border(setting: &Setting<'_>, spot: Spot, row: &Row, frame: &[Slot]) -> bool
    requires { AreInOrder setting.now.tokens.now }
    ensures yes { OnTrue result (KeepsBorder setting.now spot row.now frame.now) }
    ensures no { OnFalse result (KeepsBorder setting.now spot row.now frame.now → ⊥) }
{
    let rest = below(frame, taken(setting, row));
    if !stands_at_aim(spot, frame) {
        return false;
    }
    if !stands_over_jump(row, rest) {
        return false;
    }
    leaves_no_code(rest)
}

fn stands_at_aim(spot: Spot, frame: &[Slot]) -> bool
    ensures yes { OnTrue result (spot.is_aim ≡ true → (slot : Slot) → Contains frame.now slot → IsFleeting slot → ⊥) }
    ensures no { OnFalse result ((spot.is_aim ≡ true → (slot : Slot) → Contains frame.now slot → IsFleeting slot → ⊥) → ⊥) }
{
    if spot.is_aim {
        leaves_no_fleeting(frame)
    } else {
        true
    }
}

fn stands_over_jump(row: &Row, rest: &[Slot]) -> bool
    ensures yes { OnTrue result (Jumps row.now → (slot : Slot) → Contains rest.now slot → IsFleeting slot → ⊥) }
    ensures no { OnFalse result ((Jumps row.now → (slot : Slot) → Contains rest.now slot → IsFleeting slot → ⊥) → ⊥) }
{
    if jumps(row) {
        leaves_no_fleeting(rest)
    } else {
        true
    }
}

#[tactic(auto, using(crate::proofs::Among::none_contained, crate::proofs::Among::contained))]
fn leaves_no_fleeting(slots: &[Slot]) -> bool
    ensures yes { OnTrue result ((slot : Slot) → Contains slots.now slot → IsFleeting slot → ⊥) }
    ensures no { OnFalse result (((slot : Slot) → Contains slots.now slot → IsFleeting slot → ⊥) → ⊥) }
{
    !has_fleeting(slots)
}

#[tactic(auto, using(crate::proofs::Among::none_contained, crate::proofs::Among::contained))]
fn leaves_no_code(slots: &[Slot]) -> bool
    ensures yes { OnTrue result ((slot : Slot) → Contains slots.now slot → IsCode slot → ⊥) }
    ensures no { OnFalse result (((slot : Slot) → Contains slots.now slot → IsCode slot → ⊥) → ⊥) }
{
    !has_code(slots)
}

// The slots under so many.
pub fn below(frame: &[Slot], count: usize) -> &[Slot]
    ensures { result.now ≡ drop count frame.now }
{
    if count < frame.len() {
        &frame[count..]
    } else {
        &[]
    }
}

fn has_fleeting(slots: &[Slot]) -> bool
    ensures yes { OnTrue result (HasSome IsFleeting slots.now) }
    ensures no { OnFalse result (HasNone IsFleeting slots.now) }
{
    for slot in slots {
        if is_fleeting(slot) {
            return true;
        }
    }
    false
}

fn has_code(slots: &[Slot]) -> bool
    ensures yes { OnTrue result (HasSome IsCode slots.now) }
    ensures no { OnFalse result (HasNone IsCode slots.now) }
{
    for slot in slots {
        if is_code(slot) {
            return true;
        }
    }
    false
}

fn is_fleeting(slot: &Slot) -> bool
    ensures yes { OnTrue result (IsFleeting slot.now) }
    ensures no { OnFalse result (IsFleeting slot.now → ⊥) }
{
    matches!(slot, Slot::Length | Slot::Lent(_, _) | Slot::Code(_))
}

fn is_code(slot: &Slot) -> bool
    ensures yes { OnTrue result (IsCode slot.now) }
    ensures no { OnFalse result (IsCode slot.now → ⊥) }
{
    matches!(slot, Slot::Code(_))
}

fn jumps(row: &Row) -> bool
    ensures yes { OnTrue result (Jumps row.now) }
    ensures no { OnFalse result (Jumps row.now → ⊥) }
{
    matches!(
        row,
        Row::Branch { .. }
            | Row::BranchIf { .. }
            | Row::BranchCompare { .. }
            | Row::Switch(_)
            | Row::Leave { .. }
            | Row::EndFinally
    )
}
