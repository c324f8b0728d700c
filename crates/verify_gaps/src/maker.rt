// The makers of addresses with tests of their own.

ghost use Rattle.std.specs.Prelude.{◌≡◌, take, Contains};
ghost use Rattle.std.specs.Bool.{OnTrue, OnFalse};
ghost use Rattle.cli_assembly.specs.Meaning.{AreInOrder};
ghost use Rattle.verify_rules.specs.Slots.{IsBy};
ghost use Rattle.verify_rules.specs.Gap.{makers, used, IsTested};
ghost use Rattle.verify_frames.specs.Among.{HasSome, HasNone};
ghost use Rattle.verify_gaps.specs.Parts.{IsUnused, IsPending};

use crate::touch::is_touching;
use cil_rows::Row;
use verify_frames::taken;
use verify_rules::Setting;
use verify_slots::{Slot, Tested};

/// The slots whose tests the instruction makes: those that it takes, but `dup` only copies one.
pub fn used_slots<'a>(setting: &Setting<'_>, row: &Row, frame: &'a [Slot]) -> &'a [Slot]
    requires { AreInOrder setting.now.tokens.now }
    ensures { makers result.now ≡ used setting.now row.now frame.now }
{
    let count = taken(setting, row);
    match row {
        Row::Dup => &[],
        _ => above(frame, count),
    }
}

// The upper slots, so many.
fn above(frame: &[Slot], count: usize) -> &[Slot]
    ensures { result.now ≡ take count frame.now }
{
    if count < frame.len() {
        &frame[..count]
    } else {
        frame
    }
}

/// Whether one of these slots is an address with tests of its own that was made there.
#[tactic(auto, using(crate::proofs::Makers::made_some))]
pub fn is_used_by(used: &[Slot], maker: u32) -> bool
    ensures yes { OnTrue result (Contains (makers used.now) maker) }
    ensures no { OnFalse result (Contains (makers used.now) maker → ⊥) }
{
    has_made(used, maker)
}

fn has_made(slots: &[Slot], maker: u32) -> bool
    ensures yes { OnTrue result (HasSome (IsBy maker) slots.now) }
    ensures no { OnFalse result (HasNone (IsBy maker) slots.now) }
{
    for slot in slots {
        if is_made_by(slot, maker) {
            return true;
        }
    }
    false
}

fn is_made_by(slot: &Slot, maker: u32) -> bool
    ensures yes { OnTrue result (IsBy maker slot.now) }
    ensures no { OnFalse result (IsBy maker slot.now → ⊥) }
{
    match slot {
        Slot::Lent(_, Tested::By(number)) => *number == maker,
        _ => false,
    }
}

/// Whether one of these slots is an address with tests of its own that isn't used.
pub fn has_unused(slots: &[Slot], used: &[Slot]) -> bool
    ensures yes { OnTrue result (HasSome (IsUnused (makers used.now)) slots.now) }
    ensures no { OnFalse result (HasNone (IsUnused (makers used.now)) slots.now) }
{
    for slot in slots {
        if is_unused(slot, used) {
            return true;
        }
    }
    false
}

fn is_unused(slot: &Slot, used: &[Slot]) -> bool
    ensures yes { OnTrue result (IsUnused (makers used.now) slot.now) }
    ensures no { OnFalse result (IsUnused (makers used.now) slot.now → ⊥) }
{
    match slot {
        Slot::Lent(_, Tested::By(maker)) => !is_used_by(used, *maker),
        _ => false,
    }
}

/// Whether besides the maker of one asks a question.
pub fn has_pending(setting: &Setting<'_>, slots: &[Slot], used: &[Slot]) -> bool
    ensures yes { OnTrue result (HasSome (IsPending setting.now (makers used.now)) slots.now) }
    ensures no { OnFalse result (HasNone (IsPending setting.now (makers used.now)) slots.now) }
{
    for slot in slots {
        if is_pending(setting, slot, used) {
            return true;
        }
    }
    false
}

fn is_pending(setting: &Setting<'_>, slot: &Slot, used: &[Slot]) -> bool
    ensures yes { OnTrue result (IsPending setting.now (makers used.now) slot.now) }
    ensures no { OnFalse result (IsPending setting.now (makers used.now) slot.now → ⊥) }
{
    match slot {
        Slot::Lent(_, Tested::By(maker)) => {
            !is_used_by(used, *maker) && is_touching(setting, *maker)
        }
        _ => false,
    }
}

/// Whether one of these slots is an address with tests of its own.
pub fn has_tested(slots: &[Slot]) -> bool
    ensures yes { OnTrue result (HasSome IsTested slots.now) }
    ensures no { OnFalse result (HasNone IsTested slots.now) }
{
    for slot in slots {
        if is_tested(slot) {
            return true;
        }
    }
    false
}

pub fn is_tested(slot: &Slot) -> bool
    ensures yes { OnTrue result (IsTested slot.now) }
    ensures no { OnFalse result (IsTested slot.now → ⊥) }
{
    matches!(slot, Slot::Lent(_, Tested::By(_)))
}
