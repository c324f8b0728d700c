// The frame behind an instruction.

ghost use Rattle.std.specs.Prelude.{◌≡◌, ◌++◌, ◌==◌, map, IfOk, OnOk};
ghost use Rattle.std.specs.List.{list_any};
ghost use Rattle.std.specs.Option.{option_to_list};
ghost use Rattle.cli_assembly.specs.Meaning.{AreInOrder};
ghost use Rattle.verify_rules.specs.Kinds.{IsTaken};
ghost use Rattle.verify_rules.specs.Gap.{makers};
ghost use Rattle.verify_rules.specs.Results.{leaves, given_slots, left, settled};
ghost use Rattle.verify_results.specs.Twice.{twice};

use crate::row::gives_slot;
use cil_rows::Row;
use dc_base::{NoMemory, Seq, Ty};
use std::alloc::Global;
use verify_frames::{below, taken};
use verify_gaps::{is_used_by, used_slots};
use verify_rules::{Setting, Spot};
use verify_slots::{Slot, Tested};

/// The frame that an instruction leaves, the upper slot first. Whether it is an access to a field of `this` is told.
pub fn leaves(
    alloc: Global,
    setting: &Setting<'_>,
    spot: Spot,
    of_this: bool,
    row: &Row,
    frame: &[Slot],
) -> Result<Seq<Slot>, NoMemory>
    requires ordered { AreInOrder setting.now.tokens.now }
    requires taken { IsTaken setting.now spot row.now frame.now }
    ensures { IfOk result (λ slots. slots ≡ leaves setting.now spot of_this row.now frame.now) }
{
    match row {
        Row::Leave { .. } => Ok(Seq::new(alloc)),
        _ => given_and_left(alloc, setting, spot, of_this, row, frame),
    }
}

fn given_and_left(
    alloc: Global,
    setting: &Setting<'_>,
    spot: Spot,
    of_this: bool,
    row: &Row,
    frame: &[Slot],
) -> Result<Seq<Slot>, NoMemory>
    requires ordered { AreInOrder setting.now.tokens.now }
    requires taken { IsTaken setting.now spot row.now frame.now }
    ensures { IfOk result (λ slots. slots ≡ given_slots setting.now spot of_this row.now frame.now ++ left setting.now row.now frame.now) }
{
    let mut slots = given_slots(alloc, setting, spot, of_this, row, frame)?;
    let used = used_slots(setting, row, frame);
    let rest = below(frame, taken(setting, row));
    put_settled(alloc, used, rest, &mut slots)?;
    Ok(Seq::of(slots))
}

#[tactic(auto, using(crate::proofs::Left::given_twice))]
fn given_slots(
    alloc: Global,
    setting: &Setting<'_>,
    spot: Spot,
    of_this: bool,
    row: &Row,
    frame: &[Slot],
) -> Result<Vec<Slot>, NoMemory>
    requires ordered { AreInOrder setting.now.tokens.now }
    requires taken { IsTaken setting.now spot row.now frame.now }
    ensures { IfOk result (λ slots. slots.items ≡ given_slots setting.now spot of_this row.now frame.now) }
{
    let given = gives_slot(alloc, setting, spot, of_this, row, frame)?;
    match row {
        Row::Dup => twice(alloc, frame),
        _ => slots_of(alloc, given),
    }
}

// Two copies of the upper slot.
fn twice(alloc: Global, frame: &[Slot]) -> Result<Vec<Slot>, NoMemory>
    ensures { IfOk result (λ slots. slots.items ≡ twice frame.now) }
{
    let mut slots = Vec::new(alloc);
    if let [slot, ..] = frame {
        slots.push(slot.copied(alloc)?)?;
        slots.push(slot.copied(alloc)?)?;
    }
    Ok(slots)
}

fn slots_of(alloc: Global, slot: Option<Slot>) -> Result<Vec<Slot>, NoMemory>
    ensures { IfOk result (λ slots. slots.items ≡ option_to_list slot) }
{
    let mut slots = Vec::new(alloc);
    if let Some(slot) = slot {
        slots.push(slot)?;
    }
    Ok(slots)
}

// Puts the slots that are left behind those that are given.
fn put_settled(
    alloc: Global,
    used: &[Slot],
    rest: &[Slot],
    slots: &mut Vec<Slot>,
) -> Result<(), NoMemory>
    ensures { OnOk result (slots.new.items ≡ slots.old.items ++ map (settled (makers used.now)) rest.now) }
{
    for slot in rest {
        slots.push(settled(alloc, used, slot)?)?;
    }
    Ok(())
}

fn settled(alloc: Global, used: &[Slot], slot: &Slot) -> Result<Slot, NoMemory>
    ensures { IfOk result (λ left. left ≡ settled (makers used.now) slot.now) }
{
    match slot {
        Slot::Lent(ty, Tested::By(maker)) => Ok(settled_address(*ty, used, *maker)),
        _ => slot.copied(alloc),
    }
}

// An address whose tests were made needs no more.
fn settled_address(ty: Ty, used: &[Slot], maker: u32) -> Slot
    ensures { result ≡ settled (makers used.now) (Slot.Lent ty (Tested.By maker)) }
{
    if is_among(used, maker) {
        Slot::Lent(ty, Tested::Yes)
    } else {
        Slot::Lent(ty, Tested::By(maker))
    }
}

fn is_among(used: &[Slot], maker: u32) -> bool
    ensures { result ≡ list_any (λ j. j == maker) (makers used.now) }
{
    is_used_by(used, maker)
}
