// Slots and frames that meet.

ghost use Rattle.std.specs.Prelude.{◌≡◌, IfOk};
ghost use Rattle.verify_slots.specs.Slots.{IsIn, AreIn, IsMarkIn, IsUnited, Unite};
ghost use Rattle.verify_narrower.specs.Narrower.{HasOnce, IsFrame};
ghost use Rattle.verify_joins.specs.Once.{OfUnited};

use crate::set::union;
use dc_base::{NoMemory, Seq, Ty};
use std::alloc::Global;
use verify_slots::{Mark, Slot, united_slot};

/// The least frame that holds two, which have the upper slot first. Where the sets of the first name each type once, so do
/// its own. None where no frame holds both.
pub fn join(alloc: Global, one: &[Slot], other: &[Slot]) -> Result<Option<Seq<Slot>>, NoMemory>
    ensures united { IfOk result (λ united. Unite AreIn one.now other.now united) }
    ensures once { IfOk result (λ united. IsFrame one.now → OfUnited IsFrame united) }
{
    if one.len() != other.len() {
        return Ok(None);
    }
    let mut united = Vec::new(alloc);
    for (number, slot) in one.iter().enumerate() {
        match joined_slot(alloc, slot, &other[number])? {
            Some(slot) => united.push(slot)?,
            None => return Ok(None),
        }
    }
    Ok(Some(Seq::of(united)))
}

/// The least slot that holds two. None where no slot holds both.
pub fn joined_slot(alloc: Global, one: &Slot, other: &Slot) -> Result<Option<Slot>, NoMemory>
    ensures united { IfOk result (λ united. Unite IsIn one.now other.now united) }
    ensures once { IfOk result (λ united. HasOnce one.now → OfUnited HasOnce united) }
{
    match one {
        Slot::Refs(set, mark) => joined_refs(alloc, set.items(), *mark, other),
        one => united_slot(alloc, one, other),
    }
}

fn joined_refs(
    alloc: Global,
    set: &[Ty],
    mark: Mark,
    other: &Slot,
) -> Result<Option<Slot>, NoMemory>
    ensures united { IfOk result (λ united. Unite IsIn (Slot.Refs set.now mark) other.now united) }
    ensures once { IfOk result (λ united. HasOnce (Slot.Refs set.now mark) → OfUnited HasOnce united) }
{
    match other {
        Slot::Refs(types, also) => {
            let all = union(alloc, set, types.items())?;
            Ok(Some(Slot::Refs(all, joined_mark(mark, *also))))
        }
        _ => Ok(None),
    }
}

// The mark that holds two: their own, where they are one.
fn joined_mark(one: Mark, other: Mark) -> Mark
    ensures left { IsMarkIn one result }
    ensures right { IsMarkIn other result }
    ensures own { (one ≡ other) → (result ≡ one) }
{
    match (one, other) {
        (Mark::This, Mark::This) => Mark::This,
        (Mark::Fresh, Mark::Fresh) => Mark::Fresh,
        _ => Mark::Other,
    }
}
