// Slots and frames that meet.

ghost use Rattle.std.specs.Prelude.{◌≡◌, IfOk};
ghost use Rattle.verify_slots.specs.Slots.{IsIn, AreIn, IsMarkIn, IsUnited, Unite};

use crate::set::union;
use crate::slot::{Mark, Slot, Tested};
use dc_base::{MemberId, NoMemory, Seq, Ty, TypeId};
use std::alloc::Global;

/// The least frame that holds two, which have the upper slot first. None where no frame holds both.
pub fn unite(alloc: Global, one: &[Slot], other: &[Slot]) -> Result<Option<Seq<Slot>>, NoMemory>
    ensures { IfOk result (λ united. Unite AreIn one.now other.now united) }
{
    if one.len() != other.len() {
        return Ok(None);
    }
    let mut united = Vec::new(alloc);
    for (number, slot) in one.iter().enumerate() {
        match united_slot(alloc, slot, &other[number])? {
            Some(slot) => united.push(slot)?,
            None => return Ok(None),
        }
    }
    Ok(Some(Seq::of(united)))
}

/// The least slot that holds two. None where no slot holds both.
pub fn united_slot(alloc: Global, one: &Slot, other: &Slot) -> Result<Option<Slot>, NoMemory>
    ensures { IfOk result (λ united. Unite IsIn one.now other.now united) }
{
    match one {
        Slot::Truth => Ok(with_truth(other)),
        Slot::Int => Ok(with_int(other)),
        Slot::Long => Ok(with_long(other)),
        Slot::Length => Ok(with_length(other)),
        Slot::Refs(set, mark) => with_refs(alloc, set.items(), *mark, other),
        Slot::Opaque(ty) => Ok(with_opaque(*ty, other)),
        Slot::Lent(ty, tested) => Ok(with_lent(*ty, *tested, other)),
        Slot::Code(member) => Ok(with_code(*member, other)),
    }
}

fn with_truth(other: &Slot) -> Option<Slot>
    ensures { Unite IsIn Slot.Truth other.now result }
{
    match other {
        Slot::Truth => Some(Slot::Truth),
        Slot::Int => Some(Slot::Int),
        _ => None,
    }
}

fn with_int(other: &Slot) -> Option<Slot>
    ensures { Unite IsIn Slot.Int other.now result }
{
    match other {
        Slot::Truth | Slot::Int => Some(Slot::Int),
        _ => None,
    }
}

fn with_long(other: &Slot) -> Option<Slot>
    ensures { Unite IsIn Slot.Long other.now result }
{
    match other {
        Slot::Long => Some(Slot::Long),
        _ => None,
    }
}

fn with_length(other: &Slot) -> Option<Slot>
    ensures { Unite IsIn Slot.Length other.now result }
{
    match other {
        Slot::Length => Some(Slot::Length),
        _ => None,
    }
}

fn with_refs(alloc: Global, set: &[Ty], mark: Mark, other: &Slot) -> Result<Option<Slot>, NoMemory>
    ensures { IfOk result (λ united. Unite IsIn (Slot.Refs set.now mark) other.now united) }
{
    match other {
        Slot::Refs(types, also) => {
            let all = union(alloc, set, types.items())?;
            Ok(Some(Slot::Refs(all, united_mark(mark, *also))))
        }
        _ => Ok(None),
    }
}

fn with_opaque(ty: TypeId, other: &Slot) -> Option<Slot>
    ensures { Unite IsIn (Slot.Opaque ty) other.now result }
{
    match other {
        Slot::Opaque(also) => {
            if ty == *also {
                Some(Slot::Opaque(ty))
            } else {
                None
            }
        }
        _ => None,
    }
}

fn with_lent(ty: Ty, tested: Tested, other: &Slot) -> Option<Slot>
    ensures { Unite IsIn (Slot.Lent ty tested) other.now result }
{
    match other {
        Slot::Lent(place, also) => {
            if ty == *place && tested == *also {
                Some(Slot::Lent(ty, tested))
            } else {
                None
            }
        }
        _ => None,
    }
}

fn with_code(member: MemberId, other: &Slot) -> Option<Slot>
    ensures { Unite IsIn (Slot.Code member) other.now result }
{
    match other {
        Slot::Code(also) => {
            if member == *also {
                Some(Slot::Code(member))
            } else {
                None
            }
        }
        _ => None,
    }
}

// The mark that holds two: their own, where they are one.
fn united_mark(one: Mark, other: Mark) -> Mark
    ensures left { IsMarkIn one result }
    ensures right { IsMarkIn other result }
    ensures own { (one ≡ other) → (result ≡ one) }
{
    match (one, other) {
        (Mark::This, Mark::This) => Mark::This,
        (Mark::Fresh, Mark::Fresh) => Mark::Fresh,
        _ => Mark::Other,
    }
}
