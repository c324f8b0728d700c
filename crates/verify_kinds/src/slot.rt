// Tests of slots.

ghost use Rattle.std.specs.Prelude.{◌≡◌};
ghost use Rattle.std.specs.Bool.{OnTrue, OnFalse};
ghost use Rattle.verify_rules.specs.Slots.{Is32, Is64, IsNumber, IsLength, IsReference, IsNull, IsCode, AreOneSize, AreReferences};
ghost use Rattle.verify_rules.specs.Kinds.{IsKept};

use verify_slots::Slot;

/// Whether it is an integer of 32 bits.
pub fn is_32(slot: &Slot) -> bool
    ensures yes { OnTrue result (Is32 slot.now) }
    ensures no { OnFalse result (Is32 slot.now → ⊥) }
{
    matches!(slot, Slot::Truth | Slot::Int)
}

pub fn is_64(slot: &Slot) -> bool
    ensures yes { OnTrue result (Is64 slot.now) }
    ensures no { OnFalse result (Is64 slot.now → ⊥) }
{
    matches!(slot, Slot::Long)
}

/// Whether it is an integer.
pub fn is_number(slot: &Slot) -> bool
    ensures yes { OnTrue result (IsNumber slot.now) }
    ensures no { OnFalse result (IsNumber slot.now → ⊥) }
{
    matches!(slot, Slot::Truth | Slot::Int | Slot::Long)
}

pub fn is_length(slot: &Slot) -> bool
    ensures yes { OnTrue result (IsLength slot.now) }
    ensures no { OnFalse result (IsLength slot.now → ⊥) }
{
    matches!(slot, Slot::Length)
}

pub fn is_reference(slot: &Slot) -> bool
    ensures yes { OnTrue result (IsReference slot.now) }
    ensures no { OnFalse result (IsReference slot.now → ⊥) }
{
    matches!(slot, Slot::Refs(_, _))
}

/// Whether it is null and nothing else.
pub fn is_null(slot: &Slot) -> bool
    ensures yes { OnTrue result (IsNull slot.now) }
    ensures no { OnFalse result (IsNull slot.now → ⊥) }
{
    match slot {
        Slot::Refs(set, _) => set.is_empty(),
        _ => false,
    }
}

/// Whether it may be copied and dropped.
pub fn is_kept(slot: &Slot) -> bool
    ensures yes { OnTrue result (IsKept slot.now) }
    ensures no { OnFalse result (IsKept slot.now → ⊥) }
{
    !matches!(slot, Slot::Length | Slot::Code(_))
}

/// Whether two slots are integers of one size.
pub fn are_one_size(lower: &Slot, upper: &Slot) -> bool
    ensures yes { OnTrue result (AreOneSize lower.now upper.now) }
    ensures no { OnFalse result (AreOneSize lower.now upper.now → ⊥) }
{
    (is_32(lower) && is_32(upper)) || (is_64(lower) && is_64(upper))
}

pub fn are_references(lower: &Slot, upper: &Slot) -> bool
    ensures yes { OnTrue result (AreReferences lower.now upper.now) }
    ensures no { OnFalse result (AreReferences lower.now upper.now → ⊥) }
{
    is_reference(lower) && is_reference(upper)
}
