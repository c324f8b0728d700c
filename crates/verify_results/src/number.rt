// Numbers.

ghost use Rattle.std.specs.Prelude.{◌≡◌, Some};
ghost use Rattle.verify_rules.specs.Results.{number_of, bits_of, lower_of, upper_of, converted, least_number};

use dc_base::Prim_;
use verify_kinds::size_of;
use verify_slots::Slot;

/// What an operation on a number gives: one of 64 bits stays one.
pub fn number_of(slot: &Slot) -> Slot
    ensures { result ≡ number_of slot.now }
{
    match slot {
        Slot::Long => Slot::Long,
        _ => Slot::Int,
    }
}

fn bits_of(lower: &Slot, upper: &Slot) -> Slot
    ensures { result ≡ bits_of lower.now upper.now }
{
    match lower {
        Slot::Truth => match upper {
            Slot::Truth => Slot::Truth,
            _ => Slot::Int,
        },
        Slot::Long => Slot::Long,
        _ => Slot::Int,
    }
}

/// A number like the lower of two slots.
pub fn lower_number(frame: &[Slot]) -> Option<Slot>
    ensures { result ≡ lower_of (λ x y. number_of x) frame.now }
{
    match frame {
        [_, lower, ..] => Some(number_of(lower)),
        _ => None,
    }
}

/// The bits of two slots.
pub fn lower_bits(frame: &[Slot]) -> Option<Slot>
    ensures { result ≡ lower_of bits_of frame.now }
{
    match frame {
        [upper, lower, ..] => Some(bits_of(lower, upper)),
        _ => None,
    }
}

/// A number like the upper slot.
pub fn upper_number(frame: &[Slot]) -> Option<Slot>
    ensures { result ≡ upper_of (λ x. Some (number_of x)) frame.now }
{
    match frame {
        [slot, ..] => Some(number_of(slot)),
        _ => None,
    }
}

/// What a conversion to a type gives.
pub fn converted(to: Prim_) -> Slot
    ensures { result ≡ converted to }
{
    match to {
        Prim_::I8 | Prim_::U8 => Slot::Long,
        _ => Slot::Int,
    }
}

/// The least that a read of a number of this size gives.
pub fn least_number(prim: Prim_) -> Slot
    ensures { result ≡ least_number prim }
{
    if size_of(prim) == 1 {
        Slot::Truth
    } else {
        converted(prim)
    }
}
