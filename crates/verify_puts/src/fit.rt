// How a slot fits a place.

ghost use Rattle.std.specs.Prelude.{◌≡◌};
ghost use Rattle.std.specs.Bool.{OnTrue, OnFalse};
ghost use Rattle.std.specs.Option.{option_copied};
ghost use Rattle.verify_rules.specs.Look.{types_of};
ghost use Rattle.verify_rules.specs.Held.{unlent};
ghost use Rattle.verify_rules.specs.Puts.{FitsTruth, FitsType};
ghost use Rattle.verify_puts.specs.Fits.{Fits, FitsThere};

use dc_base::{Prim_, Ty};
use verify_rules::{Held, Setting, held_by};
use verify_slots::Slot;
use verify_taken::fits_kind;

/// What is asked of a slot that goes to a place: its kind, that a bool is a truth, or its type.
#[derive(Clone, Copy, Debug, PartialEq, Eq)]
pub enum Fit {
    Kind,
    Truth,
    Assigned,
}

/// Whether a slot fits a place of this type.
pub fn fits(setting: &Setting<'_>, fit: Fit, ty: Ty, slot: &Slot) -> bool
    ensures yes { OnTrue result (Fits setting.now fit ty slot.now) }
    ensures no { OnFalse result (Fits setting.now fit ty slot.now → ⊥) }
{
    let held = held_by(setting.table, ty);
    match fit {
        Fit::Kind => fits_kind(held, slot),
        Fit::Truth => fits_truth(held, slot),
        Fit::Assigned => fits_type(setting, ty, held, slot),
    }
}

/// The same of a place and a slot, where both are there.
pub fn fits_there(setting: &Setting<'_>, fit: Fit, ty: Option<Ty>, slot: Option<&Slot>) -> bool
    ensures yes { OnTrue result (FitsThere setting.now fit ty (option_copied slot.entry)) }
    ensures no { OnFalse result (FitsThere setting.now fit ty (option_copied slot.entry) → ⊥) }
{
    match ty {
        Some(ty) => match slot {
            Some(slot) => fits(setting, fit, ty, slot),
            None => true,
        },
        None => true,
    }
}

fn fits_truth(held: Held, slot: &Slot) -> bool
    ensures yes { OnTrue result (FitsTruth held slot.now) }
    ensures no { OnFalse result (FitsTruth held slot.now → ⊥) }
{
    match held {
        Held::Number(prim) => !is_bool(prim) || !is_int(slot),
        _ => true,
    }
}

fn is_bool(prim: Prim_) -> bool
    ensures yes { OnTrue result (prim ≡ Prim_.Bool) }
    ensures no { OnFalse result (prim ≡ Prim_.Bool → ⊥) }
{
    matches!(prim, Prim_::Bool)
}

fn is_int(slot: &Slot) -> bool
    ensures yes { OnTrue result (slot.now ≡ Slot.Int) }
    ensures no { OnFalse result (slot.now ≡ Slot.Int → ⊥) }
{
    matches!(slot, Slot::Int)
}

fn fits_type(setting: &Setting<'_>, ty: Ty, held: Held, slot: &Slot) -> bool
    ensures yes { OnTrue result (FitsType (types_of setting.now) ty held slot.now) }
    ensures no { OnFalse result (FitsType (types_of setting.now) ty held slot.now → ⊥) }
{
    match held {
        Held::Reference => match slot {
            Slot::Refs(set, _) => setting.table.assignable(set.items(), ty),
            _ => true,
        },
        Held::Address => match slot {
            Slot::Lent(place, _) => *place == unlent(ty),
            _ => true,
        },
        _ => true,
    }
}

fn unlent(ty: Ty) -> Ty
    ensures { result ≡ unlent ty }
{
    Ty {
        core: ty.core,
        arrays: ty.arrays,
        lent: false,
    }
}
