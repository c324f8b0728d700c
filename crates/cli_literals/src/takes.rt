// Which constants a type takes.

ghost use Rattle.std.specs.Prelude.{◌≡◌};
ghost use Rattle.std.specs.Bool.{OnTrue, OnFalse};
ghost use Rattle.cli_literals.specs.Takes.{element_of, EnumTakes, CoreTakes, Takes};

use class_rows::{Kind, TypeRow};
use dc_base::{Core, Prim_, Ty, TypeId};

const STRING: u32 = 0x0E;

const CLASS: u32 = 0x12;

/// Whether a field of this type may have a constant of this element type. What the constant's bytes say isn't asked.
pub fn fits(element: u32, ty: Ty, types: &[TypeRow], string: TypeId) -> bool
    ensures yes { OnTrue result (Takes types.now string ty element) }
    ensures no { OnFalse result (Takes types.now string ty element → ⊥) }
{
    if ty.lent {
        return false;
    }
    if ty.arrays > 0 {
        return element == CLASS;
    }
    core_takes(element, ty.core, types, string)
}

fn core_takes(element: u32, core: Core, types: &[TypeRow], string: TypeId) -> bool
    ensures yes { OnTrue result (CoreTakes types.now string core element) }
    ensures no { OnFalse result (CoreTakes types.now string core element → ⊥) }
{
    match core {
        Core::Void => false,
        Core::Prim(prim) => element == element_of(prim),
        Core::Class(t) => element == CLASS || element == STRING && t == string,
        Core::Value(_) => false,
        Core::Enum(t) => enum_takes(element, t, types),
    }
}

fn enum_takes(element: u32, t: TypeId, types: &[TypeRow]) -> bool
    ensures yes { OnTrue result (EnumTakes types.now t element) }
    ensures no { OnFalse result (EnumTakes types.now t element → ⊥) }
{
    match types.get(t.0 as usize) {
        Some(row) => match row.kind {
            Kind::Enum(prim) => element == element_of(prim),
            _ => false,
        },
        None => false,
    }
}

fn element_of(prim: Prim_) -> u32
    ensures { result ≡ element_of prim }
{
    match prim {
        Prim_::Bool => 0x02,
        Prim_::Char => 0x03,
        Prim_::I1 => 0x04,
        Prim_::U1 => 0x05,
        Prim_::I2 => 0x06,
        Prim_::U2 => 0x07,
        Prim_::I4 => 0x08,
        Prim_::U4 => 0x09,
        Prim_::I8 => 0x0A,
        Prim_::U8 => 0x0B,
    }
}
