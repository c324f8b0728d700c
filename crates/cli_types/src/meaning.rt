// What signatures say.

ghost use Rattle.std.specs.Prelude.{◌≡◌, IfOk};
ghost use Rattle.std.specs.Option.{option_map};
ghost use Rattle.cli_types.specs.Said.{value_type, reference_type, core_said, type_said, all_types};

use crate::Types;
use cli_signature::RawTy;
use dc_base::{Core, NoMemory, Prim_, Ty};
use std::alloc::Global;

/// The type that stands in a signature so, where its token means one of the sort that its element takes.
pub fn type_said(types: &Types, raw: RawTy) -> Option<Ty>
    ensures { result ≡ type_said types.now raw }
{
    Some(Ty {
        core: core_said(types, raw)?,
        arrays: raw.arrays,
        lent: raw.lent,
    })
}

/// The types that stand so, where each of them says one.
pub fn all_types(alloc: Global, types: &Types, raws: &[RawTy]) -> Result<Option<Vec<Ty>>, NoMemory>
    ensures { IfOk result (λ found. all_types types.now raws.now ≡ option_map (λ tys. tys.items) found) }
{
    let mut found = Vec::new(alloc);
    for raw in raws {
        match type_said(types, *raw) {
            Some(ty) => found.push(ty)?,
            None => return Ok(None),
        }
    }
    Ok(Some(found))
}

// The elements (ECMA-335 II.23.1.16).
fn core_said(types: &Types, raw: RawTy) -> Option<Core>
    ensures { result ≡ core_said types.now raw }
{
    match raw.element {
        0x01 => Some(Core::Void),
        0x02 => Some(Core::Prim(Prim_::Bool)),
        0x03 => Some(Core::Prim(Prim_::Char)),
        0x04 => Some(Core::Prim(Prim_::I1)),
        0x05 => Some(Core::Prim(Prim_::U1)),
        0x06 => Some(Core::Prim(Prim_::I2)),
        0x07 => Some(Core::Prim(Prim_::U2)),
        0x08 => Some(Core::Prim(Prim_::I4)),
        0x09 => Some(Core::Prim(Prim_::U4)),
        0x0A => Some(Core::Prim(Prim_::I8)),
        0x0B => Some(Core::Prim(Prim_::U8)),
        0x0E => Some(Core::Class(types.string)),
        0x11 => value_type(types.core_named(raw.token)),
        0x12 => reference_type(types.core_named(raw.token)),
        0x1C => Some(Core::Class(types.object)),
        _ => None,
    }
}

// A type that VALUETYPE may stand before.
fn value_type(core: Option<Core>) -> Option<Core>
    ensures { result ≡ value_type core }
{
    match core? {
        Core::Void => None,
        Core::Class(_) => None,
        Core::Prim(prim) => Some(Core::Prim(prim)),
        Core::Value(t) => Some(Core::Value(t)),
        Core::Enum(t) => Some(Core::Enum(t)),
    }
}

// A type that CLASS may stand before.
fn reference_type(core: Option<Core>) -> Option<Core>
    ensures { result ≡ reference_type core }
{
    match core? {
        Core::Class(t) => Some(Core::Class(t)),
        _ => None,
    }
}
