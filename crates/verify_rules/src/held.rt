// What places hold.

ghost use Rattle.std.specs.Prelude.{◌≡◌, slice_get};
ghost use Rattle.verify_rules.specs.Held.{held_by, held_core, held_enum, number_slot};

use class_rows::Kind;
use class_table::ClassTable;
use dc_base::{Core, Prim_, Ty, TypeId};
use verify_slots::Slot;

/// What a place of a type holds, as the stack tells values apart: nothing at all, a number as which an enum counts too, a
/// reference, a value of which nothing is known, or an address.
#[derive(Clone, Copy, Debug, PartialEq, Eq)]
pub enum Held {
    Nothing,
    Number(Prim_),
    Reference,
    Opaque(TypeId),
    Address,
}

/// What a place of this type holds.
pub fn held_by(table: &ClassTable, ty: Ty) -> Held
    ensures { result ≡ held_by table.now.types ty }
{
    if ty.lent {
        Held::Address
    } else if ty.arrays > 0 {
        Held::Reference
    } else {
        held_core(table, ty.core)
    }
}

fn held_core(table: &ClassTable, core: Core) -> Held
    ensures { result ≡ held_core table.now.types core }
{
    match core {
        Core::Void => Held::Nothing,
        Core::Prim(prim) => Held::Number(prim),
        Core::Class(_) => Held::Reference,
        Core::Value(ty) => Held::Opaque(ty),
        Core::Enum(ty) => held_enum(table, ty),
    }
}

fn held_enum(table: &ClassTable, ty: TypeId) -> Held
    ensures { result ≡ held_enum (slice_get table.now.types ty.0) }
{
    if ty.0 >= table.types() {
        return Held::Nothing;
    }
    match table.type_row(ty).kind {
        Kind::Enum(prim) => Held::Number(prim),
        _ => Held::Nothing,
    }
}

/// What is known of a number that was read from a place.
pub fn number_slot(prim: Prim_) -> Slot
    ensures { result ≡ number_slot prim }
{
    match prim {
        Prim_::Bool => Slot::Truth,
        Prim_::I8 | Prim_::U8 => Slot::Long,
        _ => Slot::Int,
    }
}
