// What tokens name.

ghost use Rattle.std.specs.Prelude.{◌≡◌, slice_get};
ghost use Rattle.cli_assembly.specs.Meaning.{AreInOrder};
ghost use Rattle.cli_bodies.specs.Named.{named_ty, prim_of, prim_of_core, prim_of_enum, size_of};

use class_rows::Kind;
use class_table::ClassTable;
use cli_assembly::{Named, meaning_of};
use dc_base::{Core, Prim_, Token, Ty, TypeId};

/// The type that a token names.
pub(crate) fn named_ty(tokens: &[(Token, Named)], token: Token) -> Option<Ty>
    requires { AreInOrder tokens.now }
    ensures { result ≡ named_ty tokens.now token }
{
    match meaning_of(tokens, token) {
        Some(Named::OfType(ty)) => Some(*ty),
        _ => None,
    }
}

/// The primitive type as which a value of this type counts.
pub(crate) fn prim_of(table: &ClassTable, ty: Ty) -> Option<Prim_>
    ensures { result ≡ prim_of table.now.types ty }
{
    if ty.lent || ty.arrays > 0 {
        return None;
    }
    prim_of_core(table, ty.core)
}

fn prim_of_core(table: &ClassTable, core: Core) -> Option<Prim_>
    ensures { result ≡ prim_of_core table.now.types core }
{
    match core {
        Core::Prim(prim) => Some(prim),
        Core::Enum(ty) => prim_of_enum(table, ty),
        _ => None,
    }
}

fn prim_of_enum(table: &ClassTable, ty: TypeId) -> Option<Prim_>
    ensures { result ≡ prim_of_enum (slice_get table.now.types ty.0) }
{
    if ty.0 >= table.types() {
        return None;
    }
    match table.type_row(ty).kind {
        Kind::Enum(prim) => Some(prim),
        _ => None,
    }
}

/// How many bytes a number of this type has.
pub(crate) fn size_of(prim: Prim_) -> u8
    ensures { result ≡ size_of prim }
{
    match prim {
        Prim_::Bool | Prim_::I1 | Prim_::U1 => 1,
        Prim_::Char | Prim_::I2 | Prim_::U2 => 2,
        Prim_::I4 | Prim_::U4 => 4,
        Prim_::I8 | Prim_::U8 => 8,
    }
}
