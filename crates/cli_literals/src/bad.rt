// The first field with a constant that can't be printed.

ghost use Rattle.std.specs.Prelude.{◌≡◌, ◌+◌, ◌≤◌, ◌<◌, ◌^◌, IfOk};
ghost use Rattle.std.specs.Bool.{OnTrue, OnFalse};
ghost use Rattle.cli_metadata.specs.declared.tables.Table.TheVariants as tables;
ghost use Rattle.cli_metadata.specs.Metadata.{rows_of};
ghost use Rattle.cli_constants.specs.Owned.{field_token};
ghost use Rattle.cli_literals.specs.Fails.{IsLiteral, IsValue, IsFit, HasOneFit, IsBad, IsFirstBad, AreOf};
ghost use Rattle.cli_literals.specs.Marks.{AreFloats, IsRow};

use crate::fields::Fields;
use crate::floats::floats_of;
use crate::takes::fits;
use cli_constants::literal_of;
use cli_flags::{MemberFlag, has_member_flag};
use cli_metadata::{Metadata, Table};
use cli_tables::{ConstantRow, FieldRow};
use dc_base::{NoMemory, Token, Ty, one_number_begins};
use std::alloc::Global;

// The number of the table Field, above the three bytes of a row.
const FIELD: u32 = 0x0400_0000;

/// The first field that has a constant that is a float, or that is a literal and hasn't exactly one constant that fits its
/// type. It takes the time of a look at each row of Field and of Constant, and of the bytes of the constants.
pub fn first_bad_constant(
    alloc: Global,
    metadata: &Metadata,
    fields: &Fields<'_>,
) -> Result<Option<Token>, NoMemory>
    requires few { rows_of metadata.now tables.Field < 2 ^ 24 }
    requires known { AreOf metadata.now fields.now }
    ensures { IfOk result (IsFirstBad metadata.now fields.now) }
{
    let floats = floats_of(alloc, metadata)?;
    for k in 0..metadata.rows(Table::Field) {
        if is_bad(alloc, metadata, fields, floats.as_slice(), k)? {
            return Ok(Some(field_token(k + 1)));
        }
    }
    Ok(None)
}

fn field_token(f: u32) -> Token
    requires { f < 2 ^ 24 }
    ensures { result ≡ field_token f }
{
    Token(FIELD + f)
}

// Row k + 1 of Field fails.
fn is_bad(
    alloc: Global,
    metadata: &Metadata,
    fields: &Fields<'_>,
    floats: &[bool],
    k: u32,
) -> Result<bool, NoMemory>
    requires few { rows_of metadata.now tables.Field < 2 ^ 24 }
    requires known { AreOf metadata.now fields.now }
    requires floats { AreFloats metadata.now floats.now }
    requires within { k < rows_of metadata.now tables.Field }
    ensures yes { IfOk result (λ bad. OnTrue bad (IsBad metadata.now fields.now (k + 1))) }
    ensures no { IfOk result (λ bad. OnFalse bad (IsBad metadata.now fields.now (k + 1) → ⊥)) }
{
    if floats[k as usize] {
        return Ok(true);
    }
    if !is_literal(metadata, k + 1) {
        return Ok(false);
    }
    let fit = has_one_fit(alloc, metadata, fields, k)?;
    Ok(!fit)
}

fn is_literal(metadata: &Metadata, f: u32) -> bool
    requires low { 1 ≤ f }
    requires high { f ≤ rows_of metadata.now tables.Field }
    ensures yes { OnTrue result (IsLiteral metadata.now f) }
    ensures no { OnFalse result (IsLiteral metadata.now f → ⊥) }
{
    let row: FieldRow = metadata.row(f);
    has_member_flag(row.flags, MemberFlag::Literal)
}

// Row k + 1 of Field has one constant, which fits.
fn has_one_fit(
    alloc: Global,
    metadata: &Metadata,
    fields: &Fields<'_>,
    k: u32,
) -> Result<bool, NoMemory>
    requires known { AreOf metadata.now fields.now }
    requires within { k < rows_of metadata.now tables.Field }
    ensures yes { IfOk result (λ fit. OnTrue fit (HasOneFit metadata.now fields.now (k + 1))) }
    ensures no { IfOk result (λ fit. OnFalse fit (HasOneFit metadata.now fields.now (k + 1) → ⊥)) }
{
    let found = fields.constants[k as usize];
    if found.0 != 1 {
        return Ok(false);
    }
    is_fit(alloc, metadata, fields, fields.tys[k as usize], found.1)
}

// Row r of Constant fits the type.
fn is_fit(
    alloc: Global,
    metadata: &Metadata,
    fields: &Fields<'_>,
    ty: Ty,
    r: u32,
) -> Result<bool, NoMemory>
    requires { IsRow metadata.now r }
    ensures yes { IfOk result (λ fit. OnTrue fit (IsFit metadata.now fields.now ty r)) }
    ensures no { IfOk result (λ fit. OnFalse fit (IsFit metadata.now fields.now ty r → ⊥)) }
{
    let row: ConstantRow = metadata.row(r);
    if !fits(row.element, ty, fields.types, fields.string) {
        return Ok(false);
    }
    is_value(alloc, metadata, row.element, row.value)
}

// What stands at a place of the heap of blobs is a value of this element.
fn is_value(alloc: Global, metadata: &Metadata, element: u32, i: u32) -> Result<bool, NoMemory>
    ensures yes { IfOk result (λ value. OnTrue value (IsValue metadata.now element i)) }
    ensures no { IfOk result (λ value. OnFalse value (IsValue metadata.now element i → ⊥)) }
{
    one_number_begins();
    match metadata.blob(i) {
        Ok(bytes) => {
            let value = literal_of(alloc, element, bytes)?;
            Ok(value.is_some())
        }
        Err(_) => Ok(false),
    }
}
