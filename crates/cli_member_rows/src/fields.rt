// The rows of own fields.

ghost use Rattle.std.specs.Prelude.{◌≡◌, ◌≤◌, ◌+◌, ◌-◌, ◌^◌, IfOk};
ghost use Rattle.cli_metadata.specs.declared.tables.Table.TheVariants as tables;
ghost use Rattle.cli_metadata.specs.Metadata.{rows_of};
ghost use Rattle.cli_flags.specs.Flags.{has};
ghost use Rattle.cli_flags.specs.declared.bits.MemberFlag.TheVariants as flag;
ghost use Rattle.cli_constants.specs.Owned.{AreConstants};
ghost use Rattle.cli_members.specs.Members.{IsRow, AreRows};
ghost use Rattle.cli_member_rows.specs.Fields.{IsValue, IsLiteral, HasLiteral, IsOfField, IsFieldRow, AreFieldRows};

use crate::sigs::field_type;
use class_rows::{Literal, MemberKind, MemberRow, Virt};
use cli_constants::literal_of;
use cli_flags::{MemberFlag, has_member_flag, member_access};
use cli_members::Owned;
use cli_metadata::Metadata;
use cli_names::text_at;
use cli_tables::{ConstantRow, FieldRow};
use cli_types::Types;
use dc_base::{NoMemory, Seq, Text, TypeId};
use std::alloc::Global;

/// The rows of fields, in their order. `constants` says for each row of Field how many rows of Constant are its own, and the
/// first of them.
pub fn field_rows(
    alloc: Global,
    metadata: &Metadata,
    types: &Types,
    constants: &[(u32, u32)],
    fields: &[Owned],
) -> Result<Vec<MemberRow>, NoMemory>
    requires constants { AreConstants metadata.now constants.now }
    requires rows { AreRows metadata.now tables.Field fields.now }
    requires room { types.now.tokens.own_from + rows_of metadata.now tables.TypeDef ≤ 2 ^ 32 }
    ensures { IfOk result (λ rows. AreFieldRows metadata.now types.now fields.now rows.items) }
{
    let mut rows = Vec::new(alloc);
    for owned in fields {
        rows.push(field_row(alloc, metadata, types, constants, *owned)?)?;
    }
    Ok(rows)
}

fn field_row(
    alloc: Global,
    metadata: &Metadata,
    types: &Types,
    constants: &[(u32, u32)],
    owned: Owned,
) -> Result<MemberRow, NoMemory>
    requires constants { AreConstants metadata.now constants.now }
    requires row { IsRow metadata.now tables.Field owned }
    requires room { types.now.tokens.own_from + rows_of metadata.now tables.TypeDef ≤ 2 ^ 32 }
    ensures { IfOk result (IsFieldRow metadata.now types.now owned.owner owned.row) }
{
    let row: FieldRow = metadata.row(owned.row);
    let is_literal = has_member_flag(row.flags, MemberFlag::Literal);
    let literal = literal(alloc, metadata, constants, is_literal, owned.row)?;
    with_literal(alloc, metadata, types, owned, row, literal)
}

fn with_literal(
    alloc: Global,
    metadata: &Metadata,
    types: &Types,
    owned: Owned,
    row: FieldRow,
    literal: Option<Literal>,
) -> Result<MemberRow, NoMemory>
    requires literal { HasLiteral (has flag.Literal row.flags) metadata.now owned.row literal }
    requires type_ { 2 ≤ owned.owner }
    requires room { types.now.tokens.own_from + owned.owner ≤ 2 ^ 32 }
    ensures { IfOk result (IsOfField metadata.now types.now owned.owner owned.row row) }
{
    Ok(MemberRow {
        owner: TypeId(types.tokens.own_from + (owned.owner - 2)),
        name: Text::of(alloc, text_at(metadata, row.name))?,
        kind: MemberKind::Field {
            init_only: has_member_flag(row.flags, MemberFlag::InitOnly),
            literal,
        },
        access: member_access(row.flags),
        is_static: has_member_flag(row.flags, MemberFlag::Static),
        virt: Virt::Plain,
        params: Seq::of(Vec::new(alloc)),
        result: field_type(metadata, types, row.signature),
    })
}

// The value of the first row of Constant that is the field's own.
fn literal(
    alloc: Global,
    metadata: &Metadata,
    constants: &[(u32, u32)],
    is_literal: bool,
    f: u32,
) -> Result<Option<Literal>, NoMemory>
    requires constants { AreConstants metadata.now constants.now }
    requires low { 1 ≤ f }
    requires high { f ≤ rows_of metadata.now tables.Field }
    ensures { IfOk result (HasLiteral is_literal metadata.now f) }
{
    if is_literal {
        first_value(alloc, metadata, constants, f)
    } else {
        Ok(None)
    }
}

fn first_value(
    alloc: Global,
    metadata: &Metadata,
    constants: &[(u32, u32)],
    f: u32,
) -> Result<Option<Literal>, NoMemory>
    requires constants { AreConstants metadata.now constants.now }
    requires low { 1 ≤ f }
    requires high { f ≤ rows_of metadata.now tables.Field }
    ensures { IfOk result (IsLiteral metadata.now f) }
{
    let found = constants[f as usize - 1];
    if found.0 == 0 {
        return Ok(None);
    }
    value(alloc, metadata, metadata.row(found.1))
}

fn value(alloc: Global, metadata: &Metadata, row: ConstantRow) -> Result<Option<Literal>, NoMemory>
    ensures { IfOk result (IsValue metadata.now row) }
{
    match metadata.blob(row.value) {
        Ok(bytes) => literal_of(alloc, row.element, bytes),
        Err(_) => Ok(None),
    }
}
