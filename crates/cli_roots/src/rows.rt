// What one row names.

ghost use Rattle.std.specs.Prelude.{◌≡◌, ◌≤◌, IfOk};
ghost use Rattle.std.specs.Option.{option_to_list};
ghost use Rattle.cli_metadata.specs.declared.tables.Table.TheVariants as tables;
ghost use Rattle.cli_metadata.specs.Metadata.{rows_of};
ghost use Rattle.cli_roots.specs.declared.own.Own.TheVariants as own;
ghost use Rattle.cli_roots.specs.Own.{table_of, AreNamedBy};

use crate::Own;
use cli_metadata::Metadata;
use cli_sig_tokens::{field_tokens, method_tokens, property_tokens};
use cli_tables::{
    FieldRow, InterfaceImplRow, MethodDefRow, MethodImplRow, PropertyRow, TypeDefRow,
};
use dc_base::{NoMemory, Token};
use std::alloc::Global;

/// What a row of a table names.
pub(crate) fn named_by(
    alloc: Global,
    metadata: &Metadata,
    table: Own,
    r: u32,
) -> Result<Vec<Token>, NoMemory>
    requires low { 1 ≤ r }
    requires high { r ≤ rows_of metadata.now (table_of table) }
    ensures { IfOk result (λ tokens. AreNamedBy metadata.now table r tokens.items) }
{
    match table {
        Own::Types => by_type(alloc, metadata, r),
        Own::Interfaces => by_interface(alloc, metadata, r),
        Own::Fields => by_field(alloc, metadata, r),
        Own::Methods => by_method(alloc, metadata, r),
        Own::Properties => by_property(alloc, metadata, r),
        Own::Implementations => by_implementation(alloc, metadata, r),
    }
}

fn by_type(alloc: Global, metadata: &Metadata, r: u32) -> Result<Vec<Token>, NoMemory>
    requires low { 1 ≤ r }
    requires high { r ≤ rows_of metadata.now tables.TypeDef }
    ensures { IfOk result (λ tokens. AreNamedBy metadata.now own.Types r tokens.items) }
{
    let row: TypeDefRow = metadata.row(r);
    listed(alloc, row.extends.token())
}

fn by_interface(alloc: Global, metadata: &Metadata, r: u32) -> Result<Vec<Token>, NoMemory>
    requires low { 1 ≤ r }
    requires high { r ≤ rows_of metadata.now tables.InterfaceImpl }
    ensures { IfOk result (λ tokens. AreNamedBy metadata.now own.Interfaces r tokens.items) }
{
    let row: InterfaceImplRow = metadata.row(r);
    listed(alloc, row.interface.token())
}

fn by_field(alloc: Global, metadata: &Metadata, r: u32) -> Result<Vec<Token>, NoMemory>
    requires low { 1 ≤ r }
    requires high { r ≤ rows_of metadata.now tables.Field }
    ensures { IfOk result (λ tokens. AreNamedBy metadata.now own.Fields r tokens.items) }
{
    let row: FieldRow = metadata.row(r);
    field_tokens(alloc, metadata, row.signature)
}

fn by_method(alloc: Global, metadata: &Metadata, r: u32) -> Result<Vec<Token>, NoMemory>
    requires low { 1 ≤ r }
    requires high { r ≤ rows_of metadata.now tables.MethodDef }
    ensures { IfOk result (λ tokens. AreNamedBy metadata.now own.Methods r tokens.items) }
{
    let row: MethodDefRow = metadata.row(r);
    method_tokens(alloc, metadata, row.signature)
}

fn by_property(alloc: Global, metadata: &Metadata, r: u32) -> Result<Vec<Token>, NoMemory>
    requires low { 1 ≤ r }
    requires high { r ≤ rows_of metadata.now tables.Property }
    ensures { IfOk result (λ tokens. AreNamedBy metadata.now own.Properties r tokens.items) }
{
    let row: PropertyRow = metadata.row(r);
    property_tokens(alloc, metadata, row.signature)
}

fn by_implementation(alloc: Global, metadata: &Metadata, r: u32) -> Result<Vec<Token>, NoMemory>
    requires low { 1 ≤ r }
    requires high { r ≤ rows_of metadata.now tables.MethodImpl }
    ensures { IfOk result (λ tokens. AreNamedBy metadata.now own.Implementations r tokens.items) }
{
    let row: MethodImplRow = metadata.row(r);
    let mut tokens = listed(alloc, row.body.token())?;
    let declaration = listed(alloc, row.declaration.token())?;
    tokens.extend_from_slice(declaration.as_slice())?;
    Ok(tokens)
}

fn listed(alloc: Global, token: Option<Token>) -> Result<Vec<Token>, NoMemory>
    ensures { IfOk result (λ tokens. tokens.items ≡ option_to_list token) }
{
    let mut tokens = Vec::new(alloc);
    if let Some(token) = token {
        tokens.push(token)?;
    }
    Ok(tokens)
}
