// The names of types.

ghost use Rattle.std.specs.Prelude.{◌≡◌, ◌≤◌, ◌<◌, ◌^◌, ◌+◌, IfOk, length};
ghost use Rattle.cli_metadata.specs.declared.tables.Table.TheVariants as tables;
ghost use Rattle.cli_metadata.specs.Metadata.{rows_of};
ghost use Rattle.cli_names.specs.Names.{own_types, outer_at, within_of, within_row, within_own, IsReferenceName, AreReferenceNames, IsOwnName, AreTypeNames};

use crate::text_at;
use class_rows::TypeRow;
use cli_metadata::{Metadata, Table};
use cli_scopes::{TypeName, Within};
use cli_tables::TypeDefRow;
use dc_base::{NoMemory, TypeId};
use std::alloc::Global;

/// How many types the assembly itself has: the first row of TypeDef stands for the module.
pub fn own_types(metadata: &Metadata) -> u32
    ensures { result ≡ own_types metadata.now }
{
    metadata.rows(Table::TypeDef).saturating_sub(1)
}

/// The names of all types: those of the references, and behind them those of the assembly itself. `outers` says for each row of
/// TypeDef which row is round it.
pub fn type_names<'a>(
    alloc: Global,
    references: &'a [TypeRow],
    metadata: &Metadata<'a>,
    outers: &[Option<u32>],
) -> Result<Vec<TypeName<'a>>, NoMemory>
    requires { length references.now + rows_of metadata.now tables.TypeDef < 2 ^ 32 }
    ensures { IfOk result (λ names. AreTypeNames references.now metadata.now outers.now names.items) }
{
    let mut names = reference_names(alloc, references)?;
    for k in 0..own_types(metadata) {
        names.push(own_name(metadata, outers, references.len() as u32, k))?;
    }
    Ok(names)
}

fn reference_names<'a>(
    alloc: Global,
    references: &'a [TypeRow],
) -> Result<Vec<TypeName<'a>>, NoMemory>
    ensures { IfOk result (λ names. AreReferenceNames references.now names.items) }
{
    let mut names = Vec::new(alloc);
    for row in references {
        names.push(reference_name(row))?;
    }
    Ok(names)
}

fn reference_name(row: &TypeRow) -> TypeName<'_>
    ensures { IsReferenceName row.now result }
{
    TypeName {
        within: within_of(row.outer),
        space: row.space.as_str().as_bytes(),
        name: row.name.as_str().as_bytes(),
    }
}

fn within_of(outer: Option<TypeId>) -> Within
    ensures { result ≡ within_of outer }
{
    match outer {
        Some(outer) => Within::InType(outer),
        None => Within::References,
    }
}

// The name of the type of row k + 2.
fn own_name<'a>(
    metadata: &Metadata<'a>,
    outers: &[Option<u32>],
    own_from: u32,
    k: u32,
) -> TypeName<'a>
    requires row { k < own_types metadata.now }
    requires few { own_from + rows_of metadata.now tables.TypeDef < 2 ^ 32 }
    ensures { IsOwnName metadata.now outers.now own_from k result }
{
    let row: TypeDefRow = metadata.row(k + 2);
    TypeName {
        within: within_own(own_types(metadata), own_from, outer_at(outers, k)),
        space: text_at(metadata, row.namespace).as_bytes(),
        name: text_at(metadata, row.name).as_bytes(),
    }
}

fn outer_at(outers: &[Option<u32>], k: u32) -> Option<u32>
    ensures { result ≡ outer_at outers.now k }
{
    match outers.get(k as usize + 1) {
        Some(outer) => *outer,
        None => None,
    }
}

fn within_own(own_types: u32, own_from: u32, outer: Option<u32>) -> Within
    requires { own_from + own_types < 2 ^ 32 }
    ensures { result ≡ within_own own_types own_from outer }
{
    match outer {
        Some(row) => within_row(own_types, own_from, row),
        None => Within::Own,
    }
}

fn within_row(own_types: u32, own_from: u32, row: u32) -> Within
    requires { own_from + own_types < 2 ^ 32 }
    ensures { result ≡ within_row own_types own_from row }
{
    if row < 2 || own_types <= row - 2 {
        return Within::Own;
    }
    Within::InType(TypeId(own_from + (row - 2)))
}
