// The rows of TypeRef as they stand.

ghost use Rattle.std.specs.Prelude.{◌≡◌, ◌≤◌, IfOk};
ghost use Rattle.std.specs.Bool.{OnTrue, OnFalse};
ghost use Rattle.cli_metadata.specs.declared.tables.Table.TheVariants as tables;
ghost use Rattle.cli_metadata.specs.Metadata.{rows_of};
ghost use Rattle.cli_scopes.specs.Refs.{is_row, in_ref, scope_at, scope_by, scope_of_row, IsTypeRef, AreTypeRefs};

use cli_metadata::{Metadata, Table};
use cli_tables::TypeRefRow;
use dc_base::{NoMemory, Token};
use std::alloc::Global;

/// What a row of TypeRef says that its type stands in: the references, the assembly itself, or the type of another row, the
/// first of which has the number 0. A scope that isn't there, or is none of these, is nowhere.
#[derive(Clone, Copy, Debug, PartialEq, Eq)]
pub enum Scope {
    References,
    Own,
    InRef(u32),
    Nowhere,
}

/// A row of TypeRef. One whose namespace or name is no text is nowhere.
#[derive(Clone, Copy, Debug)]
pub struct TypeRef<'a> {
    pub scope: Scope,
    pub space: &'a [u8],
    pub name: &'a [u8],
}

/// The rows of TypeRef in their order.
pub fn type_refs<'a>(alloc: Global, metadata: &Metadata<'a>) -> Result<Vec<TypeRef<'a>>, NoMemory>
    ensures { IfOk result (λ refs. AreTypeRefs metadata.now refs.items) }
{
    let mut refs = Vec::new(alloc);
    for k in 0..metadata.rows(Table::TypeRef) {
        refs.push(type_ref(metadata, k + 1))?;
    }
    Ok(refs)
}

fn type_ref<'a>(metadata: &Metadata<'a>, n: u32) -> TypeRef<'a>
    requires low { 1 ≤ n }
    requires high { n ≤ rows_of metadata.now tables.TypeRef }
    ensures { IsTypeRef metadata.now n result }
{
    let row: TypeRefRow = metadata.row(n);
    let scope = scope_of(metadata, row);
    match metadata.string(row.namespace) {
        Ok(space) => match metadata.string(row.name) {
            Ok(name) => TypeRef {
                scope,
                space: space.as_bytes(),
                name: name.as_bytes(),
            },
            Err(_) => NAMELESS,
        },
        Err(_) => NAMELESS,
    }
}

const NAMELESS: TypeRef<'static> = TypeRef {
    scope: Scope::Nowhere,
    space: &[],
    name: &[],
};

fn scope_of(metadata: &Metadata, row: TypeRefRow) -> Scope
    ensures { result ≡ scope_of_row metadata.now row }
{
    match row.scope.token() {
        Some(token) => scope_at(metadata, token),
        None => Scope::Nowhere,
    }
}

// How many rows a token can tell of a table, with row 0.
const ROWS: u32 = 0x100_0000;

fn scope_at(metadata: &Metadata, token: Token) -> Scope
    ensures { result ≡ scope_at metadata.now token }
{
    let row = token.0 % ROWS;
    match token.0 / ROWS {
        0x00 => scope_by(is_row(metadata, Table::Module, row), Scope::Own),
        0x01 => in_ref(row),
        0x23 => scope_by(is_row(metadata, Table::AssemblyRef, row), Scope::References),
        _ => Scope::Nowhere,
    }
}

fn scope_by(there: bool, scope: Scope) -> Scope
    ensures { result ≡ scope_by there scope }
{
    if there { scope } else { Scope::Nowhere }
}

fn in_ref(row: u32) -> Scope
    ensures { result ≡ in_ref row }
{
    if row == 0 {
        return Scope::Nowhere;
    }
    Scope::InRef(row - 1)
}

fn is_row(metadata: &Metadata, table: Table, row: u32) -> bool
    ensures { result ≡ is_row metadata.now table row }
{
    0 < row && row <= metadata.rows(table)
}
