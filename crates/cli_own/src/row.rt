// The rows of own types.

ghost use Rattle.std.specs.Prelude.{◌≡◌, ◌≤◌, IfOk};
ghost use Rattle.cli_metadata.specs.declared.tables.Table.TheVariants as tables;
ghost use Rattle.cli_metadata.specs.Metadata.{rows_of};
ghost use Rattle.cli_own.specs.Interfaces.{interfaces_of};
ghost use Rattle.cli_own.specs.Rows.{outer_of, IsOwnTypeRow, AreOwnTypeRows, AreFields};

use crate::interfaces_of;
use class_rows::TypeRow;
use cli_flags::{TypeFlag, has_type_flag, type_access};
use cli_kinds::{System, base_of, kind_of, underlying};
use cli_lists::ListColumn;
use cli_metadata::{Metadata, Table};
use cli_names::text_at;
use cli_tables::TypeDefRow;
use cli_types::Tokens;
use dc_base::{NoMemory, Seq, Text, TypeId};
use std::alloc::Global;

/// What the rows of own types are made of: the metadata with its list of fields, what tokens mean, which row of TypeDef is round
/// which, and the types that tell what a type is.
#[derive(Clone, Copy)]
pub struct Own<'a> {
    pub metadata: &'a Metadata<'a>,
    pub fields: &'a ListColumn,
    pub tokens: &'a Tokens,
    pub outers: &'a [Option<u32>],
    pub system: System,
}

/// The rows of the own types in their order. It takes the time of one look at each row of TypeDef, Field and InterfaceImpl.
pub fn own_type_rows(alloc: Global, own: &Own<'_>) -> Result<Vec<TypeRow>, NoMemory>
    requires { AreFields own.now.metadata.now own.now.fields.now }
    ensures { IfOk result (λ rows. AreOwnTypeRows own.now.metadata.now own.now.fields.now own.now.tokens.now own.now.outers.now own.now.system rows.items) }
{
    let named = interfaces_of(alloc, own.metadata, own.tokens)?;
    let mut rows = Vec::new(alloc);
    for k in 1..own.metadata.rows(Table::TypeDef) {
        rows.push(type_row(alloc, own, k + 1, named[k as usize].as_slice())?)?;
    }
    Ok(rows)
}

// The row of the type of row n of TypeDef.
fn type_row(
    alloc: Global,
    own: &Own<'_>,
    n: u32,
    interfaces: &[TypeId],
) -> Result<TypeRow, NoMemory>
    requires fields { AreFields own.now.metadata.now own.now.fields.now }
    requires low { 1 ≤ n }
    requires high { n ≤ rows_of own.now.metadata.now tables.TypeDef }
    requires named { interfaces.now ≡ interfaces_of own.now.metadata.now own.now.tokens.now n }
    ensures { IfOk result (IsOwnTypeRow own.now.metadata.now own.now.fields.now own.now.tokens.now own.now.outers.now own.now.system n) }
{
    let row: TypeDefRow = own.metadata.row(n);
    let bases = Seq::of(Vec::from_slice(alloc, interfaces)?);
    let base = base_of(own.tokens, row.extends.token());
    let values = underlying(own.metadata, own.fields, n);
    let name = Text::of(alloc, text_at(own.metadata, row.name))?;
    let space = Text::of(alloc, text_at(own.metadata, row.namespace))?;
    Ok(TypeRow {
        name,
        space,
        outer: outer_of(own.tokens, own.outers, n),
        kind: kind_of(own.system, row.flags, base, values),
        access: type_access(row.flags),
        base,
        bases,
        is_abstract: has_type_flag(row.flags, TypeFlag::Abstract),
        is_sealed: has_type_flag(row.flags, TypeFlag::Sealed),
        own: true,
    })
}

fn outer_of(tokens: &Tokens, outers: &[Option<u32>], n: u32) -> Option<TypeId>
    requires { 1 ≤ n }
    ensures { result ≡ outer_of tokens.now outers.now n }
{
    let Some(outer) = outers.get(n as usize - 1) else {
        return None;
    };
    match *outer {
        Some(row) => tokens.own_type(row),
        None => None,
    }
}
