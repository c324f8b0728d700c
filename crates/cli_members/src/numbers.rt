// Which rows are members, and whose.

ghost use Rattle.std.specs.Prelude.{◌≡◌, ◌≤◌, ◌+◌, ◌-◌, ◌^◌, ◌<◌, true, IfOk};
ghost use Rattle.std.specs.Bool.{OnTrue, OnFalse};
ghost use Rattle.cli_metadata.specs.declared.tables.Table.TheVariants as tables;
ghost use Rattle.cli_metadata.specs.Metadata.{rows_of};
ghost use Rattle.cli_lists.specs.Lists.{HaveEachRow, lists_of, AreLists};
ghost use Rattle.cli_members.specs.Members.{field_at, IsEnum, IsMemberField, IsMemberMethod, IsShared, AreThose, AreRows};

use class_rows::{Kind, TypeRow};
use cli_flags::{MemberFlag, has_member_flag};
use cli_lists::Lists;
use cli_metadata::{Metadata, Table};
use cli_tables::FieldRow;
use dc_base::NoMemory;
use std::alloc::Global;

/// A row of Field or of MethodDef, and the row of TypeDef in whose list it stands.
#[derive(Clone, Copy, Debug, PartialEq, Eq)]
pub struct Owned {
    pub owner: u32,
    pub row: u32,
}

/// The rows of Field that are members, in their order: those of all types but the module, and of an enum the static ones. `own`
/// has the rows of own types, the first for row 2 of TypeDef.
pub fn member_fields(
    alloc: Global,
    metadata: &Metadata,
    lists: &Lists,
    own: &[TypeRow],
) -> Result<Vec<Owned>, NoMemory>
    requires same { lists.now ≡ lists_of metadata.now }
    requires each_row { HaveEachRow metadata.now lists.now }
    requires lists { AreLists lists.now }
    ensures those { IfOk result (λ fields. AreThose (IsMemberField metadata.now own.now) fields.items) }
    ensures rows { IfOk result (λ fields. AreRows metadata.now tables.Field fields.items) }
{
    let mut found = Vec::new(alloc);
    for n in 1..metadata.rows(Table::TypeDef) {
        let list = lists.fields.list(n + 1);
        for row in list.start..list.end {
            if is_member(metadata, own, n + 1, row) {
                found.push(Owned { owner: n + 1, row })?;
            }
        }
    }
    Ok(found)
}

/// The rows of MethodDef that are members, in their order.
pub fn member_methods(
    alloc: Global,
    metadata: &Metadata,
    lists: &Lists,
) -> Result<Vec<Owned>, NoMemory>
    requires same { lists.now ≡ lists_of metadata.now }
    requires each_row { HaveEachRow metadata.now lists.now }
    requires lists { AreLists lists.now }
    ensures those { IfOk result (λ methods. AreThose (IsMemberMethod metadata.now) methods.items) }
    ensures rows { IfOk result (λ methods. AreRows metadata.now tables.MethodDef methods.items) }
{
    let mut found = Vec::new(alloc);
    for n in 1..metadata.rows(Table::TypeDef) {
        let list = lists.methods.list(n + 1);
        for row in list.start..list.end {
            found.push(Owned { owner: n + 1, row })?;
        }
    }
    Ok(found)
}

// A field of a type is a member, of an enum only where it is static.
fn is_member(metadata: &Metadata, own: &[TypeRow], n: u32, f: u32) -> bool
    requires a_type { 2 ≤ n }
    requires low { 1 ≤ f }
    requires high { f ≤ rows_of metadata.now tables.Field }
    ensures yes { OnTrue result (IsShared metadata.now own.now n f) }
    ensures no { OnFalse result (IsShared metadata.now own.now n f → ⊥) }
{
    let row: FieldRow = metadata.row(f);
    has_member_flag(row.flags, MemberFlag::Static) || !is_enum(own, n)
}

fn is_enum(own: &[TypeRow], n: u32) -> bool
    requires { 2 ≤ n }
    ensures yes { OnTrue result (IsEnum own.now n) }
    ensures no { OnFalse result (IsEnum own.now n → ⊥) }
{
    match own.get(n as usize - 2) {
        Some(row) => matches!(row.kind, Kind::Enum(_)),
        None => false,
    }
}
