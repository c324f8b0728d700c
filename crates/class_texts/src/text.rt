// All rows of a text.

ghost use Rattle.std.specs.Prelude.{◌≡◌, IfOk, map};
ghost use Rattle.cs_declared.specs.Seen.{seen};
ghost use Rattle.class_written.specs.TypeRows.{type_row};
ghost use Rattle.class_texts.specs.Text.{AreRowsOf};

use crate::content::all_rows;
use crate::pairs::pairs_of;
use crate::row::Row;
use class_rows::{MemberRow, TypeRow};
use class_written::{Types, type_row};
use cs_declared::{Declared, declared_types};
use cs_tree::Unit;
use dc_base::{MemberId, NoMemory};
use std::alloc::Global;

/// The rows that a class table is built of, and which members implement by name which methods.
#[derive(Debug, Drop)]
pub struct Rows {
    pub types: Vec<TypeRow>,
    pub members: Vec<MemberRow>,
    pub explicit: Vec<(MemberId, MemberId)>,
}

/// The rows that a reference text declares. What it names and doesn't declare has a number past the lists. It takes time near linear
/// in the text.
pub fn rows_of(alloc: Global, unit: &Unit) -> Result<Rows, NoMemory>
    ensures { IfOk result (λ rows. AreRowsOf unit.now rows.types.items rows.members.items rows.explicit.items) }
{
    let found = declared_types(alloc, unit)?;
    let types = Types::of(alloc, found.as_slice())?;
    let rows = all_rows(alloc, &types, found.as_slice())?;
    let explicit = pairs_of(alloc, &types, rows.as_slice())?;
    Ok(Rows {
        types: type_rows(alloc, &types, found.as_slice())?,
        members: members(alloc, rows)?,
        explicit,
    })
}

fn type_rows(
    alloc: Global,
    types: &Types<'_>,
    found: &[Declared<'_>],
) -> Result<Vec<TypeRow>, NoMemory>
    ensures { IfOk result (λ rows. rows.items ≡ map (λ d. type_row types.now (seen d)) found.now) }
{
    let mut rows = Vec::new(alloc);
    for declared in found {
        rows.push(type_row(alloc, types, declared)?)?;
    }
    Ok(rows)
}

fn members(alloc: Global, rows: Vec<Row>) -> Result<Vec<MemberRow>, NoMemory>
    ensures { IfOk result (λ members. members.items ≡ map (λ r. r.row) rows.items) }
{
    let mut members = Vec::new(alloc);
    for row in rows {
        members.push(row.row)?;
    }
    Ok(members)
}
