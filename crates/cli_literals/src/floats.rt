// Which fields have constants that are floats.

ghost use Rattle.std.specs.Prelude.{◌≡◌, ◌<◌, ◌^◌, IfOk};
ghost use Rattle.cli_metadata.specs.declared.tables.Table.TheVariants as tables;
ghost use Rattle.cli_metadata.specs.Metadata.{rows_of};
ghost use Rattle.cli_constants.specs.Noted.{place_of};
ghost use Rattle.cli_literals.specs.Marks.{float_place, marked, marked_at, AreFloats};

use cli_metadata::{Metadata, Table};
use cli_tables::ConstantRow;
use dc_base::{NoMemory, Token};
use std::alloc::Global;

// How many rows a token can tell of a table, with row 0.
const ROWS: u32 = 0x100_0000;

/// For each row of Field whether a constant of it is a float. It takes the time of one look at each row of Constant.
pub(crate) fn floats_of(alloc: Global, metadata: &Metadata) -> Result<Vec<bool>, NoMemory>
    requires few { rows_of metadata.now tables.Field < 2 ^ 24 }
    ensures { IfOk result (λ floats. AreFloats metadata.now floats.items) }
{
    let mut floats = vec![in alloc; false; metadata.rows(Table::Field) as usize]?;
    for k in 0..metadata.rows(Table::Constant) {
        let row: ConstantRow = metadata.row(k + 1);
        floats = with_mark(floats, float_place(row.element, row.parent.token()));
    }
    Ok(floats)
}

fn with_mark(floats: Vec<bool>, place: Option<usize>) -> Vec<bool>
    ensures { result.items ≡ marked place floats.items }
{
    let mut floats = floats;
    if let Some(place) = place {
        mark(floats.as_mut_slice(), place);
    }
    floats
}

fn mark(floats: &mut [bool], place: usize)
    ensures { floats.new ≡ marked_at place floats.old }
{
    if place < floats.len() {
        floats[place] = true;
    }
}

// Where the field stands, counted from 0, whose constant is a float.
fn float_place(element: u32, parent: Option<Token>) -> Option<usize>
    ensures { result ≡ float_place element parent }
{
    if element == 0x0C || element == 0x0D {
        return place_of(parent);
    }
    None
}

// Where a row of Field that a token names stands, counted from 0.
fn place_of(parent: Option<Token>) -> Option<usize>
    ensures { result ≡ place_of parent }
{
    let token = parent?;
    let row = token.0 % ROWS;
    if token.0 / ROWS != 0x04 || row == 0 {
        return None;
    }
    Some(row as usize - 1)
}
