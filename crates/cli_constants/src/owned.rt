// Which row of Constant is which field's.

ghost use Rattle.std.specs.Prelude.{◌≡◌, ◌<◌, ◌^◌, IfOk};
ghost use Rattle.cli_metadata.specs.declared.tables.Table.TheVariants as tables;
ghost use Rattle.cli_metadata.specs.Metadata.{rows_of};
ghost use Rattle.cli_constants.specs.Noted.{place_of, noted, noted_at};
ghost use Rattle.cli_constants.specs.Owned.{AreConstants};

use cli_metadata::{Metadata, Table};
use cli_tables::ConstantRow;
use dc_base::{NoMemory, Token};
use std::alloc::Global;

// How many rows a token can tell of a table, with row 0.
const ROWS: u32 = 0x100_0000;

/// For each row of Field the rows of Constant that are its own: how many, and the first of them, where there is one. It takes
/// the time of one look at each row of Constant.
pub fn constants_of(alloc: Global, metadata: &Metadata) -> Result<Vec<(u32, u32)>, NoMemory>
    requires few { rows_of metadata.now tables.Field < 2 ^ 24 }
    ensures { IfOk result (λ constants. AreConstants metadata.now constants.items) }
{
    let mut constants = vec![in alloc; (0, 0); metadata.rows(Table::Field) as usize]?;
    for k in (0..metadata.rows(Table::Constant)).rev() {
        let row: ConstantRow = metadata.row(k + 1);
        constants = with_row(constants, row.parent.token(), k + 1);
    }
    Ok(constants)
}

// One more row is of the field that it names, and is the first of those seen.
fn with_row(constants: Vec<(u32, u32)>, parent: Option<Token>, r: u32) -> Vec<(u32, u32)>
    ensures { result.items ≡ noted r (place_of parent) constants.items }
{
    let mut constants = constants;
    if let Some(place) = place_of(parent) {
        note(constants.as_mut_slice(), place, r);
    }
    constants
}

fn note(constants: &mut [(u32, u32)], place: usize, r: u32)
    ensures { constants.new ≡ noted_at r place constants.old }
{
    if place < constants.len() {
        let count = constants[place].0;
        constants[place] = (count.saturating_add(1), r);
    }
}

// Where a row of Field that a token names stands, counted from 0.
fn place_of(parent: Option<Token>) -> Option<usize>
    ensures { result ≡ place_of parent }
{
    let token = parent?;
    let row = token.0 % ROWS;
    if token.0 / ROWS != 0x04 || row == 0 {
        return None;
    }
    Some(row as usize - 1)
}
