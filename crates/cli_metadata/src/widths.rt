// How wide the cells of the tables are.

ghost use Rattle.std.specs.Prelude.{◌≡◌, ◌≤◌, ◌*◌, ◌^◌, ◌-◌, length, map, slice_index, ◌==◌};
ghost use Rattle.cli_metadata.specs.Numbers.{number_of};
ghost use Rattle.cli_metadata.specs.Widths.{bytes_in, index_width, heap_width, has_fewer, fits_two, width_of, row_width};

use crate::{Column, MOST_COLUMNS, TABLE_NUMBERS, Table, Targets};

// The width of a cell. One that isn't there has none.
#[derive(Clone, Copy, Debug)]
pub(crate) enum Width {
    Zero,
    One,
    Two,
    Four,
}

impl Width {
    pub(crate) fn bytes(self) -> usize
        ensures bytes { result ≡ bytes_in self }
        ensures few { result ≤ 4 }
    {
        match self {
            Width::Zero => 0,
            Width::One => 1,
            Width::Two => 2,
            Width::Four => 4,
        }
    }
}

fn index_width(two_hold_it: bool) -> Width
    ensures { result ≡ index_width two_hold_it }
{
    if two_hold_it { Width::Two } else { Width::Four }
}

fn heap_width(sizes: u8, bit: u8) -> Width
    ensures { result ≡ heap_width sizes bit }
{
    index_width(sizes & bit == 0)
}

// Whether a table has fewer rows than `limit`.
fn has_fewer(counts: &[u32; TABLE_NUMBERS], limit: u32, table: Option<Table>) -> bool
    ensures { result ≡ has_fewer counts.now limit table }
{
    match table {
        None => true,
        Some(table) => rows_in(counts, table) < limit,
    }
}

// The rows of a table.
fn rows_in(counts: &[u32; TABLE_NUMBERS], table: Table) -> u32
    ensures { result ≡ slice_index counts.now (number_of table) }
{
    counts[usize::from(table.number())]
}

// Whether two bytes hold the row and the tag of each such index.
fn fits_two(counts: &[u32; TABLE_NUMBERS], targets: Targets) -> bool
    requires { targets.bits ≤ 5 }
    ensures { result ≡ fits_two counts.now targets }
{
    let limit = 1 << (16 - targets.bits);
    targets
        .tables
        .iter()
        .all(|table| has_fewer(counts, limit, *table))
}

// The width of a column's cells, by HeapSizes and the row counts of the tables.
#[tactic(auto, using(crate::proofs::Standard::coded_are))]
fn width_of(column: Column, sizes: u8, counts: &[u32; TABLE_NUMBERS]) -> Width
    ensures { result ≡ width_of sizes counts.now column }
{
    match column {
        Column::Absent => Width::Zero,
        Column::Number1 => Width::One,
        Column::Number2 => Width::Two,
        Column::Number4 => Width::Four,
        Column::Strings => heap_width(sizes, 0x01),
        Column::Guid => heap_width(sizes, 0x02),
        Column::Blob => heap_width(sizes, 0x04),
        Column::Row(table) => index_width(has_fewer(counts, 0x1_0000, Some(table))),
        Column::Coded(kind) => index_width(fits_two(counts, kind.targets())),
    }
}

// The widths of a table's cells.
pub(crate) fn widths_of(
    columns: &[Column; MOST_COLUMNS],
    sizes: u8,
    counts: &[u32; TABLE_NUMBERS],
) -> [Width; MOST_COLUMNS]
    ensures { result ≡ map (width_of sizes counts.now) columns.now }
{
    let mut widths = [Width::Zero; MOST_COLUMNS];
    for i in 0..MOST_COLUMNS {
        widths[i] = width_of(columns[i], sizes, counts);
    }
    widths
}

// The bytes of a row with these cells.
pub(crate) fn row_width(widths: &[Width; MOST_COLUMNS]) -> usize
    ensures bytes { result ≡ row_width widths.now }
    ensures few { result ≤ 36 }
{
    let mut bytes = 0;
    for width in widths {
        bytes += width.bytes();
    }
    bytes
}
