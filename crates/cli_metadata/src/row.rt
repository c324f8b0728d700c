// Rows: the numbers in their cells, and the rows that these make.

ghost use Rattle.std.specs.Prelude.{◌≡◌, ◌≤◌, ◌+◌, ◌*◌, List, ℕ, length};
ghost use Rattle.byteorder.specs.Endian.{little_number};
ghost use Rattle.cli_metadata.specs.Widths.{bytes_in, row_width};
ghost use Rattle.cli_metadata.specs.Metadata.{cells_of, row_start};

use crate::layout::Placed;
use crate::reading::rest;
use crate::widths::{Width, row_width};
use crate::{MOST_COLUMNS, Table};
use byteorder::{ByteOrder, LittleEndian};

/// A row with a name for each of its columns.
pub trait TableRow: Copy {
    ghost use Rattle.cli_metadata.specs.declared.tables.Table.{Table};

    /// The row of these cells.
    ghost of_cells: { List ℕ → Self };

    ghost TABLE: { Table };

    /// The table of such rows.
    const TABLE: Table;

    /// The row with these numbers in its cells, in the order of the columns, with 0 behind the last.
    fn of(cells: &[u32; MOST_COLUMNS]) -> Self
        ensures { result ≡ of_cells cells.now };
}

// Where a row of a table begins, in a stream of `len` bytes.
pub(crate) fn row_start(placed: &Placed, n: u32, len: usize) -> usize
    requires low { 1 ≤ n }
    requires high { n ≤ placed.now.rows }
    requires whole { placed.now.start + placed.now.rows * row_width placed.now.widths ≤ len }
    ensures start { result ≡ row_start placed.now n }
    ensures whole { result + row_width placed.now.widths ≤ len }
{
    placed.start + (n as usize - 1) * row_width(&placed.widths)
}

// The numbers in the cells that the bytes begin with.
pub(crate) fn cells_of(widths: &[Width; MOST_COLUMNS], bytes: &[u8]) -> [u32; MOST_COLUMNS]
    requires { row_width widths.now ≤ length bytes.now }
    ensures { result ≡ cells_of widths.now bytes.now }
{
    let mut cells = [0; MOST_COLUMNS];
    let mut left = bytes;
    for i in 0..MOST_COLUMNS {
        cells[i] = cell(widths[i], left);
        left = rest(left, widths[i].bytes());
    }
    cells
}

// The number in a cell that the bytes begin with.
fn cell(width: Width, bytes: &[u8]) -> u32
    requires { bytes_in width ≤ length bytes.now }
    ensures { result ≡ little_number (bytes_in width) bytes.now }
{
    match width {
        Width::Zero => 0,
        Width::One => u32::from(bytes[0]),
        Width::Two => u32::from(LittleEndian::read_u16(bytes)),
        Width::Four => LittleEndian::read_u32(bytes),
    }
}
