// The stream of tables.

ghost use Rattle.std.specs.Prelude.{◌≡◌, ◌≤◌, ◌<◌, ◌+◌, ◌*◌, ◌^◌, length, IfOk, OnOk};
ghost use Rattle.cli_metadata.specs.Reading.{Gives};
ghost use Rattle.cli_metadata.specs.Numbers.{table_numbers};
ghost use Rattle.cli_metadata.specs.Widths.{row_width};
ghost use Rattle.cli_metadata.specs.Standing.{is_table, ArePlaced};
ghost use Rattle.cli_metadata.specs.Layout.{are_tables, versioned_at, prefix_at, count_at, counts_at, table_at, tables_at, tables_of};

use crate::reading::{behind, check, u8_at, u32_at, u64_at};
use crate::widths::{Width, row_width, widths_of};
use crate::{Column, MOST_COLUMNS, MetaCause, MetaFault, TABLE_NUMBERS};

// What the fields before the row counts say: HeapSizes, whose bits 1, 2 and 4 are those of the heaps whose indices have
// four bytes, and which tables are there.
#[derive(Clone, Copy, Debug)]
pub(crate) struct Prefix {
    pub sizes: u8,
    pub valid: u64,
}

// A table: how many rows it has, where the first one begins, and how wide the cells of a row are.
#[derive(Clone, Copy, Debug)]
pub(crate) struct Placed {
    pub rows: u32,
    pub start: usize,
    pub widths: [Width; MOST_COLUMNS],
}

// A table without rows and columns.
pub(crate) const UNPLACED: Placed = Placed {
    rows: 0,
    start: 0,
    widths: [Width::Zero; MOST_COLUMNS],
};

// Whether each bit that is set is the bit of a table.
fn are_tables(valid: u64, tables: &[[Column; MOST_COLUMNS]; TABLE_NUMBERS]) -> bool
    ensures { result ≡ are_tables valid tables.now }
{
    let mut bits = valid;
    for columns in tables {
        if bits % 2 == 1 && !is_table(columns) {
            return false;
        }
        bits /= 2;
    }
    bits == 0
}

fn is_table(columns: &[Column; MOST_COLUMNS]) -> bool
    ensures { result ≡ is_table columns.now }
{
    !matches!(columns[0], Column::Absent)
}

// The reserved number and the version.
#[tactic(auto, unfolding(crate::specs::Layout::versioned_at))]
fn versioned_at(bytes: &[u8], at: usize) -> Result<usize, MetaFault>
    requires place { at ≤ length bytes.now }
    requires short { length bytes.now < 2 ^ 32 }
    ensures versioned { result ≡ versioned_at bytes.now at }
    ensures whole { OnOk result (at + 6 ≤ length bytes.now) }
{
    u32_at(bytes, at, MetaCause::BadHeader)?;
    let major = u8_at(bytes, at + 4, MetaCause::BadHeader)?;
    check(major == 2, at + 4, MetaCause::BadHeader)?;
    let minor = u8_at(bytes, at + 5, MetaCause::BadHeader)?;
    check(minor == 0, at + 5, MetaCause::BadHeader)
}

// The fields before the row counts.
#[tactic(auto, unfolding(crate::specs::Layout::prefix_at))]
pub(crate) fn prefix_at(
    tables: &[[Column; MOST_COLUMNS]; TABLE_NUMBERS],
    bytes: &[u8],
    at: usize,
) -> Result<Prefix, MetaFault>
    requires place { at ≤ length bytes.now }
    requires short { length bytes.now < 2 ^ 32 }
    ensures prefix { result ≡ prefix_at tables.now bytes.now at }
    ensures whole { OnOk result (at + 24 ≤ length bytes.now) }
{
    versioned_at(bytes, at)?;
    let sizes = u8_at(bytes, at + 6, MetaCause::BadHeader)?;
    check(sizes < 8, at + 6, MetaCause::BadHeader)?;
    u8_at(bytes, at + 7, MetaCause::BadHeader)?;
    let valid = u64_at(bytes, at + 8, MetaCause::BadHeader)?;
    u64_at(bytes, at + 16, MetaCause::BadHeader)?;
    check(are_tables(valid, tables), at + 8, MetaCause::UnknownTable)?;
    Ok(Prefix { sizes, valid })
}

// The row count of a table, and the place behind it.
fn count_at(valid: u64, bytes: &[u8], at: usize) -> Result<(u32, usize), MetaFault>
    requires place { at ≤ length bytes.now }
    requires short { length bytes.now < 2 ^ 32 }
    ensures count { result ≡ count_at valid bytes.now at }
    ensures whole { IfOk result (λ x. x.1 ≤ length bytes.now) }
{
    if valid % 2 == 0 {
        return Ok((0, at));
    }
    let rows = u32_at(bytes, at, MetaCause::Truncated)?;
    Ok((rows, at + 4))
}

// The row counts of all tables, and the place behind them.
pub(crate) fn counts_at(
    valid: u64,
    bytes: &[u8],
    at: usize,
) -> Result<([u32; TABLE_NUMBERS], usize), MetaFault>
    requires place { at ≤ length bytes.now }
    requires short { length bytes.now < 2 ^ 32 }
    ensures counts { result ≡ counts_at table_numbers valid bytes.now at }
    ensures whole { IfOk result (λ x. x.1 ≤ length bytes.now) }
{
    let mut counts = [0; TABLE_NUMBERS];
    let mut bits = valid;
    let mut at = at;
    for i in 0..TABLE_NUMBERS {
        let (rows, end) = count_at(bits, bytes, at)?;
        counts[i] = rows;
        bits /= 2;
        at = end;
    }
    Ok((counts, at))
}

// A table that stands at a place, and the place behind it.
#[tactic(auto, unfolding(crate::specs::Layout::table_at))]
fn table_at(
    widths: [Width; MOST_COLUMNS],
    rows: u32,
    bytes: &[u8],
    at: usize,
) -> Result<(Placed, usize), MetaFault>
    requires place { at ≤ length bytes.now }
    requires short { length bytes.now < 2 ^ 32 }
    ensures table { result ≡ table_at widths rows bytes.now at }
    ensures whole { IfOk result (λ x. x.1 ≤ length bytes.now) }
{
    let size = rows as usize * row_width(&widths);
    let end = behind(bytes, at, size, MetaCause::Truncated)?;
    let table = Placed {
        rows,
        start: at,
        widths,
    };
    Ok((table, end))
}

// The tables, each directly behind the one before it.
pub(crate) fn tables_at(
    prefix: Prefix,
    counts: &[u32; TABLE_NUMBERS],
    tables: &[[Column; MOST_COLUMNS]; TABLE_NUMBERS],
    bytes: &[u8],
    at: usize,
) -> Result<[Placed; TABLE_NUMBERS], MetaFault>
    requires place { at ≤ length bytes.now }
    requires short { length bytes.now < 2 ^ 32 }
    ensures tables { result ≡ tables_at prefix.sizes counts.now tables.now 0 bytes.now at }
    ensures placed { IfOk result (ArePlaced (length bytes.now)) }
{
    let mut placed = [UNPLACED; TABLE_NUMBERS];
    let mut at = at;
    for i in 0..TABLE_NUMBERS {
        let widths = widths_of(&tables[i], prefix.sizes, counts);
        let (table, end) = table_at(widths, counts[i], bytes, at)?;
        placed[i] = table;
        at = end;
    }
    Ok(placed)
}

// The tables of the stream of tables that begins at a place.
#[tactic(auto, unfolding(crate::specs::Layout::tables_of))]
pub(crate) fn tables_of(
    tables: &[[Column; MOST_COLUMNS]; TABLE_NUMBERS],
    bytes: &[u8],
    at: usize,
) -> Result<[Placed; TABLE_NUMBERS], MetaFault>
    requires place { at ≤ length bytes.now }
    requires short { length bytes.now < 2 ^ 32 }
    ensures tables { result ≡ tables_of tables.now bytes.now at }
    ensures placed { IfOk result (ArePlaced (length bytes.now)) }
{
    let prefix = prefix_at(tables, bytes, at)?;
    let (counts, first) = counts_at(prefix.valid, bytes, at + 24)?;
    tables_at(prefix, &counts, tables, bytes, first)
}
