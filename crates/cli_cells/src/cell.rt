// What a cell says, and whether it does.

ghost use Rattle.std.specs.Prelude.{◌≡◌, ◌≤◌, IfSome, IfNone, None, slice_index_or};
ghost use Rattle.std.specs.Bool.{OnTrue, OnFalse};
ghost use Rattle.cli_metadata.specs.Metadata.{rows_of};
ghost use Rattle.cli_metadata.specs.Standard.{standard_targets};
ghost use Rattle.cli_cells.specs.Cells.{bad_index, tagged, row_in, IsPast, NamesPast, Begins, IsFaultOf, IsFirstFault};

use cli_metadata::{
    Coded, CodedIndex, MetaCause, MetaFault, Metadata, Table, Targets, tables_are_the_standards,
};
use cli_tables::{BlobIndex, RowNumber, StringIndex};

/// What the cell of a row says.
#[derive(Clone, Copy, Debug)]
pub enum Cell {
    /// A text of the heap of strings.
    Text(StringIndex),
    /// An item of the heap of blobs.
    Blob(BlobIndex),
    /// A row of a table.
    Row(Table, RowNumber),
    /// A row of one of several tables.
    Coded(CodedIndex),
    /// Where a list begins in a table of so many rows; and where that of the row before does, which is 0 for the first row.
    List {
        before: RowNumber,
        start: RowNumber,
        rows: u32,
    },
}

const BAD_INDEX: MetaFault = MetaFault {
    cause: MetaCause::BadIndex,
    place: 0,
};

// The greatest number of a row that a token can name.
const LAST: u32 = 0xFF_FFFF;

impl Cell {
    // Why the cell says nothing, where it doesn't.
    pub(crate) fn fault(self, metadata: &Metadata) -> Option<MetaFault>
        ensures { IsFaultOf metadata.now self result }
    {
        match self {
            Cell::Text(i) => match metadata.string(i) {
                Ok(_) => None,
                Err(fault) => Some(fault),
            },
            Cell::Blob(i) => match metadata.blob(i) {
                Ok(_) => None,
                Err(fault) => Some(fault),
            },
            Cell::Row(table, n) => row_fault(metadata, table, n),
            Cell::Coded(coded) => coded_fault(metadata, coded),
            Cell::List {
                before,
                start,
                rows,
            } => list_fault(before, start, rows),
        }
    }
}

fn row_fault(metadata: &Metadata, table: Table, n: u32) -> Option<MetaFault>
    ensures some { IfSome result (λ fault. IsPast metadata.now table n × (fault ≡ bad_index)) }
    ensures none { IfNone result (IsPast metadata.now table n → ⊥) }
{
    if is_past(metadata, table, n) {
        return Some(BAD_INDEX);
    }
    None
}

fn coded_fault(metadata: &Metadata, coded: CodedIndex) -> Option<MetaFault>
    ensures some { IfSome result (λ fault. NamesPast metadata.now coded × (fault ≡ bad_index)) }
    ensures none { IfNone result (NamesPast metadata.now coded → ⊥) }
{
    let table = tagged(coded)?;
    if is_past(metadata, table, row_in(coded)) {
        return Some(BAD_INDEX);
    }
    None
}

fn list_fault(before: u32, start: u32, rows: u32) -> Option<MetaFault>
    ensures some { IfSome result (λ fault. (Begins before start rows → ⊥) × (fault ≡ bad_index)) }
    ensures none { IfNone result (Begins before start rows) }
{
    if begins(before, start, rows) {
        return None;
    }
    Some(BAD_INDEX)
}

// Whether a table has no such row, or no token can name it.
fn is_past(metadata: &Metadata, table: Table, n: u32) -> bool
    ensures yes { OnTrue result (IsPast metadata.now table n) }
    ensures no { OnFalse result (IsPast metadata.now table n → ⊥) }
{
    metadata.rows(table) < n || LAST < n
}

fn targets_of(kind: Coded) -> Targets
    ensures same { result ≡ standard_targets kind }
    ensures few { result.bits ≤ 5 }
{
    tables_are_the_standards();
    kind.targets()
}

// The table that the tag stands for.
fn tagged(coded: CodedIndex) -> Option<Table>
    ensures { result ≡ tagged coded }
{
    let targets = targets_of(coded.kind);
    table_at(targets, coded.cell % (1 << targets.bits))
}

fn table_at(targets: Targets, tag: u32) -> Option<Table>
    ensures { result ≡ slice_index_or targets.tables tag None }
{
    match targets.tables.get(tag as usize) {
        Some(table) => *table,
        None => None,
    }
}

fn row_in(coded: CodedIndex) -> u32
    ensures { result ≡ row_in coded }
{
    coded.cell / (1 << targets_of(coded.kind).bits)
}

fn begins(before: u32, start: u32, rows: u32) -> bool
    ensures yes { OnTrue result (Begins before start rows) }
    ensures no { OnFalse result (Begins before start rows → ⊥) }
{
    1 <= start && start - 1 <= rows && before <= start
}

// Why the first of these cells that says nothing doesn't.
pub(crate) fn first_fault(metadata: &Metadata, cells: &[Cell]) -> Option<MetaFault>
    ensures { IsFirstFault metadata.now cells.now result }
{
    for cell in cells {
        if let Some(fault) = cell.fault(metadata) {
            return Some(fault);
        }
    }
    None
}
