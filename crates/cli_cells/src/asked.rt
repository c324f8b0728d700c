// Which rows are asked.

ghost use Rattle.std.specs.Prelude.{◌≡◌, ◌+◌, ◌≤◌, ◌<◌, ◌^◌, Err, false, slice_index_or};
ghost use Rattle.dc_causes.specs.Rows.{OfRows};
ghost use Rattle.cli_metadata.specs.Metadata.{rows_of};
ghost use Rattle.cli_cells.specs.Cells.{IsFirstFault};
ghost use Rattle.cli_cells.specs.Rows.{table_of, is_asked, is_reached, asked_cells};
ghost use Rattle.cli_cells.specs.First.{asked_rows, RowStands, by_number, IsFirst};

use crate::CellFault;
use crate::rows::row_fault;
use crate::table::CellTable;
use cli_metadata::{MetaFault, Metadata};
use cli_named::Numbers;
use dc_causes::Condition;
use std::marker::Model;

// Metadata with the numbers of its rows, and which of them are reached.
#[derive(Drop)]
pub(crate) struct Asked<'a> {
    pub(crate) metadata: &'a Metadata<'a>,
    pub(crate) numbers: Numbers,
    pub(crate) reached: &'a [bool],
}

impl<'a> Model for Asked<'a> {
    ghost use Rattle.std.specs.Prelude.{◌≡◌};
    ghost use Rattle.cli_named.specs.Numbers.{numbers_of};
    ghost use Rattle.cli_cells.specs.Rows.{Subject};
    ghost use Rattle.cli_cells.specs.First.{AreFew};

    ghost Value = { Subject };

    ghost view = { λ s. record { metadata = s.metadata.now; reached = s.reached.now } };

    ghost invariant = { λ s. (s.numbers ≡ numbers_of s.metadata.now) × AreFew s.metadata.now };
}

impl<'a> Asked<'a> {
    // Why the first cell of row r that says nothing doesn't, where the row is asked.
    pub(crate) fn row_fault(&self, table: CellTable, r: u32) -> Option<MetaFault>
        requires low { 1 ≤ r }
        requires high { r ≤ rows_of self.now.metadata (table_of table) }
        ensures { IsFirstFault self.now.metadata (asked_cells self.now table r) result }
    {
        if !self.is_asked(table, r) {
            return None;
        }
        row_fault(self.metadata, table, r)
    }

    // The row of place k, which counts from 0.
    fn row_at(&self, table: CellTable, k: usize) -> u32
        requires { k < rows_of self.now.metadata (table_of table) }
        ensures is { result ≡ k + 1 }
        ensures few { result < 2 ^ 24 }
    {
        let _rows = self.metadata.rows(table.table());
        k as u32 + 1
    }

    // Why the first cell of row k + 1 that says nothing doesn't.
    fn fault_at(&self, table: CellTable, k: usize) -> Option<MetaFault>
        requires { k < rows_of self.now.metadata (table_of table) }
        ensures { IsFirstFault self.now.metadata (asked_cells self.now table (k + 1)) result }
    {
        self.row_fault(table, self.row_at(table, k))
    }

    // The fault of row k + 1, which is the first with a cell that says nothing.
    #[tactic(auto, using(crate::proofs::Found::found))]
    pub(crate) fn told(&self, table: CellTable, k: usize) -> CellFault
        requires { OfRows asked_rows RowStands self.now by_number (Err (table, k)) }
        ensures { IsFirst self.now result }
    {
        match self.fault_at(table, k) {
            Some(fault) => CellFault {
                token: table.token(self.row_at(table, k)),
                fault,
            },
            None => unreachable!(),
        }
    }

    fn is_asked(&self, table: CellTable, r: u32) -> bool
        requires { r ≤ rows_of self.now.metadata (table_of table) }
        ensures { result ≡ is_asked self.now table r }
    {
        match table {
            CellTable::TypeRef
            | CellTable::MemberRef
            | CellTable::StandAloneSig
            | CellTable::TypeSpec => self.is_reached(table, r),
            _ => true,
        }
    }

    fn is_reached(&self, table: CellTable, r: u32) -> bool
        requires { r ≤ rows_of self.now.metadata (table_of table) }
        ensures { result ≡ is_reached self.now table r }
    {
        match self.numbers.number(table.token(r)) {
            Some(k) => is_marked(self.reached, k as usize),
            None => false,
        }
    }
}

// A mark, which past the end isn't set.
fn is_marked(marks: &[bool], k: usize) -> bool
    ensures { result ≡ slice_index_or marks.now k false }
{
    k < marks.len() && marks[k]
}

// Of a row: each of its cells that is asked says something.
impl<'a> Condition<Asked<'a>> for CellTable {
    ghost rows = { asked_rows };

    ghost Holds = { RowStands };

    fn rows(self, asked: &Asked<'a>) -> usize {
        asked.metadata.rows(self.table()) as usize
    }

    fn holds(self, asked: &Asked<'a>, row: usize) -> bool {
        asked.fault_at(self, row).is_none()
    }
}
