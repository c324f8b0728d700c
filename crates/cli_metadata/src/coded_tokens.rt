// The tokens that coded indices mean.

ghost use Rattle.std.specs.Prelude.{◌≡◌, ◌≤◌, slice_index_or};
ghost use Rattle.cli_metadata.specs.Metadata.{coded_of, coded_with, token_of};

use crate::{Coded, Table, Targets};
use dc_base::Token;

/// A cell that names a row of one of several tables.
#[derive(Clone, Copy, Debug, PartialEq, Eq)]
pub struct CodedIndex {
    pub kind: Coded,
    pub cell: u32,
}

impl CodedIndex {
    /// The token of the row that is named, as `coded` says.
    pub fn token(self) -> Option<Token>
        ensures { result ≡ coded_of self.kind self.cell }
    {
        coded(self.kind, self.cell)
    }
}

/// The token that a coded index means. None where no table has its tag, or its row is above 2^24 - 1. Row 0, which is no
/// row, is handed on. Takes no memory.
#[tactic(auto, using(crate::proofs::Standard::coded_are))]
pub fn coded(kind: Coded, cell: u32) -> Option<Token>
    ensures { result ≡ coded_of kind cell }
{
    coded_with(kind.targets(), cell)
}

fn coded_with(targets: Targets, cell: u32) -> Option<Token>
    requires { targets.bits ≤ 5 }
    ensures { result ≡ coded_with targets cell }
{
    let tag = cell % (1 << targets.bits);
    token_of(table_of(targets, tag), cell / (1 << targets.bits))
}

// The table of a tag.
fn table_of(targets: Targets, tag: u32) -> Option<Table>
    ensures { result ≡ slice_index_or targets.tables tag None }
{
    match targets.tables.get(tag as usize) {
        Some(table) => *table,
        None => None,
    }
}

const LAST_ROW: u32 = 0xFF_FFFF;

fn token_of(table: Option<Table>, row: u32) -> Option<Token>
    ensures { result ≡ token_of table row }
{
    let table = table?;
    if LAST_ROW < row {
        return None;
    }
    Some(Token(u32::from(table.number()) * 0x100_0000 + row))
}
