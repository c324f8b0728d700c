// The first cell that says nothing.

ghost use Rattle.std.specs.Prelude.{◌≡◌, ◌^◌, IfOk, IfErr, Ok, nat_lt};
ghost use Rattle.std.specs.Bool.{OnTrue, OnFalse};
ghost use Rattle.dc_causes.specs.Answer.{FaultOf};
ghost use Rattle.cli_metadata.specs.Metadata.{rows_of};
ghost use Rattle.cli_cells.specs.Rows.{table_of};
ghost use Rattle.cli_cells.specs.First.{AreFew, CellsStand};

use crate::asked::Asked;
use crate::{CellFault, CellTable};
use cli_metadata::Metadata;
use cli_named::Numbers;
use dc_causes::first_broken;

/// Whether three bytes hold each row's number of the tables whose rows are asked.
#[tactic(auto, using(crate::proofs::Few::each))]
pub fn cell_rows_fit_tokens(metadata: &Metadata) -> bool
    ensures yes { OnTrue result (AreFew metadata.now) }
    ensures no { OnFalse result (AreFew metadata.now → ⊥) }
{
    for table in &CellTable::ALL {
        if !fits(metadata, *table) {
            return false;
        }
    }
    true
}

fn fits(metadata: &Metadata, table: CellTable) -> bool
    ensures { result ≡ nat_lt (rows_of metadata.now (table_of table)) (2 ^ 24) }
{
    metadata.rows(table.table()) < 0x100_0000
}

/// That each cell of the rows which are asked says something: a text, a blob, a row that is there, the start of a list. Own rows
/// are asked, and those of TypeRef, MemberRef, StandAloneSig and TypeSpec that are reached; `reached` are the marks of the rows by
/// their numbers, and a row past the end of the marks isn't reached. Of constants those of fields alone are asked. What is refused
/// is the first row with a cell that says nothing, by its token, with the fault of the first such cell; a cell that names a row
/// which isn't there, or a list that begins nowhere, is BadIndex at 0.
///
/// It takes the time of one look at each row and each text and blob. Takes no memory.
pub fn check_cells(metadata: &Metadata, reached: &[bool]) -> Result<(), CellFault>
    requires few { AreFew metadata.now }
    ensures stand { IfOk result (λ met. CellsStand (record { metadata = metadata.now; reached = reached.now }) (Ok met)) }
    ensures refused { IfErr result (FaultOf (CellsStand (record { metadata = metadata.now; reached = reached.now }))) }
{
    let asked = Asked {
        metadata,
        numbers: Numbers::of(metadata),
        reached,
    };
    match first_broken(&CellTable::ALL, &asked) {
        Some((table, k)) => Err(asked.told(table, k)),
        None => Ok(()),
    }
}
