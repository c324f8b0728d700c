// The rows of parameters.

ghost use Rattle.std.specs.Prelude.{◌≡◌, ◌≤◌, IfOk, length};
ghost use Rattle.cli_metadata.specs.declared.tables.Table.TheVariants as tables;
ghost use Rattle.cli_metadata.specs.Metadata.{rows_of};
ghost use Rattle.cli_lists.specs.Lists.{IsListColumn};
ghost use Rattle.cli_params.specs.Params.{param_at, IsRow};
ghost use Rattle.cli_params.specs.Put.{IsPut, AreParamRows};

use cli_lists::ListColumn;
use cli_metadata::Metadata;
use cli_tables::ParamRow;
use dc_base::NoMemory;
use std::alloc::Global;

/// For each of the first parameters of row `k` of MethodDef the first row of Param that is its own.
pub(crate) fn param_rows(
    alloc: Global,
    metadata: &Metadata,
    params: &ListColumn,
    k: u32,
    count: usize,
) -> Result<Vec<Option<u32>>, NoMemory>
    requires column { IsListColumn params.now }
    requires same { params.now.rows ≡ rows_of metadata.now tables.Param }
    requires low { 1 ≤ k }
    requires high { k ≤ length params.now.cells }
    ensures { IfOk result (λ found. AreParamRows metadata.now params.now k count found.items) }
{
    let mut found = vec![in alloc; None; count]?;
    let list = params.list(k);
    for r in list.start..list.end {
        let sequence = sequence(metadata, r);
        found = with_row(found, sequence, r);
    }
    Ok(found)
}

fn sequence(metadata: &Metadata, r: u32) -> u32
    requires { IsRow metadata.now r }
    ensures { result ≡ (param_at metadata.now r).sequence }
{
    let row: ParamRow = metadata.row(r);
    row.sequence
}

// A row is written down for its parameter, where none is.
fn with_row(found: Vec<Option<u32>>, sequence: u32, r: u32) -> Vec<Option<u32>>
    ensures { IsPut sequence r found.items result.items }
{
    let mut found = found;
    if 1 <= sequence && sequence as usize <= found.len() {
        if found[sequence as usize - 1].is_none() {
            found[sequence as usize - 1] = Some(r);
        }
    }
    found
}
