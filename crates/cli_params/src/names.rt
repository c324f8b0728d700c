// The names of parameters.

ghost use Rattle.std.specs.Prelude.{◌≡◌, ◌≤◌, ℕ, IfOk, length, Some};
ghost use Rattle.cli_metadata.specs.declared.tables.Table.TheVariants as tables;
ghost use Rattle.cli_metadata.specs.Metadata.{rows_of};
ghost use Rattle.cli_lists.specs.Lists.{IsListColumn};
ghost use Rattle.cli_params.specs.Params.{IsRow, IsNameIn, AreParamNames};

use crate::rows::param_rows;
use cli_lists::ListColumn;
use cli_metadata::Metadata;
use cli_names::text_at;
use cli_tables::ParamRow;
use dc_base::{NoMemory, Text};
use std::alloc::Global;

/// The names of the first `count` parameters of row `k` of MethodDef; one that has no row, or a row without a text, has the
/// empty name. `params` is the list of parameters of the metadata. It takes the time of one look at each row of the method's list.
pub fn param_names(
    alloc: Global,
    metadata: &Metadata,
    params: &ListColumn,
    k: u32,
    count: usize,
) -> Result<Vec<Text>, NoMemory>
    requires column { IsListColumn params.now }
    requires same { params.now.rows ≡ rows_of metadata.now tables.Param }
    requires low { 1 ≤ k }
    requires high { k ≤ length params.now.cells }
    ensures { IfOk result (λ names. AreParamNames metadata.now params.now k count names.items) }
{
    let rows = param_rows(alloc, metadata, params, k, count)?;
    let mut names = Vec::new(alloc);
    for row in rows.as_slice() {
        names.push(name_in(alloc, metadata, *row)?)?;
    }
    Ok(names)
}

fn name_in(alloc: Global, metadata: &Metadata, row: Option<u32>) -> Result<Text, NoMemory>
    requires { (r : ℕ) → row ≡ Some r → IsRow metadata.now r }
    ensures { IfOk result (IsNameIn metadata.now row) }
{
    match row {
        Some(r) => {
            let row: ParamRow = metadata.row(r);
            Text::of(alloc, text_at(metadata, row.name))
        }
        None => Text::of(alloc, ""),
    }
}
