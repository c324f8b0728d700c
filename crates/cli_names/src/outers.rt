// Which types stand in which.

ghost use Rattle.std.specs.Prelude.{◌≡◌, ◌≤◌, IfOk, None};
ghost use Rattle.cli_names.specs.Outers.{AreOuters, IsPut};

use cli_metadata::{Metadata, Table};
use cli_tables::NestedClassRow;
use dc_base::NoMemory;
use std::alloc::Global;

/// For each row of TypeDef the row of the type round it, as the first row of NestedClass says that names it. It takes the time
/// of one look at each row of NestedClass.
pub fn outers_of(alloc: Global, metadata: &Metadata) -> Result<Vec<Option<u32>>, NoMemory>
    ensures { IfOk result (λ outers. AreOuters metadata.now outers.items) }
{
    let mut outers = vec![in alloc; None; metadata.rows(Table::TypeDef) as usize]?;
    for k in (0..metadata.rows(Table::NestedClass)).rev() {
        let row: NestedClassRow = metadata.row(k + 1);
        outers = with_row(outers, row);
    }
    Ok(outers)
}

fn with_row(outers: Vec<Option<u32>>, row: NestedClassRow) -> Vec<Option<u32>>
    ensures { IsPut row outers.items result.items }
{
    let mut outers = outers;
    if 1 <= row.nested && row.nested as usize <= outers.len() {
        outers[row.nested as usize - 1] = Some(row.enclosing);
    }
    outers
}
