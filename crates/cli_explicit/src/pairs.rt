// Explicit implementations.

ghost use Rattle.std.specs.Prelude.{IfOk};
ghost use Rattle.cli_explicit.specs.Explicit.{IsSound, AreExplicit};

use crate::Meant;
use crate::meant::meant_by;
use cli_metadata::{Metadata, Table};
use cli_tables::MethodImplRow;
use dc_base::{MemberId, NoMemory};
use std::alloc::Global;

/// For each row of MethodImpl the method that implements another, and that one; a number that names nothing stands for one that
/// isn't there. It takes the time of a search by halves for each row.
pub fn explicit_of(
    alloc: Global,
    metadata: &Metadata,
    members: &Meant<'_>,
) -> Result<Vec<(MemberId, MemberId)>, NoMemory>
    requires { IsSound members.now }
    ensures { IfOk result (λ pairs. AreExplicit metadata.now members.now pairs.items) }
{
    let mut pairs = Vec::new(alloc);
    for k in 0..metadata.rows(Table::MethodImpl) {
        let row: MethodImplRow = metadata.row(k + 1);
        let body = meant_by(members, row.body);
        let declaration = meant_by(members, row.declaration);
        pairs.push((body, declaration))?;
    }
    Ok(pairs)
}
