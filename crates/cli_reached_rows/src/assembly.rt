// What a whole assembly reaches.

ghost use Rattle.std.specs.Prelude.{IfOk};
ghost use Rattle.cli_reached_rows.specs.Assembly.{IsReachedWith};

use crate::reached_rows;
use cli_metadata::Metadata;
use cli_roots::own_tokens;
use dc_base::{NoMemory, Token};
use std::alloc::Global;

/// For each row that has a number whether the assembly reaches it: from what its own types and members name, and from what its
/// bodies name, which are `named`.
pub fn rows_of_assembly(
    alloc: Global,
    metadata: &Metadata,
    named: &[Token],
) -> Result<Vec<bool>, NoMemory>
    ensures { IfOk result (λ marks. IsReachedWith metadata.now named.now marks.items) }
{
    let mut roots = own_tokens(alloc, metadata)?;
    roots.extend_from_slice(named)?;
    reached_rows(alloc, metadata, roots.as_slice())
}
