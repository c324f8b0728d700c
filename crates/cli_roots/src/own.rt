// The tables of what is the assembly's own.

ghost use Rattle.std.specs.Prelude.{◌≡◌, IfOk};
ghost use Rattle.cli_metadata.specs.Metadata.{rows_of};
ghost use Rattle.cli_roots.specs.Own.{table_of, AreFirstRows, AreOwnTokens};

use crate::rows::named_by;
use cli_metadata::{Metadata, Table};
use cli_sig_tokens::one_list;
use dc_base::{NoMemory, Token};
use std::alloc::Global;

/// A table whose rows are types or members of the assembly itself, or say more of them.
#[derive(Clone, Copy, Debug, PartialEq, Eq)]
pub enum Own {
    Types,
    Interfaces,
    Fields,
    Methods,
    Properties,
    Implementations,
}

impl Own {
    pub(crate) fn table(self) -> Table
        ensures { result ≡ table_of self }
    {
        match self {
            Own::Types => Table::TypeDef,
            Own::Interfaces => Table::InterfaceImpl,
            Own::Fields => Table::Field,
            Own::Methods => Table::MethodDef,
            Own::Properties => Table::Property,
            Own::Implementations => Table::MethodImpl,
        }
    }
}

/// The tokens that types and members of the assembly itself name, table by table. It takes the time of one look at each of their
/// rows and signatures.
pub fn own_tokens(alloc: Global, metadata: &Metadata) -> Result<Vec<Token>, NoMemory>
    ensures { IfOk result (λ found. AreOwnTokens metadata.now found.items) }
{
    let found = Vec::new(alloc);
    let found = with_rows(alloc, metadata, Own::Types, found)?;
    let found = with_rows(alloc, metadata, Own::Interfaces, found)?;
    let found = with_rows(alloc, metadata, Own::Fields, found)?;
    let found = with_rows(alloc, metadata, Own::Methods, found)?;
    let found = with_rows(alloc, metadata, Own::Properties, found)?;
    with_rows(alloc, metadata, Own::Implementations, found)
}

// Behind some tokens those that the rows of a table name.
fn with_rows(
    alloc: Global,
    metadata: &Metadata,
    table: Own,
    before: Vec<Token>,
) -> Result<Vec<Token>, NoMemory>
    ensures { IfOk result (λ found. AreFirstRows metadata.now table (rows_of metadata.now (table_of table)) before.items found.items) }
{
    one_list();
    let mut found = before;
    for k in 0..metadata.rows(table.table()) {
        let named = named_by(alloc, metadata, table, k + 1)?;
        found.extend_from_slice(named.as_slice())?;
    }
    Ok(found)
}
