// Which interfaces a type names.

ghost use Rattle.std.specs.Prelude.{◌≡◌, IfOk, map};
ghost use Rattle.cli_own.specs.Interfaces.{AreInterfaces, interface_of, IsAdded};

use cli_kinds::or_nothing;
use cli_metadata::{Metadata, Table};
use cli_tables::InterfaceImplRow;
use cli_types::Tokens;
use dc_base::{NoMemory, TypeId};
use std::alloc::Global;

/// For each row of TypeDef the interfaces that it names, by the rows of InterfaceImpl in their order; one that means no type is
/// a number that names nothing.
pub fn interfaces_of(
    alloc: Global,
    metadata: &Metadata,
    tokens: &Tokens,
) -> Result<Vec<Vec<TypeId>>, NoMemory>
    ensures { IfOk result (λ lists. AreInterfaces metadata.now tokens.now (map (λ l. l.items) lists.items)) }
{
    let mut lists = Vec::new(alloc);
    for _ in 0..metadata.rows(Table::TypeDef) {
        lists.push(Vec::new(alloc))?;
    }
    for k in 0..metadata.rows(Table::InterfaceImpl) {
        let row: InterfaceImplRow = metadata.row(k + 1);
        lists = with_interface(lists, row.class, interface(tokens, row))?;
    }
    Ok(lists)
}

fn interface(tokens: &Tokens, row: InterfaceImplRow) -> TypeId
    ensures { result ≡ interface_of tokens.now row }
{
    match row.interface.token() {
        Some(token) => or_nothing(tokens.type_named(token)),
        None => or_nothing(None),
    }
}

// One more interface at the end of the list of its class, where there is one.
fn with_interface(
    lists: Vec<Vec<TypeId>>,
    class: u32,
    interface: TypeId,
) -> Result<Vec<Vec<TypeId>>, NoMemory>
    ensures { IfOk result (λ new. IsAdded class interface (map (λ l. l.items) lists.items) (map (λ l. l.items) new.items)) }
{
    let mut lists = lists;
    if class < 1 || lists.len() < class as usize {
        return Ok(lists);
    }
    lists[class as usize - 1].push(interface)?;
    Ok(lists)
}
