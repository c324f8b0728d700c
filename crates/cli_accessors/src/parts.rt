// The parts of properties.

ghost use Rattle.std.specs.Prelude.{◌≡◌, IfOk};
ghost use Rattle.cli_accessors.specs.Accessors.{is_part, property_named, property_of, AreAccessors};
ghost use Rattle.cli_accessors.specs.Put.{IsPut};

use cli_metadata::{Metadata, Table};
use cli_tables::MethodSemanticsRow;
use dc_base::{NoMemory, Token};
use std::alloc::Global;

/// What a method is to a property (ECMA-335 II.23.1.12): an accessor is a getter, a setter, or another method. A row may make
/// its method a getter and a setter.
#[derive(Clone, Copy, Debug, PartialEq, Eq)]
pub enum Part {
    Getter,
    Setter,
    Other,
}

// How many rows a token can tell of a table, with row 0.
const ROWS: u32 = 0x100_0000;

/// For each row of Property the row of MethodDef that is such a part of it, by the first row of MethodSemantics that says so.
/// It takes the time of one look at each row of MethodSemantics.
pub fn accessors_of(
    alloc: Global,
    metadata: &Metadata,
    part: Part,
) -> Result<Vec<Option<u32>>, NoMemory>
    ensures { IfOk result (λ found. AreAccessors metadata.now part found.items) }
{
    let mut found = vec![in alloc; None; metadata.rows(Table::Property) as usize]?;
    for k in (0..metadata.rows(Table::MethodSemantics)).rev() {
        let row: MethodSemanticsRow = metadata.row(k + 1);
        found = with_accessor(found, property_of(part, row), row.method);
    }
    Ok(found)
}

fn with_accessor(found: Vec<Option<u32>>, property: Option<u32>, method: u32) -> Vec<Option<u32>>
    ensures { IsPut property method found.items result.items }
{
    let mut found = found;
    if let Some(p) = property {
        if 1 <= p && p as usize <= found.len() {
            found[p as usize - 1] = Some(method);
        }
    }
    found
}

// The property of which a row makes its method such a part.
fn property_of(part: Part, row: MethodSemanticsRow) -> Option<u32>
    ensures { result ≡ property_of part row }
{
    if !is_part(part, row.semantics) {
        return None;
    }
    property_named(row.association.token())
}

fn is_part(part: Part, semantics: u32) -> bool
    ensures { result ≡ is_part part semantics }
{
    match part {
        Part::Getter => semantics & 0x2 != 0,
        Part::Setter => semantics & 0x1 != 0,
        Part::Other => semantics & 0x2 == 0 && semantics & 0x1 == 0,
    }
}

fn property_named(token: Option<Token>) -> Option<u32>
    ensures { result ≡ property_named token }
{
    match token {
        Some(token) if token.0 / ROWS == 0x17 => Some(token.0 % ROWS),
        _ => None,
    }
}
