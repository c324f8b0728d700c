// Own delegates.

ghost use Rattle.std.specs.Prelude.{◌≡◌, ◌≤◌, codes};
ghost use Rattle.std.specs.Bool.{OnTrue, OnFalse};
ghost use Rattle.cli_metadata.specs.declared.tables.Table.TheVariants as tables;
ghost use Rattle.cli_metadata.specs.Metadata.{rows_of};
ghost use Rattle.cli_profile.specs.Methods.{AreTexts, IsRow, HasName, IsMulticastDelegate, IsDelegate};

use crate::strings::is_text;
use cli_metadata::{Metadata, Table};
use cli_tables::{TypeDefRow, TypeRefRow};
use dc_base::Token;

// Whether a row of TypeDef is a delegate. A name that is another one is read to its end.
pub(crate) fn is_delegate(metadata: &Metadata, t: u32) -> bool
    requires { IsRow metadata.now tables.TypeDef t }
    ensures yes { OnTrue result (IsDelegate metadata.now t) }
    ensures no { OnFalse result (IsDelegate metadata.now t → ⊥) }
{
    match metadata.row::<TypeDefRow>(t).extends.token() {
        Some(base) => is_multicast_delegate(metadata, base),
        None => false,
    }
}

// How many rows a token can tell of a table, with row 0.
const ROWS: u32 = 0x100_0000;

fn is_multicast_delegate(metadata: &Metadata, token: Token) -> bool
    ensures yes { OnTrue result (IsMulticastDelegate metadata.now token) }
    ensures no { OnFalse result (IsMulticastDelegate metadata.now token → ⊥) }
{
    let row = token.0 % ROWS;
    match token.0 / ROWS {
        0x01 => is_ref_to_it(metadata, row),
        0x02 => is_it(metadata, row),
        _ => false,
    }
}

// Whether there is such a row of TypeRef, and it has the name.
fn is_ref_to_it(metadata: &Metadata, n: u32) -> bool
    ensures there { OnTrue result (IsRow metadata.now tables.TypeRef n) }
    ensures named { OnTrue result (HasName metadata.now tables.TypeRef n (codes "System") (codes "MulticastDelegate")) }
    ensures no { OnFalse result (IsRow metadata.now tables.TypeRef n → HasName metadata.now tables.TypeRef n (codes "System") (codes "MulticastDelegate") → ⊥) }
{
    if n == 0 || metadata.rows(Table::TypeRef) < n {
        return false;
    }
    let row: TypeRefRow = metadata.row(n);
    has_its_name(metadata, row.namespace, row.name)
}

// Whether there is such a row of TypeDef, and it has the name.
fn is_it(metadata: &Metadata, n: u32) -> bool
    ensures there { OnTrue result (IsRow metadata.now tables.TypeDef n) }
    ensures named { OnTrue result (HasName metadata.now tables.TypeDef n (codes "System") (codes "MulticastDelegate")) }
    ensures no { OnFalse result (IsRow metadata.now tables.TypeDef n → HasName metadata.now tables.TypeDef n (codes "System") (codes "MulticastDelegate") → ⊥) }
{
    if n == 0 || metadata.rows(Table::TypeDef) < n {
        return false;
    }
    let row: TypeDefRow = metadata.row(n);
    has_its_name(metadata, row.namespace, row.name)
}

fn has_its_name(metadata: &Metadata, namespace: u32, name: u32) -> bool
    ensures yes { OnTrue result (AreTexts metadata.now namespace (codes "System") name (codes "MulticastDelegate")) }
    ensures no { OnFalse result (AreTexts metadata.now namespace (codes "System") name (codes "MulticastDelegate") → ⊥) }
{
    is_text(metadata, namespace, "System") && is_text(metadata, name, "MulticastDelegate")
}
