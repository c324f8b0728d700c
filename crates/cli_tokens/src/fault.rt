// What is wrong with a token.

ghost use Rattle.std.specs.Prelude.{◌≡◌, IfSome, IfNone};
ghost use Rattle.cli_metadata.specs.declared.fault.MetaFault.{MetaFault as Fault};
ghost use Rattle.cli_tokens.specs.Faults.{table_of, IsTokenFault};

use cli_metadata::{MetaCause, MetaFault, Metadata, Table};
use dc_base::Token;

// How many rows a token can tell of a table, with row 0.
const ROWS: u32 = 0x100_0000;

// The number in the place of a table's that the tokens of user strings have.
const USER_STRING: u32 = 0x70;

/// Why a token stands for nothing: its row is past its table, which is BadIndex at 0, or no user string begins at its place, with the
/// fault of that place. A token of any other kind has no fault here.
pub fn token_fault(metadata: &Metadata, token: Token) -> Option<MetaFault>
    ensures some { IfSome result (λ fault. IsTokenFault metadata.now token fault) }
    ensures none { IfNone result ((fault : Fault) → IsTokenFault metadata.now token fault → ⊥) }
{
    let kind = token.0 / ROWS;
    let row = token.0 % ROWS;
    if kind == USER_STRING {
        return match metadata.user_string(row) {
            Ok(_) => None,
            Err(fault) => Some(fault),
        };
    }
    let table = table_of(kind)?;
    if row <= metadata.rows(table) {
        return None;
    }
    Some(MetaFault {
        cause: MetaCause::BadIndex,
        place: 0,
    })
}

// The table that tokens of this kind name rows of.
fn table_of(kind: u32) -> Option<Table>
    ensures { result ≡ table_of kind }
{
    match kind {
        0x01 => Some(Table::TypeRef),
        0x02 => Some(Table::TypeDef),
        0x04 => Some(Table::Field),
        0x06 => Some(Table::MethodDef),
        0x0A => Some(Table::MemberRef),
        0x11 => Some(Table::StandAloneSig),
        0x1B => Some(Table::TypeSpec),
        _ => None,
    }
}
