// What an instruction names.

ghost use Rattle.std.specs.Prelude.{◌≡◌};
ghost use Rattle.cil_named.specs.Instructions.{token_of, token_of_access};

use cil_rows::{Access, Row};
use dc_base::Token;

/// The token that an instruction names: of a type, a member or a user string.
pub fn token_of(row: &Row) -> Option<Token>
    ensures { result ≡ token_of row.now }
{
    match row {
        Row::Text(token)
        | Row::New(token)
        | Row::LoadField(token)
        | Row::FieldAddress(token)
        | Row::StoreField(token)
        | Row::LoadStatic(token)
        | Row::StaticAddress(token)
        | Row::StoreStatic(token)
        | Row::NewArray(token)
        | Row::ElementAddress(token)
        | Row::Cast(token)
        | Row::IsInstance(token)
        | Row::Box(token)
        | Row::Unbox(token)
        | Row::UnboxAny(token) => Some(*token),
        Row::Call { callee, .. } => Some(*callee),
        Row::Function { target, .. } => Some(*target),
        Row::LoadElement(access)
        | Row::StoreElement(access)
        | Row::LoadIndirect(access)
        | Row::StoreIndirect(access) => token_of_access(*access),
        _ => None,
    }
}

fn token_of_access(access: Access) -> Option<Token>
    ensures { result ≡ token_of_access access }
{
    match access {
        Access::Typed(token) => Some(token),
        _ => None,
    }
}
