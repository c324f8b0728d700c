// What a type extends.

ghost use Rattle.std.specs.Prelude.{◌≡◌};
ghost use Rattle.cli_kinds.specs.Bases.{nothing, or_nothing, base_of};

use cli_types::Tokens;
use dc_base::{Token, TypeId};

/// A number that no list of types has, and so names nothing.
pub const NOTHING: TypeId = TypeId(u32::MAX);

// How many rows a token can tell of a table, with row 0.
const ROWS: u32 = 0x100_0000;

/// The type that another extends, by the token in its row: none where that is row 0, and a number that names nothing where the
/// token means no type.
pub fn base_of(tokens: &Tokens, token: Option<Token>) -> Option<TypeId>
    ensures { result ≡ base_of tokens.now token }
{
    let Some(token) = token else {
        return Some(NOTHING);
    };
    if token.0 % ROWS == 0 {
        return None;
    }
    Some(or_nothing(tokens.type_named(token)))
}

/// A type, or a number that names nothing.
pub fn or_nothing(found: Option<TypeId>) -> TypeId
    ensures { result ≡ or_nothing found }
{
    match found {
        Some(t) => t,
        None => NOTHING,
    }
}
