// What the tokens of types mean.

ghost use Rattle.std.specs.Prelude.{◌≡◌};
ghost use Rattle.cli_types.specs.Named.{own_type, ref_type, type_named, core_at, core_named};

use dc_base::{Core, Seq, Token, TypeId};

/// Which types the tokens of types mean.
#[derive(Debug, Drop)]
pub struct Tokens {
    /// How many types there are.
    pub types: u32,
    /// The number of the type of row 2 of TypeDef, behind which those of the other rows stand. Row 1 is no type.
    pub own_from: u32,
    /// What each row of TypeRef means.
    pub refs: Seq<Option<TypeId>>,
}

/// The types that there are, each as it stands in signatures: a primitive type, an enum, another value type, or a reference
/// type.
#[derive(Debug, Drop)]
pub struct Types {
    pub tokens: Tokens,
    pub cores: Seq<Core>,
    pub object: TypeId,
    pub string: TypeId,
}

// How many rows a token can tell of a table, with row 0.
const ROWS: u32 = 0x100_0000;

impl Tokens {
    /// The type that a token means; only rows of TypeDef and of TypeRef mean one.
    pub fn type_named(&self, token: Token) -> Option<TypeId>
        ensures { result ≡ type_named self.now token }
    {
        let row = token.0 % ROWS;
        match token.0 / ROWS {
            0x01 => self.ref_type(row),
            0x02 => self.own_type(row),
            _ => None,
        }
    }

    fn ref_type(&self, row: u32) -> Option<TypeId>
        ensures { result ≡ ref_type self.now row }
    {
        if row == 0 {
            return None;
        }
        match self.refs.items().get(row as usize - 1) {
            Some(found) => *found,
            None => None,
        }
    }

    /// The type of a row of TypeDef.
    pub fn own_type(&self, row: u32) -> Option<TypeId>
        ensures { result ≡ own_type self.now row }
    {
        if row < 2 || self.types <= self.own_from || self.types - self.own_from <= row - 2 {
            return None;
        }
        Some(TypeId(self.own_from + (row - 2)))
    }
}

impl Types {
    /// The type that a token means, as it stands in signatures.
    pub fn core_named(&self, token: Token) -> Option<Core>
        ensures { result ≡ core_named self.now token }
    {
        self.core_at(self.tokens.type_named(token)?)
    }

    fn core_at(&self, t: TypeId) -> Option<Core>
        ensures { result ≡ core_at self.now t }
    {
        match self.cores.items().get(t.0 as usize) {
            Some(core) => Some(*core),
            None => None,
        }
    }
}
