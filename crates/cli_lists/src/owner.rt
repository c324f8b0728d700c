// The tables with list columns.

ghost use Rattle.std.specs.Prelude.{◌≡◌, ◌+◌, ◌<◌, ◌^◌};
ghost use Rattle.cli_lists.specs.Lists.{owners, BeginsLists, table_of, row_token};

use crate::Lists;
use cli_metadata::Table;
use dc_base::Token;
use dc_causes::Condition;

/// A table whose rows begin lists.
#[derive(Clone, Copy, Debug, PartialEq, Eq)]
pub enum Owner {
    TypeDef,
    MethodDef,
    PropertyMap,
}

impl Owner {
    // By their tables' numbers.
    pub(crate) const ALL: [Owner; 3] = [Owner::TypeDef, Owner::MethodDef, Owner::PropertyMap];

    fn table(self) -> Table
        ensures { result ≡ table_of self }
    {
        match self {
            Owner::TypeDef => Table::TypeDef,
            Owner::MethodDef => Table::MethodDef,
            Owner::PropertyMap => Table::PropertyMap,
        }
    }

    // The token of row k + 1.
    pub(crate) fn token(self, k: usize) -> Token
        requires { k + 1 < 2 ^ 24 }
        ensures { result ≡ row_token (self, k) }
    {
        Token(u32::from(self.table().number()) * 0x100_0000 + (k as u32 + 1))
    }
}

// Of a row: it begins lists.
impl Condition<Lists> for Owner {
    ghost rows = { owners };

    ghost Holds = { BeginsLists };

    fn rows(self, lists: &Lists) -> usize {
        match self {
            Owner::TypeDef => lists.fields.cells.len(),
            Owner::MethodDef => lists.params.cells.len(),
            Owner::PropertyMap => lists.properties.cells.len(),
        }
    }

    fn holds(self, lists: &Lists, row: usize) -> bool {
        match self {
            Owner::TypeDef => lists.fields.is_start(row) && lists.methods.is_start(row),
            Owner::MethodDef => lists.params.is_start(row),
            Owner::PropertyMap => lists.properties.is_start(row),
        }
    }
}
