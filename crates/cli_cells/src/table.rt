// The tables whose rows are asked.

ghost use Rattle.std.specs.Prelude.{◌≡◌, ◌+◌, ◌≤◌, ◌<◌, ◌^◌};
ghost use Rattle.cli_cells.specs.Rows.{table_of, token_at};

use cli_metadata::Table;
use dc_base::Token;

/// A table with rows whose cells are asked.
#[derive(Clone, Copy, Debug, PartialEq, Eq)]
pub enum CellTable {
    TypeRef,
    TypeDef,
    Field,
    MethodDef,
    Param,
    InterfaceImpl,
    MemberRef,
    Constant,
    StandAloneSig,
    PropertyMap,
    Property,
    MethodSemantics,
    MethodImpl,
    TypeSpec,
    Assembly,
    NestedClass,
}

impl CellTable {
    // By the tables' numbers.
    pub(crate) const ALL: [CellTable; 16] = [
        CellTable::TypeRef,
        CellTable::TypeDef,
        CellTable::Field,
        CellTable::MethodDef,
        CellTable::Param,
        CellTable::InterfaceImpl,
        CellTable::MemberRef,
        CellTable::Constant,
        CellTable::StandAloneSig,
        CellTable::PropertyMap,
        CellTable::Property,
        CellTable::MethodSemantics,
        CellTable::MethodImpl,
        CellTable::TypeSpec,
        CellTable::Assembly,
        CellTable::NestedClass,
    ];

    pub(crate) fn table(self) -> Table
        ensures { result ≡ table_of self }
    {
        match self {
            CellTable::TypeRef => Table::TypeRef,
            CellTable::TypeDef => Table::TypeDef,
            CellTable::Field => Table::Field,
            CellTable::MethodDef => Table::MethodDef,
            CellTable::Param => Table::Param,
            CellTable::InterfaceImpl => Table::InterfaceImpl,
            CellTable::MemberRef => Table::MemberRef,
            CellTable::Constant => Table::Constant,
            CellTable::StandAloneSig => Table::StandAloneSig,
            CellTable::PropertyMap => Table::PropertyMap,
            CellTable::Property => Table::Property,
            CellTable::MethodSemantics => Table::MethodSemantics,
            CellTable::MethodImpl => Table::MethodImpl,
            CellTable::TypeSpec => Table::TypeSpec,
            CellTable::Assembly => Table::Assembly,
            CellTable::NestedClass => Table::NestedClass,
        }
    }

    // The token of row r.
    pub(crate) fn token(self, r: u32) -> Token
        requires { r < 2 ^ 24 }
        ensures { result ≡ token_at self r }
    {
        Token(u32::from(self.table().number()) * 0x100_0000 + r)
    }
}
