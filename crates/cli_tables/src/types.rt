// Types.

use crate::{BlobIndex, RowNumber, StringIndex};
use cli_metadata::{Coded, CodedIndex, MOST_COLUMNS, Table, TableRow};

/// A type of another module or assembly.
#[derive(Clone, Copy, Debug)]
pub struct TypeRefRow {
    pub scope: CodedIndex,
    pub name: StringIndex,
    pub namespace: StringIndex,
}

impl TableRow for TypeRefRow {
    ghost use Rattle.cli_metadata.specs.declared.tables.Table.TheVariants.{TypeRef};
    ghost use Rattle.cli_tables.specs.Types.{type_ref_of};

    ghost of_cells = { type_ref_of };

    ghost TABLE = { TypeRef };

    const TABLE: Table = Table::TypeRef;

    fn of(cells: &[u32; MOST_COLUMNS]) -> Self {
        TypeRefRow {
            scope: CodedIndex {
                kind: Coded::ResolutionScope,
                cell: cells[0],
            },
            name: cells[1],
            namespace: cells[2],
        }
    }
}

/// A type of the file. Its fields and methods begin at these rows, and end before those of the next type.
#[derive(Clone, Copy, Debug)]
pub struct TypeDefRow {
    pub flags: u32,
    pub name: StringIndex,
    pub namespace: StringIndex,
    pub extends: CodedIndex,
    pub fields: RowNumber,
    pub methods: RowNumber,
}

impl TableRow for TypeDefRow {
    ghost use Rattle.cli_metadata.specs.declared.tables.Table.TheVariants.{TypeDef};
    ghost use Rattle.cli_tables.specs.Types.{type_def_of};

    ghost of_cells = { type_def_of };

    ghost TABLE = { TypeDef };

    const TABLE: Table = Table::TypeDef;

    fn of(cells: &[u32; MOST_COLUMNS]) -> Self {
        TypeDefRow {
            flags: cells[0],
            name: cells[1],
            namespace: cells[2],
            extends: CodedIndex {
                kind: Coded::TypeDefOrRef,
                cell: cells[3],
            },
            fields: cells[4],
            methods: cells[5],
        }
    }
}

/// A type that a signature spells.
#[derive(Clone, Copy, Debug)]
pub struct TypeSpecRow {
    pub signature: BlobIndex,
}

impl TableRow for TypeSpecRow {
    ghost use Rattle.cli_metadata.specs.declared.tables.Table.TheVariants.{TypeSpec};
    ghost use Rattle.cli_tables.specs.Types.{type_spec_of};

    ghost of_cells = { type_spec_of };

    ghost TABLE = { TypeSpec };

    const TABLE: Table = Table::TypeSpec;

    fn of(cells: &[u32; MOST_COLUMNS]) -> Self {
        TypeSpecRow {
            signature: cells[0],
        }
    }
}

/// A type that stands in another, both by their rows of TypeDef.
#[derive(Clone, Copy, Debug)]
pub struct NestedClassRow {
    pub nested: RowNumber,
    pub enclosing: RowNumber,
}

impl TableRow for NestedClassRow {
    ghost use Rattle.cli_metadata.specs.declared.tables.Table.TheVariants.{NestedClass};
    ghost use Rattle.cli_tables.specs.Types.{nested_class_of};

    ghost of_cells = { nested_class_of };

    ghost TABLE = { NestedClass };

    const TABLE: Table = Table::NestedClass;

    fn of(cells: &[u32; MOST_COLUMNS]) -> Self {
        NestedClassRow {
            nested: cells[0],
            enclosing: cells[1],
        }
    }
}

/// An interface of a type, which is a row of TypeDef.
#[derive(Clone, Copy, Debug)]
pub struct InterfaceImplRow {
    pub class: RowNumber,
    pub interface: CodedIndex,
}

impl TableRow for InterfaceImplRow {
    ghost use Rattle.cli_metadata.specs.declared.tables.Table.TheVariants.{InterfaceImpl};
    ghost use Rattle.cli_tables.specs.Types.{interface_impl_of};

    ghost of_cells = { interface_impl_of };

    ghost TABLE = { InterfaceImpl };

    const TABLE: Table = Table::InterfaceImpl;

    fn of(cells: &[u32; MOST_COLUMNS]) -> Self {
        InterfaceImplRow {
            class: cells[0],
            interface: CodedIndex {
                kind: Coded::TypeDefOrRef,
                cell: cells[1],
            },
        }
    }
}
