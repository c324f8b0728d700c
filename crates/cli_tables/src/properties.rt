// Properties and their accessors.

use crate::{BlobIndex, RowNumber, StringIndex};
use cli_metadata::{Coded, CodedIndex, MOST_COLUMNS, Table, TableRow};

/// The properties of a type, which is a row of TypeDef. They begin at this row, and end before those of the next line.
#[derive(Clone, Copy, Debug)]
pub struct PropertyMapRow {
    pub parent: RowNumber,
    pub properties: RowNumber,
}

impl TableRow for PropertyMapRow {
    ghost use Rattle.cli_metadata.specs.declared.tables.Table.TheVariants.{PropertyMap};
    ghost use Rattle.cli_tables.specs.Properties.{property_map_of};

    ghost of_cells = { property_map_of };

    ghost TABLE = { PropertyMap };

    const TABLE: Table = Table::PropertyMap;

    fn of(cells: &[u32; MOST_COLUMNS]) -> Self {
        PropertyMapRow {
            parent: cells[0],
            properties: cells[1],
        }
    }
}

/// A property of the file.
#[derive(Clone, Copy, Debug)]
pub struct PropertyRow {
    pub flags: u32,
    pub name: StringIndex,
    pub signature: BlobIndex,
}

impl TableRow for PropertyRow {
    ghost use Rattle.cli_metadata.specs.declared.tables.Table.TheVariants.{Property};
    ghost use Rattle.cli_tables.specs.Properties.{property_of};

    ghost of_cells = { property_of };

    ghost TABLE = { Property };

    const TABLE: Table = Table::Property;

    fn of(cells: &[u32; MOST_COLUMNS]) -> Self {
        PropertyRow {
            flags: cells[0],
            name: cells[1],
            signature: cells[2],
        }
    }
}

/// A method, a row of MethodDef, that is an accessor of a property or an event.
#[derive(Clone, Copy, Debug)]
pub struct MethodSemanticsRow {
    pub semantics: u32,
    pub method: RowNumber,
    pub association: CodedIndex,
}

impl TableRow for MethodSemanticsRow {
    ghost use Rattle.cli_metadata.specs.declared.tables.Table.TheVariants.{MethodSemantics};
    ghost use Rattle.cli_tables.specs.Properties.{method_semantics_of};

    ghost of_cells = { method_semantics_of };

    ghost TABLE = { MethodSemantics };

    const TABLE: Table = Table::MethodSemantics;

    fn of(cells: &[u32; MOST_COLUMNS]) -> Self {
        MethodSemanticsRow {
            semantics: cells[0],
            method: cells[1],
            association: CodedIndex {
                kind: Coded::HasSemantics,
                cell: cells[2],
            },
        }
    }
}
