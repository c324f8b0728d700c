// Modules and assemblies.

use crate::{BlobIndex, GuidIndex, StringIndex};
use cli_metadata::{MOST_COLUMNS, Table, TableRow};

/// The module of the file.
#[derive(Clone, Copy, Debug)]
pub struct ModuleRow {
    pub generation: u32,
    pub name: StringIndex,
    pub mvid: GuidIndex,
    pub enc_id: GuidIndex,
    pub enc_base_id: GuidIndex,
}

impl TableRow for ModuleRow {
    ghost use Rattle.cli_metadata.specs.declared.tables.Table.TheVariants.{Module};
    ghost use Rattle.cli_tables.specs.Assemblies.{module_of};

    ghost of_cells = { module_of };

    ghost TABLE = { Module };

    const TABLE: Table = Table::Module;

    fn of(cells: &[u32; MOST_COLUMNS]) -> Self {
        ModuleRow {
            generation: cells[0],
            name: cells[1],
            mvid: cells[2],
            enc_id: cells[3],
            enc_base_id: cells[4],
        }
    }
}

/// The assembly of the file.
#[derive(Clone, Copy, Debug)]
pub struct AssemblyRow {
    pub hash_algorithm: u32,
    pub major_version: u32,
    pub minor_version: u32,
    pub build_number: u32,
    pub revision_number: u32,
    pub flags: u32,
    pub public_key: BlobIndex,
    pub name: StringIndex,
    pub culture: StringIndex,
}

impl TableRow for AssemblyRow {
    ghost use Rattle.cli_metadata.specs.declared.tables.Table.TheVariants.{Assembly};
    ghost use Rattle.cli_tables.specs.Assemblies.{assembly_of};

    ghost of_cells = { assembly_of };

    ghost TABLE = { Assembly };

    const TABLE: Table = Table::Assembly;

    fn of(cells: &[u32; MOST_COLUMNS]) -> Self {
        AssemblyRow {
            hash_algorithm: cells[0],
            major_version: cells[1],
            minor_version: cells[2],
            build_number: cells[3],
            revision_number: cells[4],
            flags: cells[5],
            public_key: cells[6],
            name: cells[7],
            culture: cells[8],
        }
    }
}

/// An assembly that the file refers to.
#[derive(Clone, Copy, Debug)]
pub struct AssemblyRefRow {
    pub major_version: u32,
    pub minor_version: u32,
    pub build_number: u32,
    pub revision_number: u32,
    pub flags: u32,
    pub public_key_or_token: BlobIndex,
    pub name: StringIndex,
    pub culture: StringIndex,
    pub hash_value: BlobIndex,
}

impl TableRow for AssemblyRefRow {
    ghost use Rattle.cli_metadata.specs.declared.tables.Table.TheVariants.{AssemblyRef};
    ghost use Rattle.cli_tables.specs.Assemblies.{assembly_ref_of};

    ghost of_cells = { assembly_ref_of };

    ghost TABLE = { AssemblyRef };

    const TABLE: Table = Table::AssemblyRef;

    fn of(cells: &[u32; MOST_COLUMNS]) -> Self {
        AssemblyRefRow {
            major_version: cells[0],
            minor_version: cells[1],
            build_number: cells[2],
            revision_number: cells[3],
            flags: cells[4],
            public_key_or_token: cells[5],
            name: cells[6],
            culture: cells[7],
            hash_value: cells[8],
        }
    }
}
