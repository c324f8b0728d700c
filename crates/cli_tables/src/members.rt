// Fields, methods and their parameters.

use crate::{BlobIndex, RowNumber, StringIndex};
use cli_metadata::{Coded, CodedIndex, MOST_COLUMNS, Table, TableRow};

/// A field of the file.
#[derive(Clone, Copy, Debug)]
pub struct FieldRow {
    pub flags: u32,
    pub name: StringIndex,
    pub signature: BlobIndex,
}

impl TableRow for FieldRow {
    ghost use Rattle.cli_metadata.specs.declared.tables.Table.TheVariants.{Field};
    ghost use Rattle.cli_tables.specs.Members.{field_of};

    ghost of_cells = { field_of };

    ghost TABLE = { Field };

    const TABLE: Table = Table::Field;

    fn of(cells: &[u32; MOST_COLUMNS]) -> Self {
        FieldRow {
            flags: cells[0],
            name: cells[1],
            signature: cells[2],
        }
    }
}

/// A method of the file. Its parameters begin at this row, and end before those of the next method.
#[derive(Clone, Copy, Debug)]
pub struct MethodDefRow {
    pub address: u32,
    pub impl_flags: u32,
    pub flags: u32,
    pub name: StringIndex,
    pub signature: BlobIndex,
    pub params: RowNumber,
}

impl TableRow for MethodDefRow {
    ghost use Rattle.cli_metadata.specs.declared.tables.Table.TheVariants.{MethodDef};
    ghost use Rattle.cli_tables.specs.Members.{method_def_of};

    ghost of_cells = { method_def_of };

    ghost TABLE = { MethodDef };

    const TABLE: Table = Table::MethodDef;

    fn of(cells: &[u32; MOST_COLUMNS]) -> Self {
        MethodDefRow {
            address: cells[0],
            impl_flags: cells[1],
            flags: cells[2],
            name: cells[3],
            signature: cells[4],
            params: cells[5],
        }
    }
}

/// A parameter of a method; sequence 0 is the method's result.
#[derive(Clone, Copy, Debug)]
pub struct ParamRow {
    pub flags: u32,
    pub sequence: u32,
    pub name: StringIndex,
}

impl TableRow for ParamRow {
    ghost use Rattle.cli_metadata.specs.declared.tables.Table.TheVariants.{Param};
    ghost use Rattle.cli_tables.specs.Members.{param_of};

    ghost of_cells = { param_of };

    ghost TABLE = { Param };

    const TABLE: Table = Table::Param;

    fn of(cells: &[u32; MOST_COLUMNS]) -> Self {
        ParamRow {
            flags: cells[0],
            sequence: cells[1],
            name: cells[2],
        }
    }
}

/// A field or method of another module or assembly, or of an array.
#[derive(Clone, Copy, Debug)]
pub struct MemberRefRow {
    pub class: CodedIndex,
    pub name: StringIndex,
    pub signature: BlobIndex,
}

impl TableRow for MemberRefRow {
    ghost use Rattle.cli_metadata.specs.declared.tables.Table.TheVariants.{MemberRef};
    ghost use Rattle.cli_tables.specs.Members.{member_ref_of};

    ghost of_cells = { member_ref_of };

    ghost TABLE = { MemberRef };

    const TABLE: Table = Table::MemberRef;

    fn of(cells: &[u32; MOST_COLUMNS]) -> Self {
        MemberRefRow {
            class: CodedIndex {
                kind: Coded::MemberRefParent,
                cell: cells[0],
            },
            name: cells[1],
            signature: cells[2],
        }
    }
}

/// The value of a field, parameter or property. Its element type says how the blob is read.
#[derive(Clone, Copy, Debug)]
pub struct ConstantRow {
    pub element: u32,
    pub parent: CodedIndex,
    pub value: BlobIndex,
}

impl TableRow for ConstantRow {
    ghost use Rattle.cli_metadata.specs.declared.tables.Table.TheVariants.{Constant};
    ghost use Rattle.cli_tables.specs.Members.{constant_of};

    ghost of_cells = { constant_of };

    ghost TABLE = { Constant };

    const TABLE: Table = Table::Constant;

    fn of(cells: &[u32; MOST_COLUMNS]) -> Self {
        ConstantRow {
            element: cells[0],
            parent: CodedIndex {
                kind: Coded::HasConstant,
                cell: cells[2],
            },
            value: cells[3],
        }
    }
}

/// A signature by itself, as that of a method's locals.
#[derive(Clone, Copy, Debug)]
pub struct StandAloneSigRow {
    pub signature: BlobIndex,
}

impl TableRow for StandAloneSigRow {
    ghost use Rattle.cli_metadata.specs.declared.tables.Table.TheVariants.{StandAloneSig};
    ghost use Rattle.cli_tables.specs.Members.{stand_alone_sig_of};

    ghost of_cells = { stand_alone_sig_of };

    ghost TABLE = { StandAloneSig };

    const TABLE: Table = Table::StandAloneSig;

    fn of(cells: &[u32; MOST_COLUMNS]) -> Self {
        StandAloneSigRow {
            signature: cells[0],
        }
    }
}

/// A method of a type, which is a row of TypeDef, that stands for a declaration of another.
#[derive(Clone, Copy, Debug)]
pub struct MethodImplRow {
    pub class: RowNumber,
    pub body: CodedIndex,
    pub declaration: CodedIndex,
}

impl TableRow for MethodImplRow {
    ghost use Rattle.cli_metadata.specs.declared.tables.Table.TheVariants.{MethodImpl};
    ghost use Rattle.cli_tables.specs.Members.{method_impl_of};

    ghost of_cells = { method_impl_of };

    ghost TABLE = { MethodImpl };

    const TABLE: Table = Table::MethodImpl;

    fn of(cells: &[u32; MOST_COLUMNS]) -> Self {
        MethodImplRow {
            class: cells[0],
            body: CodedIndex {
                kind: Coded::MethodDefOrRef,
                cell: cells[1],
            },
            declaration: CodedIndex {
                kind: Coded::MethodDefOrRef,
                cell: cells[2],
            },
        }
    }
}
