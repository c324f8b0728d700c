// The tables of the standard with their columns.

ghost use Rattle.std.specs.Prelude.{◌≡◌, ◌<◌};
ghost use Rattle.cli_metadata.specs.Numbers.{number_of, table_numbers};

use crate::Coded;
use Coded::{
    CustomAttributeType, HasConstant, HasCustomAttribute, HasDeclSecurity, HasFieldMarshal,
    HasSemantics, Implementation, MemberForwarded, MemberRefParent, MethodDefOrRef,
    ResolutionScope, TypeDefOrRef, TypeOrMethodDef,
};
use Column::{Absent, Blob, Guid, Number1, Number2, Number4, Row, Strings};

/// The tables (ECMA-335 II.22).
#[derive(Clone, Copy, Debug, PartialEq, Eq)]
pub enum Table {
    Module,
    TypeRef,
    TypeDef,
    Field,
    MethodDef,
    Param,
    InterfaceImpl,
    MemberRef,
    Constant,
    CustomAttribute,
    FieldMarshal,
    DeclSecurity,
    ClassLayout,
    FieldLayout,
    StandAloneSig,
    EventMap,
    Event,
    PropertyMap,
    Property,
    MethodSemantics,
    MethodImpl,
    ModuleRef,
    TypeSpec,
    ImplMap,
    FieldRva,
    Assembly,
    AssemblyProcessor,
    AssemblyOs,
    AssemblyRef,
    AssemblyRefProcessor,
    AssemblyRefOs,
    File,
    ExportedType,
    ManifestResource,
    NestedClass,
    GenericParam,
    MethodSpec,
    GenericParamConstraint,
}

impl Table {
    /// The number of the table, which is the high byte of the tokens of its rows.
    pub fn number(self) -> u8
        ensures number { result ≡ number_of self }
        ensures low { result < table_numbers }
    {
        match self {
            Table::Module => 0x00,
            Table::TypeRef => 0x01,
            Table::TypeDef => 0x02,
            Table::Field => 0x04,
            Table::MethodDef => 0x06,
            Table::Param => 0x08,
            Table::InterfaceImpl => 0x09,
            Table::MemberRef => 0x0A,
            Table::Constant => 0x0B,
            Table::CustomAttribute => 0x0C,
            Table::FieldMarshal => 0x0D,
            Table::DeclSecurity => 0x0E,
            Table::ClassLayout => 0x0F,
            Table::FieldLayout => 0x10,
            Table::StandAloneSig => 0x11,
            Table::EventMap => 0x12,
            Table::Event => 0x14,
            Table::PropertyMap => 0x15,
            Table::Property => 0x17,
            Table::MethodSemantics => 0x18,
            Table::MethodImpl => 0x19,
            Table::ModuleRef => 0x1A,
            Table::TypeSpec => 0x1B,
            Table::ImplMap => 0x1C,
            Table::FieldRva => 0x1D,
            Table::Assembly => 0x20,
            Table::AssemblyProcessor => 0x21,
            Table::AssemblyOs => 0x22,
            Table::AssemblyRef => 0x23,
            Table::AssemblyRefProcessor => 0x24,
            Table::AssemblyRefOs => 0x25,
            Table::File => 0x26,
            Table::ExportedType => 0x27,
            Table::ManifestResource => 0x28,
            Table::NestedClass => 0x29,
            Table::GenericParam => 0x2A,
            Table::MethodSpec => 0x2B,
            Table::GenericParamConstraint => 0x2C,
        }
    }
}

/// How many numbers a table may have: each table's is below it.
pub const TABLE_NUMBERS: usize = 45;

/// The most columns that a table has.
pub const MOST_COLUMNS: usize = 9;

/// What a cell of a column is (ECMA-335 II.22): a number of as many bytes, a place in a heap, a row of one table, or a
/// row of one of several tables.
#[derive(Clone, Copy, Debug, PartialEq, Eq)]
pub enum Column {
    /// No column stands here.
    Absent,
    Number1,
    Number2,
    Number4,
    Strings,
    Guid,
    Blob,
    Row(Table),
    Coded(Coded),
}

// A table's columns, with none behind the last.
macro_rules! columns {
    () => { [Absent, Absent, Absent, Absent, Absent, Absent, Absent, Absent, Absent] };
    ($a:expr) => { [$a, Absent, Absent, Absent, Absent, Absent, Absent, Absent, Absent] };
    ($a:expr, $b:expr) => { [$a, $b, Absent, Absent, Absent, Absent, Absent, Absent, Absent] };
    ($a:expr, $b:expr, $c:expr) => { [$a, $b, $c, Absent, Absent, Absent, Absent, Absent, Absent] };
    ($a:expr, $b:expr, $c:expr, $d:expr) => { [$a, $b, $c, $d, Absent, Absent, Absent, Absent, Absent] };
    ($a:expr, $b:expr, $c:expr, $d:expr, $e:expr) => { [$a, $b, $c, $d, $e, Absent, Absent, Absent, Absent] };
    ($a:expr, $b:expr, $c:expr, $d:expr, $e:expr, $f:expr) => { [$a, $b, $c, $d, $e, $f, Absent, Absent, Absent] };
    ($a:expr, $b:expr, $c:expr, $d:expr, $e:expr, $f:expr, $g:expr, $h:expr, $i:expr) => { [$a, $b, $c, $d, $e, $f, $g, $h, $i] };
}

/// The columns of each table, by the table's number. A number that no table has has no column.
pub const TABLES: [[Column; MOST_COLUMNS]; TABLE_NUMBERS] = [
    // 00 Module
    columns![Number2, Strings, Guid, Guid, Guid],
    // 01 TypeRef
    columns![Column::Coded(ResolutionScope), Strings, Strings],
    // 02 TypeDef
    columns![
        Number4,
        Strings,
        Strings,
        Column::Coded(TypeDefOrRef),
        Row(Table::Field),
        Row(Table::MethodDef)
    ],
    // 03
    columns![],
    // 04 Field
    columns![Number2, Strings, Blob],
    // 05
    columns![],
    // 06 MethodDef
    columns![Number4, Number2, Number2, Strings, Blob, Row(Table::Param)],
    // 07
    columns![],
    // 08 Param
    columns![Number2, Number2, Strings],
    // 09 InterfaceImpl
    columns![Row(Table::TypeDef), Column::Coded(TypeDefOrRef)],
    // 0A MemberRef
    columns![Column::Coded(MemberRefParent), Strings, Blob],
    // 0B Constant
    columns![Number1, Number1, Column::Coded(HasConstant), Blob],
    // 0C CustomAttribute
    columns![
        Column::Coded(HasCustomAttribute),
        Column::Coded(CustomAttributeType),
        Blob
    ],
    // 0D FieldMarshal
    columns![Column::Coded(HasFieldMarshal), Blob],
    // 0E DeclSecurity
    columns![Number2, Column::Coded(HasDeclSecurity), Blob],
    // 0F ClassLayout
    columns![Number2, Number4, Row(Table::TypeDef)],
    // 10 FieldLayout
    columns![Number4, Row(Table::Field)],
    // 11 StandAloneSig
    columns![Blob],
    // 12 EventMap
    columns![Row(Table::TypeDef), Row(Table::Event)],
    // 13
    columns![],
    // 14 Event
    columns![Number2, Strings, Column::Coded(TypeDefOrRef)],
    // 15 PropertyMap
    columns![Row(Table::TypeDef), Row(Table::Property)],
    // 16
    columns![],
    // 17 Property
    columns![Number2, Strings, Blob],
    // 18 MethodSemantics
    columns![Number2, Row(Table::MethodDef), Column::Coded(HasSemantics)],
    // 19 MethodImpl
    columns![
        Row(Table::TypeDef),
        Column::Coded(MethodDefOrRef),
        Column::Coded(MethodDefOrRef)
    ],
    // 1A ModuleRef
    columns![Strings],
    // 1B TypeSpec
    columns![Blob],
    // 1C ImplMap
    columns![
        Number2,
        Column::Coded(MemberForwarded),
        Strings,
        Row(Table::ModuleRef)
    ],
    // 1D FieldRVA
    columns![Number4, Row(Table::Field)],
    // 1E
    columns![],
    // 1F
    columns![],
    // 20 Assembly
    columns![
        Number4, Number2, Number2, Number2, Number2, Number4, Blob, Strings, Strings
    ],
    // 21 AssemblyProcessor
    columns![Number4],
    // 22 AssemblyOS
    columns![Number4, Number4, Number4],
    // 23 AssemblyRef
    columns![
        Number2, Number2, Number2, Number2, Number4, Blob, Strings, Strings, Blob
    ],
    // 24 AssemblyRefProcessor
    columns![Number4, Row(Table::AssemblyRef)],
    // 25 AssemblyRefOS
    columns![Number4, Number4, Number4, Row(Table::AssemblyRef)],
    // 26 File
    columns![Number4, Strings, Blob],
    // 27 ExportedType
    columns![
        Number4,
        Number4,
        Strings,
        Strings,
        Column::Coded(Implementation)
    ],
    // 28 ManifestResource
    columns![Number4, Number4, Strings, Column::Coded(Implementation)],
    // 29 NestedClass
    columns![Row(Table::TypeDef), Row(Table::TypeDef)],
    // 2A GenericParam
    columns![Number2, Number2, Column::Coded(TypeOrMethodDef), Strings],
    // 2B MethodSpec
    columns![Column::Coded(MethodDefOrRef), Blob],
    // 2C GenericParamConstraint
    columns![Row(Table::GenericParam), Column::Coded(TypeDefOrRef)],
];
