// The cells of rows.

ghost use Rattle.std.specs.Prelude.{◌≡◌, ◌≤◌, ◌<◌, ◌-◌, IfNone};
ghost use Rattle.cli_metadata.specs.Metadata.{rows_of, row_of};
ghost use Rattle.cli_metadata.specs.declared.tables.Table.TheVariants as tables;
ghost use Rattle.cli_tables.specs.Types.{type_def_of};
ghost use Rattle.cli_tables.specs.Members.{method_def_of};
ghost use Rattle.cli_tables.specs.Properties.{property_map_of};
ghost use Rattle.cli_cells.specs.declared.table.CellTable.TheVariants as asked;
ghost use Rattle.cli_cells.specs.declared.cell.Cell.TheVariants.{List as ListCell};
ghost use Rattle.cli_cells.specs.Cells.{IsFirstFault};
ghost use Rattle.cli_cells.specs.Rows.{table_of, cells_at, started};

use crate::cell::{Cell, first_fault};
use crate::table::CellTable;
use cli_metadata::{MetaFault, Metadata, Table};
use cli_tables::{
    AssemblyRow, ConstantRow, FieldRow, InterfaceImplRow, MemberRefRow, MethodDefRow,
    MethodImplRow, MethodSemanticsRow, NestedClassRow, ParamRow, PropertyMapRow, PropertyRow,
    StandAloneSigRow, TypeDefRow, TypeRefRow, TypeSpecRow,
};

// Why the first cell of row r that says nothing doesn't.
pub(crate) fn row_fault(metadata: &Metadata, table: CellTable, r: u32) -> Option<MetaFault>
    requires low { 1 ≤ r }
    requires high { r ≤ rows_of metadata.now (table_of table) }
    ensures { IsFirstFault metadata.now (cells_at metadata.now table r) result }
{
    match table {
        CellTable::TypeRef => type_ref_fault(metadata, r),
        CellTable::TypeDef => type_def_fault(metadata, r),
        CellTable::Field => field_fault(metadata, r),
        CellTable::MethodDef => method_def_fault(metadata, r),
        CellTable::Param => param_fault(metadata, r),
        CellTable::InterfaceImpl => interface_impl_fault(metadata, r),
        CellTable::MemberRef => member_ref_fault(metadata, r),
        CellTable::Constant => constant_fault(metadata, r),
        CellTable::StandAloneSig => stand_alone_sig_fault(metadata, r),
        CellTable::PropertyMap => property_map_fault(metadata, r),
        CellTable::Property => property_fault(metadata, r),
        CellTable::MethodSemantics => method_semantics_fault(metadata, r),
        CellTable::MethodImpl => method_impl_fault(metadata, r),
        CellTable::TypeSpec => type_spec_fault(metadata, r),
        CellTable::Assembly => assembly_fault(metadata, r),
        CellTable::NestedClass => nested_class_fault(metadata, r),
    }
}

fn type_ref_fault(metadata: &Metadata, r: u32) -> Option<MetaFault>
    requires low { 1 ≤ r }
    requires high { r ≤ rows_of metadata.now (table_of asked.TypeRef) }
    ensures { IsFirstFault metadata.now (cells_at metadata.now asked.TypeRef r) result }
{
    let row: TypeRefRow = metadata.row(r);
    first_fault(
        metadata,
        &[
            Cell::Coded(row.scope),
            Cell::Text(row.name),
            Cell::Text(row.namespace),
        ],
    )
}

fn field_fault(metadata: &Metadata, r: u32) -> Option<MetaFault>
    requires low { 1 ≤ r }
    requires high { r ≤ rows_of metadata.now (table_of asked.Field) }
    ensures { IsFirstFault metadata.now (cells_at metadata.now asked.Field r) result }
{
    let row: FieldRow = metadata.row(r);
    first_fault(metadata, &[Cell::Text(row.name), Cell::Blob(row.signature)])
}

fn param_fault(metadata: &Metadata, r: u32) -> Option<MetaFault>
    requires low { 1 ≤ r }
    requires high { r ≤ rows_of metadata.now (table_of asked.Param) }
    ensures { IsFirstFault metadata.now (cells_at metadata.now asked.Param r) result }
{
    let row: ParamRow = metadata.row(r);
    first_fault(metadata, &[Cell::Text(row.name)])
}

fn interface_impl_fault(metadata: &Metadata, r: u32) -> Option<MetaFault>
    requires low { 1 ≤ r }
    requires high { r ≤ rows_of metadata.now (table_of asked.InterfaceImpl) }
    ensures { IsFirstFault metadata.now (cells_at metadata.now asked.InterfaceImpl r) result }
{
    let row: InterfaceImplRow = metadata.row(r);
    first_fault(
        metadata,
        &[
            Cell::Row(Table::TypeDef, row.class),
            Cell::Coded(row.interface),
        ],
    )
}

fn member_ref_fault(metadata: &Metadata, r: u32) -> Option<MetaFault>
    requires low { 1 ≤ r }
    requires high { r ≤ rows_of metadata.now (table_of asked.MemberRef) }
    ensures { IsFirstFault metadata.now (cells_at metadata.now asked.MemberRef r) result }
{
    let row: MemberRefRow = metadata.row(r);
    first_fault(
        metadata,
        &[
            Cell::Coded(row.class),
            Cell::Text(row.name),
            Cell::Blob(row.signature),
        ],
    )
}

fn stand_alone_sig_fault(metadata: &Metadata, r: u32) -> Option<MetaFault>
    requires low { 1 ≤ r }
    requires high { r ≤ rows_of metadata.now (table_of asked.StandAloneSig) }
    ensures { IsFirstFault metadata.now (cells_at metadata.now asked.StandAloneSig r) result }
{
    let row: StandAloneSigRow = metadata.row(r);
    first_fault(metadata, &[Cell::Blob(row.signature)])
}

fn property_fault(metadata: &Metadata, r: u32) -> Option<MetaFault>
    requires low { 1 ≤ r }
    requires high { r ≤ rows_of metadata.now (table_of asked.Property) }
    ensures { IsFirstFault metadata.now (cells_at metadata.now asked.Property r) result }
{
    let row: PropertyRow = metadata.row(r);
    first_fault(metadata, &[Cell::Text(row.name), Cell::Blob(row.signature)])
}

fn method_semantics_fault(metadata: &Metadata, r: u32) -> Option<MetaFault>
    requires low { 1 ≤ r }
    requires high { r ≤ rows_of metadata.now (table_of asked.MethodSemantics) }
    ensures { IsFirstFault metadata.now (cells_at metadata.now asked.MethodSemantics r) result }
{
    let row: MethodSemanticsRow = metadata.row(r);
    first_fault(
        metadata,
        &[
            Cell::Row(Table::MethodDef, row.method),
            Cell::Coded(row.association),
        ],
    )
}

fn method_impl_fault(metadata: &Metadata, r: u32) -> Option<MetaFault>
    requires low { 1 ≤ r }
    requires high { r ≤ rows_of metadata.now (table_of asked.MethodImpl) }
    ensures { IsFirstFault metadata.now (cells_at metadata.now asked.MethodImpl r) result }
{
    let row: MethodImplRow = metadata.row(r);
    first_fault(
        metadata,
        &[
            Cell::Row(Table::TypeDef, row.class),
            Cell::Coded(row.body),
            Cell::Coded(row.declaration),
        ],
    )
}

fn type_spec_fault(metadata: &Metadata, r: u32) -> Option<MetaFault>
    requires low { 1 ≤ r }
    requires high { r ≤ rows_of metadata.now (table_of asked.TypeSpec) }
    ensures { IsFirstFault metadata.now (cells_at metadata.now asked.TypeSpec r) result }
{
    let row: TypeSpecRow = metadata.row(r);
    first_fault(metadata, &[Cell::Blob(row.signature)])
}

fn assembly_fault(metadata: &Metadata, r: u32) -> Option<MetaFault>
    requires low { 1 ≤ r }
    requires high { r ≤ rows_of metadata.now (table_of asked.Assembly) }
    ensures { IsFirstFault metadata.now (cells_at metadata.now asked.Assembly r) result }
{
    let row: AssemblyRow = metadata.row(r);
    first_fault(metadata, &[Cell::Text(row.name)])
}

fn nested_class_fault(metadata: &Metadata, r: u32) -> Option<MetaFault>
    requires low { 1 ≤ r }
    requires high { r ≤ rows_of metadata.now (table_of asked.NestedClass) }
    ensures { IsFirstFault metadata.now (cells_at metadata.now asked.NestedClass r) result }
{
    let row: NestedClassRow = metadata.row(r);
    first_fault(
        metadata,
        &[
            Cell::Row(Table::TypeDef, row.nested),
            Cell::Row(Table::TypeDef, row.enclosing),
        ],
    )
}

// Only constants of fields are asked.
fn constant_fault(metadata: &Metadata, r: u32) -> Option<MetaFault>
    requires low { 1 ≤ r }
    requires high { r ≤ rows_of metadata.now (table_of asked.Constant) }
    ensures { IsFirstFault metadata.now (cells_at metadata.now asked.Constant r) result }
{
    let row: ConstantRow = metadata.row(r);
    if row.parent.cell % 4 != 0 {
        return None;
    }
    first_fault(metadata, &[Cell::Coded(row.parent), Cell::Blob(row.value)])
}

// Where the list of row r begins in a table of so many rows.
fn list_cell(before: u32, start: u32, rows: u32) -> Cell
    ensures { result ≡ ListCell before start rows }
{
    Cell::List {
        before,
        start,
        rows,
    }
}

// The start of the list of the row before row r, or 0.
fn fields_before(metadata: &Metadata, r: u32) -> u32
    requires low { 1 ≤ r }
    requires high { r ≤ rows_of metadata.now (table_of asked.TypeDef) }
    ensures { result ≡ started (λ n. (type_def_of (row_of metadata.now tables.TypeDef n)).fields) r }
{
    if r == 1 {
        return 0;
    }
    metadata.row::<TypeDefRow>(r - 1).fields
}

fn methods_before(metadata: &Metadata, r: u32) -> u32
    requires low { 1 ≤ r }
    requires high { r ≤ rows_of metadata.now (table_of asked.TypeDef) }
    ensures { result ≡ started (λ n. (type_def_of (row_of metadata.now tables.TypeDef n)).methods) r }
{
    if r == 1 {
        return 0;
    }
    metadata.row::<TypeDefRow>(r - 1).methods
}

fn params_before(metadata: &Metadata, r: u32) -> u32
    requires low { 1 ≤ r }
    requires high { r ≤ rows_of metadata.now (table_of asked.MethodDef) }
    ensures { result ≡ started (λ n. (method_def_of (row_of metadata.now tables.MethodDef n)).params) r }
{
    if r == 1 {
        return 0;
    }
    metadata.row::<MethodDefRow>(r - 1).params
}

fn properties_before(metadata: &Metadata, r: u32) -> u32
    requires low { 1 ≤ r }
    requires high { r ≤ rows_of metadata.now (table_of asked.PropertyMap) }
    ensures { result ≡ started (λ n. (property_map_of (row_of metadata.now tables.PropertyMap n)).properties) r }
{
    if r == 1 {
        return 0;
    }
    metadata.row::<PropertyMapRow>(r - 1).properties
}

fn type_def_fault(metadata: &Metadata, r: u32) -> Option<MetaFault>
    requires low { 1 ≤ r }
    requires high { r ≤ rows_of metadata.now (table_of asked.TypeDef) }
    ensures { IsFirstFault metadata.now (cells_at metadata.now asked.TypeDef r) result }
{
    let row: TypeDefRow = metadata.row(r);
    first_fault(
        metadata,
        &[
            Cell::Text(row.name),
            Cell::Text(row.namespace),
            Cell::Coded(row.extends),
            list_cell(
                fields_before(metadata, r),
                row.fields,
                metadata.rows(Table::Field),
            ),
            list_cell(
                methods_before(metadata, r),
                row.methods,
                metadata.rows(Table::MethodDef),
            ),
        ],
    )
}

fn method_def_fault(metadata: &Metadata, r: u32) -> Option<MetaFault>
    requires low { 1 ≤ r }
    requires high { r ≤ rows_of metadata.now (table_of asked.MethodDef) }
    ensures { IsFirstFault metadata.now (cells_at metadata.now asked.MethodDef r) result }
{
    let row: MethodDefRow = metadata.row(r);
    first_fault(
        metadata,
        &[
            Cell::Text(row.name),
            Cell::Blob(row.signature),
            list_cell(
                params_before(metadata, r),
                row.params,
                metadata.rows(Table::Param),
            ),
        ],
    )
}

fn property_map_fault(metadata: &Metadata, r: u32) -> Option<MetaFault>
    requires low { 1 ≤ r }
    requires high { r ≤ rows_of metadata.now (table_of asked.PropertyMap) }
    ensures { IsFirstFault metadata.now (cells_at metadata.now asked.PropertyMap r) result }
{
    let row: PropertyMapRow = metadata.row(r);
    first_fault(
        metadata,
        &[
            Cell::Row(Table::TypeDef, row.parent),
            list_cell(
                properties_before(metadata, r),
                row.properties,
                metadata.rows(Table::Property),
            ),
        ],
    )
}
