// The four list columns.

ghost use Rattle.std.specs.Prelude.{◌≡◌, ◌^◌, IfOk, IfErr, nat_lt};
ghost use Rattle.std.specs.Bool.{OnTrue, OnFalse};
ghost use Rattle.cli_metadata.specs.declared.tables.Table.TheVariants as tables;
ghost use Rattle.cli_metadata.specs.Metadata.{rows_of};
ghost use Rattle.cli_tables.specs.Types.{type_def_of};
ghost use Rattle.cli_tables.specs.Members.{method_def_of};
ghost use Rattle.cli_tables.specs.Properties.{property_map_of};
ghost use Rattle.dc_causes.specs.Answer.{OnFault};
ghost use Rattle.cli_lists.specs.Lists.{FewRows, HaveEachRow, cells_in, lists_of, AreLists, EachBeginsLists};

use crate::{ListColumn, Owner};
use cli_metadata::{Metadata, Table};
use cli_tables::{MethodDefRow, PropertyMapRow, TypeDefRow};
use dc_base::{NoMemory, Or, Seq, Token};
use dc_causes::first_broken;
use std::alloc::Global;

/// The list columns: of TypeDef the fields and methods, of MethodDef the params, of PropertyMap the properties.
#[derive(Debug, Drop)]
pub struct Lists {
    pub fields: ListColumn,
    pub methods: ListColumn,
    pub params: ListColumn,
    pub properties: ListColumn,
}

impl Lists {
    /// The list columns of metadata. A fault is the least token of a row with a cell that is 0, or lower than the one of
    /// the row before, or that passes the table by more than one. It takes the time of one look at each row.
    pub fn of(alloc: Global, metadata: &Metadata) -> Result<Lists, Or<Token>>
        requires few { FewRows metadata.now }
        ensures columns { IfOk result (λ lists. lists ≡ lists_of metadata.now) }
        ensures each_row { IfOk result (HaveEachRow metadata.now) }
        ensures lists { IfOk result AreLists }
        ensures fault { IfErr result (OnFault (EachBeginsLists (lists_of metadata.now))) }
    {
        let lists = Lists::read(alloc, metadata)?;
        match first_broken(&Owner::ALL, &lists) {
            Some((owner, row)) => Err(Or::Fault(owner.token(row))),
            None => Ok(lists),
        }
    }

    // The columns as they stand.
    fn read(alloc: Global, metadata: &Metadata) -> Result<Lists, NoMemory>
        ensures { IfOk result (λ lists. lists ≡ lists_of metadata.now) }
    {
        Ok(Lists {
            fields: ListColumn {
                cells: Seq::of(field_cells(alloc, metadata)?),
                rows: metadata.rows(Table::Field),
            },
            methods: ListColumn {
                cells: Seq::of(method_cells(alloc, metadata)?),
                rows: metadata.rows(Table::MethodDef),
            },
            params: ListColumn {
                cells: Seq::of(param_cells(alloc, metadata)?),
                rows: metadata.rows(Table::Param),
            },
            properties: ListColumn {
                cells: Seq::of(property_cells(alloc, metadata)?),
                rows: metadata.rows(Table::Property),
            },
        })
    }
}

/// Whether three bytes hold each row's number of the tables with lists and of those whose rows they name.
pub fn rows_fit_tokens(metadata: &Metadata) -> bool
    ensures yes { OnTrue result (FewRows metadata.now) }
    ensures no { OnFalse result (FewRows metadata.now → ⊥) }
{
    fits(metadata, Table::TypeDef)
        && fits(metadata, Table::Field)
        && fits(metadata, Table::MethodDef)
        && fits(metadata, Table::Param)
        && fits(metadata, Table::PropertyMap)
        && fits(metadata, Table::Property)
}

fn fits(metadata: &Metadata, table: Table) -> bool
    ensures { result ≡ nat_lt (rows_of metadata.now table) (2 ^ 24) }
{
    metadata.rows(table) < 0x100_0000
}

fn field_cells(alloc: Global, metadata: &Metadata) -> Result<Vec<u32>, NoMemory>
    ensures { IfOk result (λ cells. cells.items ≡ cells_in metadata.now tables.TypeDef (λ row. (type_def_of row).fields)) }
{
    let mut cells = Vec::new(alloc);
    for k in 0..metadata.rows(Table::TypeDef) {
        cells.push(metadata.row::<TypeDefRow>(k + 1).fields)?;
    }
    Ok(cells)
}

fn method_cells(alloc: Global, metadata: &Metadata) -> Result<Vec<u32>, NoMemory>
    ensures { IfOk result (λ cells. cells.items ≡ cells_in metadata.now tables.TypeDef (λ row. (type_def_of row).methods)) }
{
    let mut cells = Vec::new(alloc);
    for k in 0..metadata.rows(Table::TypeDef) {
        cells.push(metadata.row::<TypeDefRow>(k + 1).methods)?;
    }
    Ok(cells)
}

fn param_cells(alloc: Global, metadata: &Metadata) -> Result<Vec<u32>, NoMemory>
    ensures { IfOk result (λ cells. cells.items ≡ cells_in metadata.now tables.MethodDef (λ row. (method_def_of row).params)) }
{
    let mut cells = Vec::new(alloc);
    for k in 0..metadata.rows(Table::MethodDef) {
        cells.push(metadata.row::<MethodDefRow>(k + 1).params)?;
    }
    Ok(cells)
}

fn property_cells(alloc: Global, metadata: &Metadata) -> Result<Vec<u32>, NoMemory>
    ensures { IfOk result (λ cells. cells.items ≡ cells_in metadata.now tables.PropertyMap (λ row. (property_map_of row).properties)) }
{
    let mut cells = Vec::new(alloc);
    for k in 0..metadata.rows(Table::PropertyMap) {
        cells.push(metadata.row::<PropertyMapRow>(k + 1).properties)?;
    }
    Ok(cells)
}
