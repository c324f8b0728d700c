//! Rows of metadata with a name for each column (ECMA-335 II.22).
//!
//! `Metadata::row` gives a row of any type here: `metadata.row::<TypeDefRow>(n).name` is where the type's name stands in
//! the heap of strings. A cell that names a row of one of several tables is a `CodedIndex`, whose `token` is that row.
//! Which column each field is stands in `specs/`, as do the modules here: a file a kind of thing.
#![tactic(auto)]

mod assemblies;
mod cells;
mod members;
mod properties;
mod types;

pub use assemblies::{AssemblyRefRow, AssemblyRow, ModuleRow};
pub use cells::{BlobIndex, GuidIndex, RowNumber, StringIndex};
pub use members::{
    ConstantRow, FieldRow, MemberRefRow, MethodDefRow, MethodImplRow, ParamRow, StandAloneSigRow,
};
pub use properties::{MethodSemanticsRow, PropertyMapRow, PropertyRow};
pub use types::{InterfaceImplRow, NestedClassRow, TypeDefRow, TypeRefRow, TypeSpecRow};

#[cfg(test)]
mod tests;
