// What the conditions are asked of.

ghost use Rattle.std.specs.Prelude.{◌≡◌, ◌≤◌, ◌+◌, ◌<◌};
ghost use Rattle.std.specs.Bool.{OnTrue, OnFalse};
ghost use Rattle.cli_metadata.specs.declared.tables.Table.TheVariants as tables;
ghost use Rattle.cli_metadata.specs.Metadata.{rows_of};
ghost use Rattle.cli_lists.specs.Starts.{IsInList};
ghost use Rattle.cli_lists.specs.Lists.{IsListColumn};
ghost use Rattle.cli_profile.specs.Methods.{AreForeign, IsRow, IsOfDelegate, IsForeign};
ghost use Rattle.cli_profile.specs.Rows.{IsOtherSpec, IsArray, IsReached, IsModuleMember};

use crate::delegates::is_delegate;
use cli_lists::{ListColumn, Lists, stretches_one_behind_the_other};
use cli_metadata::{Metadata, Table};
use cli_tables::{MethodDefRow, TypeSpecRow};
use dc_base::one_number_begins;
use std::marker::Model;

// Metadata with its list columns, and of each row of TypeSpec, from row 1 on, whether it is reached.
#[derive(Drop)]
pub(crate) struct Rows<'a> {
    pub(crate) metadata: &'a Metadata<'a>,
    pub(crate) lists: &'a Lists,
    pub(crate) reached: &'a [bool],
}

impl<'a> Model for Rows<'a> {
    ghost use Rattle.cli_profile.specs.Rows.{Subject};
    ghost use Rattle.cli_profile.specs.Judged.{IsSound};

    ghost Value = { Subject };

    ghost view = { λ r. record { metadata = r.metadata.now; reached = r.reached.now } };

    ghost invariant = { λ r. IsSound r.metadata.now r.lists.now };
}

impl<'a> Rows<'a> {
    pub(crate) fn of_table(&self, table: Table) -> u32
        ensures { result ≡ rows_of self.now.metadata table }
    {
        self.metadata.rows(table)
    }

    // Whether row k + 1 of Field stands outside of types.
    pub(crate) fn is_module_field(&self, k: usize) -> bool
        requires { k < rows_of self.now.metadata tables.Field }
        ensures yes { OnTrue result (IsModuleMember self.now tables.Field (k + 1)) }
        ensures no { OnFalse result (IsModuleMember self.now tables.Field (k + 1) → ⊥) }
    {
        let fields = &self.lists.fields;
        in_first_list(fields, k as u32 + 1)
    }

    // Whether row k + 1 of MethodDef stands outside of types.
    pub(crate) fn is_module_method(&self, k: usize) -> bool
        requires { k < rows_of self.now.metadata tables.MethodDef }
        ensures yes { OnTrue result (IsModuleMember self.now tables.MethodDef (k + 1)) }
        ensures no { OnFalse result (IsModuleMember self.now tables.MethodDef (k + 1) → ⊥) }
    {
        let methods = &self.lists.methods;
        in_first_list(methods, k as u32 + 1)
    }

    // Whether row k + 1 of MethodDef is a method that isn't plain IL, and none of a delegate.
    pub(crate) fn is_foreign(&self, k: usize) -> bool
        requires { k < rows_of self.now.metadata tables.MethodDef }
        ensures yes { OnTrue result (IsForeign self.now.metadata (k + 1)) }
        ensures no { OnFalse result (IsForeign self.now.metadata (k + 1) → ⊥) }
    {
        let metadata = self.metadata;
        let n = k as u32 + 1;
        are_foreign(metadata.row::<MethodDefRow>(n).impl_flags) && !self.is_of_delegate(n)
    }

    // Whether a row of MethodDef is a method of a delegate.
    fn is_of_delegate(&self, n: u32) -> bool
        ensures yes { OnTrue result (IsOfDelegate self.now.metadata n) }
        ensures no { OnFalse result (IsOfDelegate self.now.metadata n → ⊥) }
    {
        stretches_one_behind_the_other();
        match self.lists.methods.owner(n) {
            Some(owner) => is_delegate(self.metadata, owner),
            None => false,
        }
    }

    // Whether row k + 1 of TypeSpec is reached and no array.
    pub(crate) fn is_other_spec(&self, k: usize) -> bool
        requires { k < rows_of self.now.metadata tables.TypeSpec }
        ensures yes { OnTrue result (IsOtherSpec self.now (k + 1)) }
        ensures no { OnFalse result (IsOtherSpec self.now (k + 1) → ⊥) }
    {
        let metadata = self.metadata;
        self.is_reached(k) && !is_array(metadata, k as u32 + 1)
    }

    fn is_reached(&self, k: usize) -> bool
        ensures yes { OnTrue result (IsReached self.now (k + 1)) }
        ensures no { OnFalse result (IsReached self.now (k + 1) → ⊥) }
    {
        match self.reached.get(k) {
            Some(reached) => *reached,
            None => false,
        }
    }
}

// Whether a row stands in the first list of a column, where there is one.
fn in_first_list(column: &ListColumn, n: u32) -> bool
    requires { IsListColumn column.now }
    ensures yes { OnTrue result (IsInList column.now.rows column.now.cells 1 n) }
    ensures no { OnFalse result (IsInList column.now.rows column.now.cells 1 n → ⊥) }
{
    if column.cells.is_empty() {
        return false;
    }
    let list = column.list(1);
    list.start <= n && n < list.end
}

// What the runtime makes, forwards or locks (ECMA-335 II.23.1.11).
const CODE_TYPE: u32 = 0x0003;

const UNMANAGED: u32 = 0x0004;

const FORWARD_REF: u32 = 0x0010;

const SYNCHRONIZED: u32 = 0x0020;

const INTERNAL_CALL: u32 = 0x1000;

fn are_foreign(impl_flags: u32) -> bool
    ensures yes { OnTrue result (AreForeign impl_flags) }
    ensures no { OnFalse result (AreForeign impl_flags → ⊥) }
{
    impl_flags & CODE_TYPE != 0
        || impl_flags & UNMANAGED != 0
        || impl_flags & FORWARD_REF != 0
        || impl_flags & SYNCHRONIZED != 0
        || impl_flags & INTERNAL_CALL != 0
}

// The element that an array's signature begins with (ECMA-335 II.23.1.16).
const SZARRAY: u8 = 0x1D;

// Whether a row of TypeSpec is that of an array.
fn is_array(metadata: &Metadata, n: u32) -> bool
    requires { IsRow metadata.now tables.TypeSpec n }
    ensures yes { OnTrue result (IsArray metadata.now n) }
    ensures no { OnFalse result (IsArray metadata.now n → ⊥) }
{
    one_number_begins();
    match metadata.blob(metadata.row::<TypeSpecRow>(n).signature) {
        Ok([first, ..]) => *first == SZARRAY,
        Ok(_) => false,
        Err(_) => false,
    }
}
