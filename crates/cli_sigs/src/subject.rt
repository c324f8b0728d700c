// What is asked for signatures.

ghost use Rattle.std.specs.Prelude.{◌≡◌, ◌-◌, ◌≤◌, ◌<◌, ◌^◌, false, cond, IfOk, slice_index_or};
ghost use Rattle.cli_metadata.specs.Metadata.{rows_of};
ghost use Rattle.cli_sigs.specs.declared.form.Form.TheVariants as forms;
ghost use Rattle.cli_sigs.specs.Forms.{IsThe};
ghost use Rattle.cli_sigs.specs.Rows.{table_of, place_of, form_of, is_reached};
ghost use Rattle.cli_sigs.specs.First.{Fails};

use crate::SigCause;
use crate::blob::cause_at;
use crate::form::Form;
use crate::table::SigTable;
use cli_metadata::Metadata;
use cli_named::Numbers;
use cli_tables::{
    FieldRow, MemberRefRow, MethodDefRow, PropertyRow, StandAloneSigRow, TypeSpecRow,
};
use dc_base::NoMemory;
use std::alloc::Global;
use std::marker::Model;

// Metadata with the numbers of its rows, which of them are reached, and which rows of MethodDef and of MemberRef, from row 1 on,
// are constructors of delegates.
#[derive(Drop)]
pub(crate) struct Signatures<'a> {
    pub(crate) metadata: &'a Metadata<'a>,
    pub(crate) numbers: Numbers,
    pub(crate) reached: &'a [bool],
    pub(crate) constructors: &'a [bool],
    pub(crate) named_constructors: &'a [bool],
}

impl<'a> Model for Signatures<'a> {
    ghost use Rattle.std.specs.Prelude.{◌≡◌};
    ghost use Rattle.cli_named.specs.Numbers.{numbers_of};
    ghost use Rattle.cli_sigs.specs.Rows.{Subject};

    ghost Value = { Subject };

    ghost view = { λ s. record {
      metadata = s.metadata.now;
      reached = s.reached.now;
      constructors = s.constructors.now;
      named_constructors = s.named_constructors.now;
    } };

    ghost invariant = { λ s. s.numbers ≡ numbers_of s.metadata.now };
}

impl<'a> Signatures<'a> {
    pub(crate) fn rows(&self, table: SigTable) -> u32
        ensures { result ≡ rows_of self.now.metadata (table_of table) }
    {
        self.metadata.rows(table.table())
    }

    // Why row r has no signature, where it is asked for one and has none.
    pub(crate) fn cause(
        &self,
        alloc: Global,
        table: SigTable,
        r: u32,
    ) -> Result<Option<SigCause>, NoMemory>
        requires low { 1 ≤ r }
        requires high { r ≤ rows_of self.now.metadata (table_of table) }
        requires fits { r < 2 ^ 24 }
        ensures { IfOk result (IsThe (Fails self.now table r)) }
    {
        match self.form(table, r) {
            Some(form) => cause_at(alloc, self.metadata, form, self.place(table, r)),
            None => Ok(None),
        }
    }

    fn place(&self, table: SigTable, r: u32) -> u32
        requires low { 1 ≤ r }
        requires high { r ≤ rows_of self.now.metadata (table_of table) }
        ensures { result ≡ place_of self.now.metadata table r }
    {
        let metadata = self.metadata;
        match table {
            SigTable::Field => metadata.row::<FieldRow>(r).signature,
            SigTable::MethodDef => metadata.row::<MethodDefRow>(r).signature,
            SigTable::MemberRef => metadata.row::<MemberRefRow>(r).signature,
            SigTable::StandAloneSig => metadata.row::<StandAloneSigRow>(r).signature,
            SigTable::Property => metadata.row::<PropertyRow>(r).signature,
            SigTable::TypeSpec => metadata.row::<TypeSpecRow>(r).signature,
        }
    }

    fn form(&self, table: SigTable, r: u32) -> Option<Form>
        requires low { 1 ≤ r }
        requires fits { r < 2 ^ 24 }
        ensures { result ≡ form_of self.now table r }
    {
        match table {
            SigTable::Field => Some(Form::Field),
            SigTable::MethodDef => Some(self.method_form(r)),
            SigTable::MemberRef if self.is_reached(table, r) => Some(self.member_form(r)),
            SigTable::StandAloneSig if self.is_reached(table, r) => Some(Form::Locals),
            SigTable::Property => Some(Form::Property),
            SigTable::TypeSpec if self.is_reached(table, r) => Some(Form::Type_),
            _ => None,
        }
    }

    fn method_form(&self, r: u32) -> Form
        requires { 1 ≤ r }
        ensures { result ≡ cond (slice_index_or self.now.constructors (r - 1) false) forms.Constructor forms.Method }
    {
        if is_marked(self.constructors, r as usize - 1) {
            Form::Constructor
        } else {
            Form::Method
        }
    }

    fn member_form(&self, r: u32) -> Form
        requires { 1 ≤ r }
        ensures { result ≡ cond (slice_index_or self.now.named_constructors (r - 1) false) forms.NamedConstructor forms.Member }
    {
        if is_marked(self.named_constructors, r as usize - 1) {
            Form::NamedConstructor
        } else {
            Form::Member
        }
    }

    fn is_reached(&self, table: SigTable, r: u32) -> bool
        requires { r < 2 ^ 24 }
        ensures { result ≡ is_reached self.now table r }
    {
        match self.numbers.number(table.token(r)) {
            Some(k) => is_marked(self.reached, k as usize),
            None => false,
        }
    }
}

// A mark, which past the end isn't set.
fn is_marked(marks: &[bool], k: usize) -> bool
    ensures { result ≡ slice_index_or marks.now k false }
{
    k < marks.len() && marks[k]
}
