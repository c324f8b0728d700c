// A reference text as the class table that it declares.

ghost use Rattle.std.specs.Prelude.{◌≤◌, ◌<◌, ◌^◌, length, IfOk, IfErr, IsTrue};
ghost use Rattle.std.specs.Str.{chars};
ghost use Rattle.dc_causes.specs.Answer.{ReadBy, OnFault};
ghost use Rattle.dc_causes.specs.Step.{Told};
ghost use Rattle.class_references.specs.declared.fault.RefFault.TheVariants as told_as;
ghost use Rattle.class_table.specs.Buildable.{IsBuildable};
ghost use Rattle.class_references.specs.References.{IsReadAs, IsReference};
ghost use Rattle.class_references.specs.TextRows.{AreRowsIn};

use crate::RefFault;
use class_table::{ClassTable, build};
use class_texts::{Rows, rows_of};
use cs_read_texts::reference_of_text;
use cs_tree::Unit;
use dc_base::Or;
use std::alloc::Global;

/// How many pairs of brackets a type may have.
const BRACKETS: u16 = 33;

/// How many types may be open in one another within a type.
const NESTING: u16 = 200;

fn read_of(alloc: Global, source: &str) -> Result<Unit, Or<RefFault>>
    requires { length source.now ≤ 2 ^ 31 }
    ensures tree { IfOk result (ReadBy (Told told_as.Read (IsReadAs (chars source.now)))) }
    ensures fault { IfErr result (OnFault (Told told_as.Read (IsReadAs (chars source.now)))) }
{
    match reference_of_text(alloc, source, BRACKETS, NESTING) {
        Ok(unit) => Ok(unit),
        Err(Or::NoMemory) => Err(Or::NoMemory),
        Err(Or::Fault(fault)) => Err(Or::Fault(RefFault::Read(fault))),
    }
}

// Whether there are numbers for so many types, members and pairs.
fn are_few(types: usize, members: usize, explicit: usize) -> bool
    ensures types { IsTrue result → types < 2 ^ 32 }
    ensures members { IsTrue result → members < 2 ^ 32 }
    ensures explicit { IsTrue result → explicit < 2 ^ 32 }
{
    types < 0x1_0000_0000 && members < 0x1_0000_0000 && explicit < 0x1_0000_0000
}

// The rows that a text declares, of which a table may be built. The tree is let go here. No memory holds more rows than there are numbers.
fn declared(alloc: Global, source: &str) -> Result<Rows, Or<RefFault>>
    requires { length source.now ≤ 2 ^ 31 }
    ensures rows { IfOk result (λ rows. AreRowsIn (chars source.now) rows.types.items rows.members.items rows.explicit.items) }
    ensures buildable { IfOk result (λ rows. IsBuildable rows.types.items rows.members.items rows.explicit.items) }
    ensures fault { IfErr result (OnFault (Told told_as.Read (IsReadAs (chars source.now)))) }
{
    let unit = read_of(alloc, source)?;
    let rows = rows_of(alloc, &unit)?;
    if !are_few(rows.types.len(), rows.members.len(), rows.explicit.len()) {
        return Err(Or::NoMemory);
    }
    Ok(rows)
}

/// The class table of the types and members that a reference text declares. The text has at most 2^31 bytes, types have at most 33
/// pairs of brackets, and at most 200 types are open in one another within a type.
pub fn references(alloc: Global, source: &str) -> Result<ClassTable, Or<RefFault>>
    requires { length source.now ≤ 2 ^ 31 }
    ensures table { IfOk result (ReadBy (IsReference (chars source.now))) }
    ensures fault { IfErr result (OnFault (IsReference (chars source.now))) }
{
    let Rows {
        types,
        members,
        explicit,
    } = declared(alloc, source)?;
    match build(alloc, types, members, explicit) {
        Ok(table) => Ok(table),
        Err(Or::NoMemory) => Err(Or::NoMemory),
        Err(Or::Fault(fault)) => Err(Or::Fault(RefFault::Types(fault))),
    }
}
