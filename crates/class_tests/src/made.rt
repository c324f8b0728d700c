// Tables of rows that are written down in short.

use class_rows::{Access, Kind, MemberKind, MemberRow, TableFault, TypeRow, Virt};
use class_table::{ClassTable, build, is_buildable};
use dc_base::{Core, MemberId, NoMemory, Or, Seq, Text, Ty, TypeId};
use std::alloc::Global;

/// The types of System that each table has. The first is the base of the others up to the exceptions, which stand behind
/// the eighteenth and have the eighth for theirs.
const CORE: [&str; 24] = [
    "Object",
    "ValueType",
    "Enum",
    "Array",
    "String",
    "Delegate",
    "MulticastDelegate",
    "Exception",
    "Boolean",
    "Char",
    "SByte",
    "Byte",
    "Int16",
    "UInt16",
    "Int32",
    "UInt32",
    "Int64",
    "UInt64",
    "NullReferenceException",
    "InvalidCastException",
    "IndexOutOfRangeException",
    "ArrayTypeMismatchException",
    "OverflowException",
    "DivideByZeroException",
];

/// A type behind the core types: its name, kind, base, the interfaces that it names, and the type round it.
pub type Type<'a> = (&'a str, Kind, Option<u32>, &'a [u32], Option<u32>);

/// A method: its owner, name, access and slot.
pub type Method<'a> = (u32, &'a str, Access, Virt);

fn type_row(
    alloc: Global,
    name: &str,
    space: &str,
    kind: Kind,
    base: Option<u32>,
    named: &[u32],
    outer: Option<u32>,
) -> Result<TypeRow, NoMemory> {
    let mut bases = Vec::new(alloc);
    for interface in named {
        bases.push(TypeId(*interface))?;
    }
    Ok(TypeRow {
        name: Text::of(alloc, name)?,
        space: Text::of(alloc, space)?,
        outer: outer.map(TypeId),
        kind,
        access: Access::Public,
        base: base.map(TypeId),
        bases: Seq::of(bases),
        is_abstract: false,
        is_sealed: false,
        own: space.is_empty(),
    })
}

fn core_base(k: usize) -> Option<u32> {
    if k == 0 {
        None
    } else if k < 18 {
        Some(0)
    } else {
        Some(7)
    }
}

fn all_types(alloc: Global, types: &[Type<'_>]) -> Result<Vec<TypeRow>, NoMemory> {
    let mut rows = Vec::new(alloc);
    for k in 0..CORE.len() {
        rows.push(type_row(
            alloc,
            CORE[k],
            "System",
            Kind::Class,
            core_base(k),
            &[],
            None,
        )?)?;
    }
    for (name, kind, base, named, outer) in types {
        rows.push(type_row(alloc, name, "", *kind, *base, named, *outer)?)?;
    }
    Ok(rows)
}

fn all_members(alloc: Global, methods: &[Method<'_>]) -> Result<Vec<MemberRow>, NoMemory> {
    let mut rows = Vec::new(alloc);
    for (owner, name, access, virt) in methods {
        rows.push(MemberRow {
            owner: TypeId(*owner),
            name: Text::of(alloc, name)?,
            kind: MemberKind::Method,
            access: *access,
            is_static: false,
            virt: *virt,
            params: Seq::new(alloc),
            result: Ty {
                core: Core::Void,
                arrays: 0,
                lent: false,
            },
        })?;
    }
    Ok(rows)
}

/// The table of the core types, whose numbers are 0 to 23, and of these types behind them, with these methods; `None` where
/// no table may be built of them.
pub fn table(
    alloc: Global,
    types: &[Type<'_>],
    methods: &[Method<'_>],
    pairs: &[(u32, u32)],
) -> Result<Option<ClassTable>, Or<TableFault>> {
    let types = all_types(alloc, types)?;
    let members = all_members(alloc, methods)?;
    let mut explicit = Vec::new(alloc);
    for (m, of) in pairs {
        explicit.push((MemberId(*m), MemberId(*of)))?;
    }
    if !is_buildable(types.as_slice(), members.as_slice(), explicit.as_slice()) {
        return Ok(None);
    }
    Ok(Some(build(alloc, types, members, explicit)?))
}

/// What is built of them: `ok`, or the fault.
pub fn built(
    alloc: Global,
    types: &[Type<'_>],
    methods: &[Method<'_>],
    pairs: &[(u32, u32)],
) -> Result<String, NoMemory> {
    match table(alloc, types, methods, pairs) {
        Ok(Some(_)) => Ok(format!(in alloc; "ok")?),
        Ok(None) => Ok(format!(in alloc; "not buildable")?),
        Err(Or::Fault(fault)) => Ok(format!(in alloc; "{fault:?}")?),
        Err(Or::NoMemory) => Err(NoMemory),
    }
}
