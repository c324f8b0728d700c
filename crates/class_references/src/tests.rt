// Whole reference texts.

use super::*;
use class_rows::{MemberRow, TableFault, TypeRow};
use class_table::ClassTable;
use cs_read_texts::ReadFault;
use dc_base::{MemberId, NoMemory, Or, TypeId};
use std::alloc::Global;
use std::fmt::Write;
use std::test::Fail;

/// The core types in their order. The last six derive from the eighth.
const NAMES: [&str; 24] = [
    "Object",
    "ValueType",
    "Enum",
    "Array",
    "String",
    "Delegate",
    "MulticastDelegate",
    "Exception",
    "Boolean",
    "Char",
    "SByte",
    "Byte",
    "Int16",
    "UInt16",
    "Int32",
    "UInt32",
    "Int64",
    "UInt64",
    "NullReferenceException",
    "InvalidCastException",
    "IndexOutOfRangeException",
    "ArrayTypeMismatchException",
    "OverflowException",
    "DivideByZeroException",
];

fn read(alloc: Global, source: &str) -> Result<ClassTable, Or<RefFault>> {
    // No test has a longer text.
    if source.len() > 9999 {
        return Err(Or::NoMemory);
    }
    references(alloc, source)
}

/// What a text is refused for; none where it is read.
fn fault(alloc: Global, source: &str) -> Option<RefFault> {
    match read(alloc, source) {
        Err(Or::Fault(fault)) => Some(fault),
        _ => None,
    }
}

/// A type in a few words.
fn show_type(row: &TypeRow, out: &mut String) -> Result<(), Fail> {
    write!(out, "{:?} {:?} ", row.access, row.kind)?;
    write!(out, "{}.{}", row.space.as_str(), row.name.as_str())?;
    if let Some(base) = row.base {
        write!(out, " {}", base.0)?;
    }
    write!(out, ":")?;
    Ok(())
}

fn show_member(row: &MemberRow, out: &mut String) -> Result<(), Fail> {
    write!(out, " {} {}", row.name.as_str(), row.params.len())?;
    if row.is_static {
        write!(out, " static")?;
    }
    write!(out, " {:?} {:?};", row.virt, row.result.core)?;
    Ok(())
}

/// A type of a table with its members in a few words.
fn shown(alloc: Global, table: &ClassTable, number: u32) -> Result<String, Fail> {
    let mut out = String::new(alloc);
    if number < table.types() {
        show_type(table.type_row(TypeId(number)), &mut out)?;
    }
    for m in 0..table.members() {
        let member = table.member_row(MemberId(m));
        if member.owner == TypeId(number) {
            show_member(member, &mut out)?;
        }
    }
    Ok(out)
}

#[test]
fn each_line_of_the_core_is_read(rt: HostRuntime) -> Result<(), Fail> {
    let alloc = rt.alloc();
    let Ok(table) = read(alloc, CORE) else {
        panic!(rt; "no table");
    };
    for (number, text) in [
        (
            0,
            "Public Class System.Object: .ctor 0 Plain Void; Equals 1 Virtual Prim(Bool); GetHashCode 0 Virtual Prim(I4); ToString 0 Virtual Class(TypeId(4));",
        ),
        (1, "Public Class System.ValueType 0:"),
        (2, "Public Class System.Enum 1:"),
        (3, "Public Class System.Array 0:"),
        (
            4,
            "Public Class System.String 0: get_Length 0 Plain Prim(I4); get_Chars 1 Plain Prim(Char); op_Equality 2 static Plain Prim(Bool); op_Inequality 2 static Plain Prim(Bool); Concat 2 static Plain Class(TypeId(4));",
        ),
        (5, "Public Class System.Delegate 0:"),
        (6, "Public Class System.MulticastDelegate 5:"),
        (
            7,
            "Public Class System.Exception 0: .ctor 0 Plain Void; .ctor 1 Plain Void; get_Message 0 Virtual Class(TypeId(4));",
        ),
        (24, "Public Class System.Attribute 0:"),
        (
            25,
            "Public Interface System.IDisposable: Dispose 0 Abstract Void;",
        ),
        (
            26,
            "Public StaticClass System.Console 0: WriteLine 1 static Plain Void; WriteLine 1 static Plain Void;",
        ),
        (
            27,
            "Public StaticClass System.Threading.Monitor 0: Enter 2 static Plain Void; Exit 1 static Plain Void;",
        ),
        (28, ""),
    ] {
        assert_eq!(rt; shown(alloc, &table, number)?.as_str(), text);
    }
    Ok(())
}

#[test]
fn the_core_has_primitive_types_and_exceptions(rt: HostRuntime) -> Result<(), Fail> {
    let alloc = rt.alloc();
    let Ok(table) = read(alloc, CORE) else {
        panic!(rt; "no table");
    };
    for k in 8..24 {
        let name = NAMES[k];
        let text = if k < 18 {
            format!(in alloc; "Public Opaque System.{name} 1:")?
        } else {
            format!(in alloc; "Public Class System.{name} 7: .ctor 0 Plain Void;")?
        };
        assert_eq!(rt; shown(alloc, &table, k as u32)?.as_str(), text.as_str());
    }
    Ok(())
}

/// The core types without one, each in short. With the eighth those that derive from it are left out.
fn without(alloc: Global, left_out: usize) -> Result<String, NoMemory> {
    let mut text = String::from_str(alloc, "namespace System { ")?;
    for k in 0..NAMES.len() {
        if k == left_out || (k > 17 && left_out == 7) {
            continue;
        }
        text.push_str("class ")?;
        text.push_str(NAMES[k])?;
        if k > 17 {
            text.push_str(" : global::System.Exception")?;
        }
        text.push_str(" { } ")?;
    }
    text.push_str("}")?;
    Ok(text)
}

#[test]
fn each_core_type_that_is_left_out_is_missing(rt: HostRuntime) -> Result<(), Fail> {
    let alloc = rt.alloc();
    for k in 0..NAMES.len() {
        let text = without(alloc, k)?;
        let missing = RefFault::Types(TableFault::MissingCore(k as u8));
        assert_eq!(rt; fault(alloc, text.as_str()), Some(missing));
    }
    let all = without(alloc, 24)?;
    assert_eq!(rt; fault(alloc, all.as_str()), None);
    let missing = RefFault::Types(TableFault::MissingCore(0));
    assert_eq!(rt; fault(alloc, ""), Some(missing));
    Ok(())
}

#[test]
fn of_two_faults_the_text_s_comes_first(rt: HostRuntime) -> Result<(), Fail> {
    let alloc = rt.alloc();
    for (source, wanted) in [
        ("class class #", RefFault::Read(ReadFault::Parse(1, 7))),
        ("class A { } #", RefFault::Read(ReadFault::Lex(1, 13))),
        (
            "class A { } class A { } class {",
            RefFault::Read(ReadFault::Parse(1, 31)),
        ),
        (
            "class A { } class A { } class B : global::B { }",
            RefFault::Types(TableFault::Cycle(TypeId(2))),
        ),
        (
            "class A { int f; int f; } class B { } class B { }",
            RefFault::Types(TableFault::Twice(TypeId(1))),
        ),
        (
            "class A : global::C { int f; int f; }",
            RefFault::Types(TableFault::Duplicate(MemberId(0))),
        ),
        (
            "class A { global::C f; }",
            RefFault::Types(TableFault::MissingBase(TypeId(0))),
        ),
    ] {
        assert_eq!(rt; fault(alloc, source), Some(wanted));
    }
    Ok(())
}

/// The core with something behind it.
fn with_core(alloc: Global, source: &str) -> Result<Option<RefFault>, NoMemory> {
    let mut text = String::from_str(alloc, CORE)?;
    text.push_str(source)?;
    Ok(fault(alloc, text.as_str()))
}

#[test]
fn types_beside_the_core_fit_it(rt: HostRuntime) -> Result<(), Fail> {
    let alloc = rt.alloc();
    for source in [
        "interface I { void M(); } class C : global::I { void global::I.M(); }",
        "interface I { void M(); } struct S : global::I { public void M(); }",
        "enum E : byte { A = 0, B = 255, } delegate void D(ref int x);",
        "class C { class D { } const int A = -1; int[][] f; indexer int Item[int i] { get; set; } }",
    ] {
        assert_eq!(rt; with_core(alloc, source)?, None);
    }
    let unimplemented = RefFault::Types(TableFault::Unimplemented(TypeId(29), MemberId(23)));
    let source = "interface I { void M(); } class C : global::I { }";
    assert_eq!(rt; with_core(alloc, source)?, Some(unimplemented));
    Ok(())
}

/// Types in one another, so many that one is open in each but the last.
fn nested(alloc: Global, count: usize) -> Result<String, NoMemory> {
    let mut text = String::new(alloc);
    for _ in 0..count {
        text.push_str("class A { ")?;
    }
    for _ in 0..count {
        text.push_str("}")?;
    }
    Ok(text)
}

/// A field of an array with so many pairs of brackets.
fn brackets(alloc: Global, count: usize) -> Result<String, NoMemory> {
    let mut text = String::from_str(alloc, "class A { int")?;
    for _ in 0..count {
        text.push_str("[]")?;
    }
    text.push_str(" f; }")?;
    Ok(text)
}

#[test]
fn depths_end_with_200_types_and_33_pairs_of_brackets(rt: HostRuntime) -> Result<(), Fail> {
    let alloc = rt.alloc();
    let missing = RefFault::Types(TableFault::MissingCore(0));
    let within = nested(alloc, 201)?;
    assert_eq!(rt; fault(alloc, within.as_str()), Some(missing));
    let beyond = nested(alloc, 202)?;
    let deep = RefFault::Read(ReadFault::Deep(1, 2011));
    assert_eq!(rt; fault(alloc, beyond.as_str()), Some(deep));
    let within = brackets(alloc, 33)?;
    assert_eq!(rt; fault(alloc, within.as_str()), Some(missing));
    let beyond = brackets(alloc, 34)?;
    let deep = RefFault::Read(ReadFault::Deep(1, 80));
    assert_eq!(rt; fault(alloc, beyond.as_str()), Some(deep));
    Ok(())
}
