// Texts without expressions and blocks.

ghost use Rattle.std.specs.Prelude.{◌≡◌, Err};
ghost use Rattle.dc_base.specs.declared.failure.Or.TheVariants.{NoMemory as WithoutMemory};

use super::*;
use cs_grammar::Fault;
use cs_lex::Cursor;
use cs_read_calls::{Ask, Depth, Got, Level};
use cs_tree::{Decl, Item, Member, Space, Unit};
use dc_base::Or;
use std::alloc::Global;
use std::fmt::Write;
use std::test::Fail;

/// No expression and no block.
fn nothing(_: Global, _: &mut Cursor, _: Ask) -> Result<Got, Or<Fault>>
    ensures { result ≡ Err WithoutMemory }
{
    Err(Or::NoMemory)
}

/// Reads a text in whose types one more may be open.
fn read(alloc: Global, source: &str) -> Result<Unit, Or<ReadFault>> {
    // The tables have no longer text.
    if source.len() > 999 {
        return Err(Or::NoMemory);
    }
    let at = Depth {
        levels: 400,
        left: 401,
        blocks: 200,
        ranks: 2,
    };
    unit_of_text(&Level { at, read: nothing }, alloc, source, 1)
}

fn word(member: &Member) -> &'static str {
    match member {
        Member::Field { .. } => "field",
        Member::Constant { .. } => "constant",
        Member::Method { explicit, .. } if explicit.is_some() => "explicit",
        Member::Method { .. } => "method",
        Member::Constructor { .. } => "constructor",
        Member::Initializer { .. } => "initializer",
        Member::Property { .. } => "property",
        Member::Maker { .. } => "maker",
        Member::Indexer { .. } => "indexer",
        Member::Operator { .. } => "operator",
    }
}

/// A type in a few words, those in it not gone into.
fn show(decl: &Decl, out: &mut String) -> Result<(), Fail> {
    match decl {
        Decl::Body {
            kind,
            name,
            bases,
            items,
            ..
        } => {
            write!(out, "{kind:?} {} {}:", name.text.as_str(), bases.len())?;
            for item in items.as_slice() {
                match item {
                    Item::Member { member } => write!(out, " {}", word(member))?,
                    Item::Type { .. } => write!(out, " type")?,
                }
            }
        }
        Decl::Enum { enumerators, .. } => {
            for each in enumerators.items() {
                write!(
                    out,
                    "{} {} {},",
                    each.name.text.as_str(),
                    each.negative,
                    each.value
                )?;
            }
        }
        Decl::Delegate { params, .. } => write!(out, "delegate {}", params.len())?,
    }
    write!(out, ";")?;
    Ok(())
}

fn shown(alloc: Global, read: Result<Unit, Or<ReadFault>>) -> Result<String, Fail> {
    let mut out = String::new(alloc);
    match read {
        Ok(unit) => {
            for space in unit.spaces.as_slice() {
                match space {
                    Space::Namespace { path, types, .. } => {
                        write!(out, "namespace {}:", path.names.len())?;
                        for decl in types.as_slice() {
                            show(decl, &mut out)?;
                        }
                    }
                    Space::Type { decl } => show(decl, &mut out)?,
                }
            }
        }
        Err(fault) => write!(out, "{fault}")?,
    }
    Ok(out)
}

#[test]
fn reads_each_part_of_a_reference_text(rt: HostRuntime) -> Result<(), Fail> {
    let alloc = rt.alloc();
    for (source, parts) in [
        ("", ""),
        (
            "namespace A.B { public class C : global::X.D, global::I { } }",
            "namespace 2:Class C 2:;",
        ),
        (
            "struct S { public int f; public int M(int a, ref int[] b); public S(); class N { } }",
            "Struct S 0: field method maker type;",
        ),
        (
            "interface I { int P { get; set; } indexer int Item[int i] { get; } }",
            "Interface I 0: property indexer;",
        ),
        (
            "class C { void global::I.Go(); operator bool op_Equality(int a, int b); }",
            "Class C 0: explicit operator;",
        ),
        ("enum E : int { A = 0, B = -1, }", "A false 0,B true 1,;"),
        ("delegate void D(out int a);", "delegate 1;"),
    ] {
        assert_eq!(rt; shown(alloc, read(alloc, source))?.as_str(), parts);
    }
    Ok(())
}

#[test]
fn faults_stand_at_the_first_token_that_no_text_goes_on_with(rt: HostRuntime) -> Result<(), Fail> {
    let alloc = rt.alloc();
    for (source, fault) in [
        ("class A {\n", "unexpected at 2:1"),
        ("class class", "unexpected at 1:7"),
        ("static public class A { }", "unexpected at 1:8"),
        ("class A { } #", "no token at 1:13"),
        ("class class #", "unexpected at 1:7"),
        ("class A { int[][] f; int[][][] g; }", "too deep at 1:29"),
        ("class A { class B { } }", "Class A 0: type;"),
        ("class A { class B { class C", "too deep at 1:21"),
        ("class A { class B { static operator", "unexpected at 1:28"),
    ] {
        assert_eq!(rt; shown(alloc, read(alloc, source))?.as_str(), fault);
    }
    Ok(())
}

/// Reads a reference text in whose types one more may be open.
fn reference(alloc: Global, source: &str) -> Result<Unit, Or<ReadFault>> {
    if source.len() > 999 {
        return Err(Or::NoMemory);
    }
    reference_of_text(alloc, source, 2, 1)
}

#[test]
fn reference_texts_have_no_blocks(rt: HostRuntime) -> Result<(), Fail> {
    let alloc = rt.alloc();
    for (source, parts) in [
        ("class A { void M(); A(); }", "Class A 0: method maker;"),
        ("class A { void M() { } }", "unexpected at 1:20"),
        ("class A { A() : base();", "unexpected at 1:15"),
        ("class A { int f = 5; }", "unexpected at 1:17"),
        ("class A { } #", "no token at 1:13"),
        ("class A { class B { class C", "too deep at 1:21"),
    ] {
        assert_eq!(rt; shown(alloc, reference(alloc, source))?.as_str(), parts);
    }
    Ok(())
}
