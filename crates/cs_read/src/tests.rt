// Texts within the depths, and just past them.

use crate::{ReadFault, read};
use cs_tree::{Arg, Block, Decl, Form, Item, Member, Space, Syntax, Unit};
use dc_base::Or;
use std::alloc::Global;
use std::fmt::Write;
use std::test::Fail;

/// Reads a text of the tables.
fn read_short(alloc: Global, source: &str) -> Result<Unit, Or<ReadFault>> {
    if source.len() > 99_999 {
        return Err(Or::NoMemory);
    }
    read(alloc, source)
}

#[cycle(showing)]
fn show_args(args: &[Arg], out: &mut String) -> Result<(), Fail> {
    for arg in args {
        write!(out, " ")?;
        show(&arg.form, out)?;
    }
    Ok(())
}

/// An expression with a pair of parentheses for each operator, call and cast.
#[cycle(showing)]
fn show(form: &Form, out: &mut String) -> Result<(), Fail> {
    match form {
        Form::Literal { .. } => write!(out, "#")?,
        Form::Name { text, .. } => write!(out, "{}", text.as_str())?,
        Form::Global { path, .. } => write!(out, "path{}", path.len())?,
        Form::GlobalCall { path, args, .. } => {
            write!(out, "(call path{}", path.len())?;
            show_args(args.as_slice(), out)?;
            write!(out, ")")?;
        }
        Form::Index { array, index, .. } => {
            write!(out, "(at ")?;
            show(array.get(), out)?;
            write!(out, " ")?;
            show(index.get(), out)?;
            write!(out, ")")?;
        }
        Form::Unary { op, operand, .. } => {
            write!(out, "({op:?} ")?;
            show(operand.get(), out)?;
            write!(out, ")")?;
        }
        Form::Cast { operand, .. } => {
            write!(out, "(cast ")?;
            show(operand.get(), out)?;
            write!(out, ")")?;
        }
        Form::Binary {
            op,
            left,
            right,
            ..
        } => {
            write!(out, "({op:?} ")?;
            show(left.get(), out)?;
            write!(out, " ")?;
            show(right.get(), out)?;
            write!(out, ")")?;
        }
        Form::Lambda { params, block, .. } => {
            write!(out, "(lambda {} {})", params.len(), block.stmts.len())?
        }
        _ => write!(out, "?")?,
    }
    Ok(())
}

fn word(statement: &Syntax) -> &'static str {
    match statement {
        Syntax::Declare { .. } => "declare",
        Syntax::Act { .. } => "act",
        Syntax::Label { .. } => "label",
        Syntax::Goto { .. } => "goto",
        Syntax::Break { .. } => "break",
        Syntax::Continue { .. } => "continue",
        Syntax::Return { .. } => "return",
        Syntax::Throw { .. } => "throw",
        Syntax::If { .. } => "if",
        Syntax::While { .. } => "while",
        Syntax::DoWhile { .. } => "do",
        Syntax::For { .. } => "for",
        Syntax::Foreach { .. } => "foreach",
        Syntax::Using { .. } => "using",
        Syntax::Lock { .. } => "lock",
        Syntax::Switch { .. } => "switch",
        Syntax::Try { .. } => "try",
    }
}

fn show_block(block: &Block, out: &mut String) -> Result<(), Fail> {
    for statement in block.stmts.as_slice() {
        write!(out, "{} ", word(statement))?;
    }
    Ok(())
}

/// The value of a field, or the statements of a method.
fn show_member(member: &Member, out: &mut String) -> Result<(), Fail> {
    match member {
        Member::Field {
            value: Some(value),
            ..
        } => show(value, out),
        Member::Method {
            block: Some(block),
            ..
        } => show_block(block, out),
        _ => Ok(()),
    }
}

/// The members of the types of a text, or its fault.
fn shown(alloc: Global, source: &str) -> Result<String, Fail> {
    let mut out = String::new(alloc);
    match read_short(alloc, source) {
        Ok(unit) => {
            for space in unit.spaces.as_slice() {
                if let Space::Type {
                    decl: Decl::Body { items, .. },
                } = space
                {
                    for item in items.as_slice() {
                        if let Item::Member { member } = item {
                            show_member(member, &mut out)?;
                        }
                    }
                }
            }
        }
        Err(fault) => write!(out, "{fault}")?,
    }
    Ok(out)
}

fn joined(alloc: Global, parts: &[&str]) -> Result<String, Fail> {
    let mut out = String::new(alloc);
    for part in parts {
        out.push_str(part)?;
    }
    Ok(out)
}

/// `before`, this often `opened`, `inner`, as often `closed`, `behind`
fn nested(alloc: Global, times: u32, parts: [&str; 5]) -> Result<String, Fail> {
    let [before, opened, inner, closed, behind] = parts;
    let mut out = String::new(alloc);
    out.push_str(before)?;
    for _ in 0..times {
        out.push_str(opened)?;
    }
    out.push_str(inner)?;
    for _ in 0..times {
        out.push_str(closed)?;
    }
    out.push_str(behind)?;
    Ok(out)
}

#[test]
fn reads_expressions_by_their_levels(rt: HostRuntime) -> Result<(), Fail> {
    let alloc = rt.alloc();
    for (expression, tree) in [
        ("- -x", "(Minus (Minus x))"),
        ("-(-x)", "(Minus (Minus x))"),
        ("a - -x", "(Sub a (Minus x))"),
        ("a < b > c", "(Greater (Less a b) c)"),
        ("a - b - c", "(Sub (Sub a b) c)"),
        ("a + b * c", "(Add a (Mul b c))"),
        ("(a + b) * c", "(Mul (Add a b) c)"),
        ("a && b || c", "(Or (And a b) c)"),
        (
            "global::A.M((int x) => { return; }, () => { }, 1)",
            "(call path2 (lambda 1 1) (lambda 0 0) #)",
        ),
        (
            "global::A.M(a, (ref int x) => { }, b)",
            "(call path2 a (lambda 1 0) b)",
        ),
    ] {
        let source = joined(alloc, &["class C { int x = ", expression, "; }"])?;
        assert_eq!(rt;
            shown(alloc, source.as_str())?.as_str(),
            tree,
            "{expression}"
        );
    }
    Ok(())
}

#[test]
fn tells_casts_from_parentheses_by_the_next_token(rt: HostRuntime) -> Result<(), Fail> {
    let alloc = rt.alloc();
    for (behind, tree) in [
        ("", "path2"),
        ("x", "(cast x)"),
        ("get", "(cast get)"),
        ("1", "(cast #)"),
        ("1U", "(cast #)"),
        ("'a'", "(cast #)"),
        ("\"a\"", "(cast #)"),
        ("true", "(cast #)"),
        ("false", "(cast #)"),
        ("null", "(cast #)"),
        ("this", "(cast ?)"),
        ("base.f", "(cast ?)"),
        ("new int[1]", "(cast ?)"),
        ("default(int)", "(cast ?)"),
        ("checked(x)", "(cast ?)"),
        ("unchecked(x)", "(cast ?)"),
        ("global::A.B", "(cast path2)"),
        ("(x)", "(cast x)"),
        ("(int)x", "(cast (cast x))"),
        ("[1]", "(at path2 #)"),
        (".f", "?"),
        ("-x", "(Sub path2 x)"),
        ("+x", "(Add path2 x)"),
        ("*x", "(Mul path2 x)"),
        ("/x", "(Div path2 x)"),
        ("%x", "(Rem path2 x)"),
        ("<<x", "(ShiftLeft path2 x)"),
        (">>x", "(ShiftRight path2 x)"),
        ("<x", "(Less path2 x)"),
        (">x", "(Greater path2 x)"),
        ("<=x", "(AtMost path2 x)"),
        (">=x", "(AtLeast path2 x)"),
        ("==x", "(Equal path2 x)"),
        ("!=x", "(Unequal path2 x)"),
        ("&x", "(BitAnd path2 x)"),
        ("^x", "(BitXor path2 x)"),
        ("|x", "(BitOr path2 x)"),
        ("&&x", "(And path2 x)"),
        ("||x", "(Or path2 x)"),
        (" is int", "?"),
        (" as string", "?"),
        ("?x:x", "?"),
        ("!x", "unexpected at 1:32"),
        ("~x", "unexpected at 1:32"),
    ] {
        let source = joined(alloc, &["class C { int x = (global::A.B)", behind, "; }"])?;
        assert_eq!(rt; shown(alloc, source.as_str())?.as_str(), tree, "{behind}");
    }
    Ok(())
}

#[test]
fn reads_each_statement(rt: HostRuntime) -> Result<(), Fail> {
    let alloc = rt.alloc();
    for (statements, words) in [
        (
            "int x = 1; global::A.B y = x; global::A.B[] z = y;",
            "declare declare declare ",
        ),
        (
            "x = 1; x += 1; this.f = 1; global::A.f = 1; global::A.M(); a[1] = 2;",
            "act act act act act act ",
        ),
        (
            "L: ; goto L; break; continue; return; return 1; throw; throw x;",
            "label goto break continue return return throw throw ",
        ),
        ("if (a) { } if (a) { } else { }", "if if "),
        ("while (a) { } do { } while (a);", "while do "),
        (
            "for (; a; x += 1) { } for (; a; x = 1) { } for (; a; this.M(1)) { }",
            "for for for ",
        ),
        (
            "foreach (int x in a) { } using (global::A.B x = a) { } lock (a) { }",
            "foreach using lock ",
        ),
        (
            "switch (a) { } switch (a) { case 1: { } case 'a': case null: default: { } }",
            "switch switch ",
        ),
        (
            "try { } finally { } try { } catch (global::A.B) { } catch (global::A.B x) { }",
            "try try ",
        ),
    ] {
        let source = joined(alloc, &["class C { void M() { ", statements, " } }"])?;
        assert_eq!(rt;
            shown(alloc, source.as_str())?.as_str(),
            words,
            "{statements}"
        );
    }
    Ok(())
}

#[test]
fn faults_stand_at_the_first_token_that_no_text_goes_on_with(rt: HostRuntime) -> Result<(), Fail> {
    let alloc = rt.alloc();
    for (statements, fault) in [
        ("x;", "unexpected at 1:23"),
        ("if (a) { } else if (b) { }", "unexpected at 1:38"),
        ("if (a) return;", "unexpected at 1:29"),
        ("for (; a; x) { }", "unexpected at 1:33"),
        ("case 1: { }", "unexpected at 1:22"),
        ("try { }", "try "),
        (
            "try { } finally { } catch (global::A.B) { }",
            "unexpected at 1:42",
        ),
        ("(int x) => { };", "unexpected at 1:23"),
        ("x = #;", "no token at 1:26"),
    ] {
        let source = joined(alloc, &["class C { void M() { ", statements, " } }"])?;
        assert_eq!(rt;
            shown(alloc, source.as_str())?.as_str(),
            fault,
            "{statements}"
        );
    }
    Ok(())
}

#[test]
fn an_expression_has_400_levels(rt: HostRuntime) -> Result<(), Fail> {
    let alloc = rt.alloc();
    for (times, opened, closed, found) in [
        (400, "(", ")", "#"),
        (401, "(", ")", "too deep at 1:419"),
        (401, "- ", "", "too deep at 1:819"),
        (401, "(int)", "", "too deep at 1:2019"),
    ] {
        let source = nested(
            alloc,
            times,
            ["class C { int x = ", opened, "1", closed, "; }"],
        )?;
        assert_eq!(rt; shown(alloc, source.as_str())?.as_str(), found);
    }
    Ok(())
}

#[test]
fn blocks_are_open_200_in_one_another(rt: HostRuntime) -> Result<(), Fail> {
    let alloc = rt.alloc();
    for (times, opened, closed, found) in [
        (199, "{ while (a) ", " }", "while "),
        (200, "{ while (a) ", " }", "too deep at 1:2410"),
        (199, "{ if (a) { } else ", " }", "if "),
        (200, "{ if (a) { } else ", " }", "too deep at 1:3604"),
        (199, "{ x = () => ", "; }", "act "),
        (200, "{ x = () => ", "; }", "too deep at 1:2415"),
    ] {
        let source = nested(
            alloc,
            times,
            ["class C { void M() ", opened, "{ }", closed, " }"],
        )?;
        assert_eq!(rt; shown(alloc, source.as_str())?.as_str(), found);
    }
    Ok(())
}

#[test]
fn a_type_has_33_pairs_of_brackets(rt: HostRuntime) -> Result<(), Fail> {
    let alloc = rt.alloc();
    for (before, behind) in [
        ("class C { int", " x; }"),
        ("class C { global::A", " x; }"),
        ("class C { void M(int", " x) { } }"),
        ("class C { void M() { int", " x = a; } }"),
        ("class C { object x = (int", ")a; }"),
    ] {
        for times in [32, 33, 34] {
            let source = nested(alloc, times, [before, "[]", "", "", behind])?;
            let found = match read_short(alloc, source.as_str()) {
                Ok(_) => 0,
                Err(Or::Fault(ReadFault::Deep(1, column))) => column,
                Err(fault) => return Err(fault.into()),
            };
            let due = if times < 34 { 0 } else { before.len() + 67 };
            assert_eq!(rt; found, due, "{before} {times}");
        }
    }
    Ok(())
}

#[test]
fn places_count_lines_and_characters(rt: HostRuntime) -> Result<(), Fail> {
    let alloc = rt.alloc();
    for (source, found) in [
        ("\u{feff}class C { }", "no token at 1:1"),
        ("class C {\r\n    int x = #; }\r\n", "no token at 2:13"),
        ("class C {\r\n    int x = 1;\r\n", "unexpected at 3:1"),
        ("class C {\n", "unexpected at 2:1"),
        (
            "class C { string x = \"\u{1d11e}\u{e9}\" #; }",
            "no token at 1:27",
        ),
        (
            "// a\nclass // b\n\tC // c\n{ // d\nint // e\nx//f\n=//g\n1//h\n;//i\n}// j",
            "#",
        ),
        ("class C { } /* a */", "unexpected at 1:13"),
        ("", ""),
    ] {
        assert_eq!(rt; shown(alloc, source)?.as_str(), found, "{source}");
    }
    Ok(())
}
