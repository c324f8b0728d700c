// Bodies that fail a condition alone, and bodies that just don't.

ghost use Rattle.std.specs.Bool.{OnTrue};
ghost use Rattle.cli_assembly.specs.Meaning.{AreInOrder};

use cil_body::{Body, Clause, ClauseKind};
use cil_instruction::{Instr, Op};
use cil_rows::rows_of;
use class_rows::{Access, Kind, TableFault, TypeRow};
use class_table::{ClassTable, build, is_buildable};
use cli_assembly::Named;
use cli_bodies::{Failure, Method, check_body};
use cli_conditions::Condition;
use dc_base::{Core, MemberId, NoMemory, Or, Prim_, Seq, Text, Token, Ty, TypeId};
use std::alloc::Global;
use std::process::Abort;
use std::test::Fail;

const CORE: [&str; 24] = [
    "Object",
    "ValueType",
    "Enum",
    "Array",
    "String",
    "Delegate",
    "MulticastDelegate",
    "Exception",
    "Boolean",
    "Char",
    "SByte",
    "Byte",
    "Int16",
    "UInt16",
    "Int32",
    "UInt32",
    "Int64",
    "UInt64",
    "NullReferenceException",
    "InvalidCastException",
    "IndexOutOfRangeException",
    "ArrayTypeMismatchException",
    "OverflowException",
    "DivideByZeroException",
];

fn core_type(alloc: Global, k: usize, name: &str) -> Result<TypeRow, NoMemory> {
    let base = if k == 0 {
        None
    } else if k < 18 {
        Some(TypeId(0))
    } else {
        Some(TypeId(7))
    };
    Ok(TypeRow {
        name: Text::of(alloc, name)?,
        space: Text::of(alloc, "System")?,
        outer: None,
        kind: if k == 10 {
            Kind::Enum(Prim_::U2)
        } else {
            Kind::Class
        },
        access: Access::Public,
        base,
        bases: Seq::new(alloc),
        is_abstract: false,
        is_sealed: false,
        own: false,
    })
}

// The core types, of which the one of number 10 counts as an enum.
fn core_table(alloc: Global) -> Result<Option<ClassTable>, Or<TableFault>> {
    let mut types = Vec::new(alloc);
    for (k, name) in CORE.iter().enumerate() {
        types.push(core_type(alloc, k, name)?)?;
    }
    let members = Vec::new(alloc);
    let explicit: Vec<(MemberId, MemberId)> = Vec::new(alloc);
    if !is_buildable(types.as_slice(), members.as_slice(), explicit.as_slice()) {
        return Ok(None);
    }
    Ok(Some(build(alloc, types, members, explicit)?))
}

fn ty(core: Core, arrays: u8) -> Named {
    Named::OfType(Ty {
        core,
        arrays,
        lent: false,
    })
}

// 1 Object, 2 Exception, 3 NullReferenceException, 4 String, 5 int, 6 an enum of ushort, 7 Exception[]
fn tokens(alloc: Global) -> Result<Vec<(Token, Named)>, NoMemory> {
    Ok(vec![in alloc;
        (Token(1), ty(Core::Class(TypeId(0)), 0)),
        (Token(2), ty(Core::Class(TypeId(7)), 0)),
        (Token(3), ty(Core::Class(TypeId(18)), 0)),
        (Token(4), ty(Core::Class(TypeId(4)), 0)),
        (Token(5), ty(Core::Prim(Prim_::I4), 0)),
        (Token(6), ty(Core::Enum(TypeId(10)), 0)),
        (Token(7), ty(Core::Class(TypeId(7)), 1)),
    ]?)
}

fn in_order(tokens: &[(Token, Named)]) -> bool
    ensures { OnTrue result (AreInOrder tokens.now) }
{
    for k in 1..tokens.len() {
        if tokens[k].0.0 <= tokens[k - 1].0.0 {
            return false;
        }
    }
    true
}

// A clause: its try, its handler's offset, and its class, or 0 for a finally.
type Row = (u32, u32, u32, u32);

fn clauses(alloc: Global, rows: &[Row]) -> Result<Vec<Clause>, NoMemory> {
    let mut clauses = Vec::new(alloc);
    for (try_at, try_len, handler_at, class) in rows {
        clauses.push(Clause {
            kind: if *class == 0 {
                ClauseKind::Finally
            } else {
                ClauseKind::Catch
            },
            try_at: *try_at,
            try_len: *try_len,
            handler_at: *handler_at,
            handler_len: 1,
            class: Token(*class),
        })?;
    }
    Ok(clauses)
}

// An instruction: its place, its operand, and its target where it has one.
type Line = (u32, Op, i64, Option<u32>);

fn code(alloc: Global, lines: &[Line]) -> Result<Vec<(u32, Instr)>, NoMemory> {
    let mut code = Vec::new(alloc);
    for (at, op, arg, target) in lines {
        let mut targets = Seq::new(alloc);
        if let Some(target) = target {
            targets.push(*target)?;
        }
        code.push((
            *at,
            Instr {
                op: *op,
                arg: *arg,
                targets,
            },
        ))?;
    }
    Ok(code)
}

fn body(alloc: Global, lines: &[Line], rows: &[Row]) -> Result<Body, NoMemory> {
    Ok(Body {
        max_stack: 8,
        init_locals: true,
        locals: Token(0),
        size: 100,
        code: Seq::of(code(alloc, lines)?),
        clauses: Seq::of(clauses(alloc, rows)?),
    })
}

fn check<R: Abort>(
    rt: &R,
    alloc: Global,
    table: &ClassTable,
    tokens: &[(Token, Named)],
    (lines, clauses, head, due): (&[Line], &[Row], Option<u32>, Option<Failure>),
) -> Result<(), Fail> {
    assert!(rt; in_order(tokens));
    let body = body(alloc, lines, clauses)?;
    let rows = rows_of(alloc, body.code.items())?;
    let method = Method {
        table,
        tokens,
        body: &body,
        rows: rows.as_slice(),
        object: TypeId(0),
        exception: TypeId(7),
        head,
    };
    assert_eq!(rt; failure(check_body(alloc, &method))?, due);
    Ok(())
}

fn failure(answer: Result<(), Or<Failure>>) -> Result<Option<Failure>, NoMemory> {
    match answer {
        Ok(()) => Ok(None),
        Err(Or::Fault(failure)) => Ok(Some(failure)),
        Err(Or::NoMemory) => Err(NoMemory),
    }
}

fn at(condition: Condition, offset: u32) -> Option<Failure> {
    Some(Failure { condition, offset })
}

#[test]
fn catches_of_a_body(rt: HostRuntime) -> Result<(), Fail> {
    let alloc = rt.alloc();
    let Some(table) = core_table(alloc)? else {
        return Ok(());
    };
    let tokens = tokens(alloc)?;
    let rows: [(&[Row], Option<Failure>); 9] = [
        (&[(0, 2, 9, 1), (0, 2, 5, 0)], None),
        (&[(0, 2, 5, 3), (0, 2, 6, 2), (1, 2, 7, 3)], None),
        (&[(0, 2, 5, 4)], at(Condition::CatchClass, 5)),
        (&[(0, 2, 5, 7)], at(Condition::CatchClass, 5)),
        (&[(0, 2, 5, 9)], at(Condition::CatchClass, 5)),
        (&[(0, 2, 8, 2), (0, 2, 5, 3)], at(Condition::CatchOrder, 5)),
        (&[(0, 2, 5, 2), (0, 2, 8, 1)], at(Condition::CatchOrder, 8)),
        (
            &[(0, 2, 9, 4), (0, 2, 5, 3), (0, 2, 7, 3)],
            at(Condition::CatchOrder, 7),
        ),
        (&[(0, 2, 9, 4), (0, 2, 9, 4)], at(Condition::CatchClass, 9)),
    ];
    for (clauses, due) in rows {
        check(
            &rt,
            alloc,
            &table,
            tokens.as_slice(),
            (&[], clauses, None, due),
        )?;
    }
    Ok(())
}

#[test]
fn what_is_read_at_once_behind_an_unbox(rt: HostRuntime) -> Result<(), Fail> {
    let alloc = rt.alloc();
    let Some(table) = core_table(alloc)? else {
        return Ok(());
    };
    let tokens = tokens(alloc)?;
    let rows: [(&[Line], Option<u32>, Option<Failure>); 2] = [
        (
            &[
                (0, Op::Unbox, 5, None),
                (5, Op::Ldobj, 5, None),
                (10, Op::Unbox, 6, None),
                (15, Op::LdindU2, 0, None),
                (16, Op::Unbox, 5, None),
                (21, Op::LdindU4, 0, None),
            ],
            None,
            None,
        ),
        (
            &[
                (0, Op::Unbox, 5, None),
                (5, Op::LdindI4, 0, None),
                (6, Op::Brtrue, 0, Some(5)),
            ],
            None,
            at(Condition::Unbox, 0),
        ),
    ];
    for (lines, head, due) in rows {
        check(
            &rt,
            alloc,
            &table,
            tokens.as_slice(),
            (lines, &[], head, due),
        )?;
    }
    Ok(())
}

#[test]
fn what_reads_no_box(rt: HostRuntime) -> Result<(), Fail> {
    let alloc = rt.alloc();
    let Some(table) = core_table(alloc)? else {
        return Ok(());
    };
    let tokens = tokens(alloc)?;
    let rows: [(&[Line], Option<u32>, Option<Failure>); 4] = [
        (
            &[(0, Op::Nop, 0, None), (1, Op::Unbox, 5, None)],
            None,
            at(Condition::Unbox, 1),
        ),
        (
            &[(0, Op::Unbox, 5, None), (5, Op::Ldobj, 6, None)],
            None,
            at(Condition::Unbox, 0),
        ),
        (
            &[(0, Op::Unbox, 6, None), (5, Op::LdindI4, 0, None)],
            None,
            at(Condition::Unbox, 0),
        ),
        (
            &[(0, Op::Unbox, 5, None), (5, Op::LdindRef, 0, None)],
            None,
            at(Condition::Unbox, 0),
        ),
    ];
    for (lines, head, due) in rows {
        check(
            &rt,
            alloc,
            &table,
            tokens.as_slice(),
            (lines, &[], head, due),
        )?;
    }
    Ok(())
}

#[test]
fn a_head_before_an_unbox(rt: HostRuntime) -> Result<(), Fail> {
    let alloc = rt.alloc();
    let Some(table) = core_table(alloc)? else {
        return Ok(());
    };
    let tokens = tokens(alloc)?;
    let rows: [(&[Line], Option<u32>, Option<Failure>); 2] = [
        (
            &[(3, Op::Unbox, 9, None), (8, Op::Ldobj, 9, None)],
            Some(3),
            at(Condition::Head, 3),
        ),
        (
            &[(3, Op::Unbox, 9, None), (8, Op::Ldobj, 9, None)],
            Some(4),
            at(Condition::Unbox, 3),
        ),
    ];
    for (lines, head, due) in rows {
        check(
            &rt,
            alloc,
            &table,
            tokens.as_slice(),
            (lines, &[], head, due),
        )?;
    }
    Ok(())
}
