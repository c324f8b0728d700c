// The rows of all instructions, and those of some code.

mod flow;
mod rows;

use self::flow::{FLOWS, Flow};
use self::rows::ROWS;
use crate::{row_of, rows_of};
use cil_instruction::{Instr, Op};
use dc_base::Seq;
use std::alloc::{AllocError, Global};
use std::process::Abort;
use std::test::Fail;

#[test]
fn each_instruction_has_its_row(rt: HostRuntime) -> Result<(), Fail> {
    for (row, flow) in ROWS.iter().zip(&FLOWS) {
        check_row(&rt, rt.alloc(), row, flow)?;
    }
    Ok(())
}

fn check_row<R: Abort>(
    rt: &R,
    alloc: Global,
    said: &(Op, i64, &str),
    flow: &Flow,
) -> Result<(), Fail> {
    let (op, arg, text) = *said;
    let (same, targets, takes, gives, goes_on) = *flow;
    assert_eq!(rt; op, same);
    let row = row_of(instr(alloc, op, arg, targets)?);
    assert_eq!(rt; format!(in alloc; "{row:?}")?.as_str(), text);
    assert_eq!(rt; row.takes(), takes, "what {op:?} takes");
    assert_eq!(rt; row.gives(), gives, "what {op:?} gives");
    assert_eq!(rt; row.goes_on(), goes_on, "whether {op:?} goes on");
    assert_eq!(rt; row.aims(), targets, "the aims of {op:?}");
    let ends = matches!(op, Op::Ret | Op::Throw | Op::Rethrow);
    assert_eq!(rt; row.ends_method(), ends, "whether {op:?} ends the method");
    Ok(())
}

#[test]
fn an_operand_that_is_no_number_of_the_row_is_nought(rt: HostRuntime) -> Result<(), Fail> {
    let table: [(Op, i64, &str); 8] = [
        (Op::Ldarg, 65535, "LoadArgument(65535)"),
        (Op::Ldarg, 65536, "LoadArgument(0)"),
        (Op::Stloc, -1, "StoreLocal(0)"),
        (Op::LdcI4, -0x8000_0000, "Int(-2147483648)"),
        (Op::LdcI4, 0x8000_0000, "Int(0)"),
        (Op::Ldstr, 0xFFFF_FFFF, "Text(Token(4294967295))"),
        (Op::Ldstr, 0x1_0000_0000, "Text(Token(0))"),
        (Op::Br, 5, "Branch { to: 0 }"),
    ];
    for (op, arg, text) in table {
        let row = row_of(instr(rt.alloc(), op, arg, &[])?);
        assert_eq!(rt; format!(in rt.alloc(); "{row:?}")?.as_str(), text);
    }
    Ok(())
}

// An instruction with its place and its targets, and with its aims.
type Line = (u32, Op, &'static [u32], &'static [u32]);

#[test]
fn aims_in_code_are_numbers_of_instructions(rt: HostRuntime) -> Result<(), Fail> {
    let rising: [Line; 5] = [
        (0, Op::BrS, &[7], &[4]),
        (2, Op::Nop, &[], &[]),
        (3, Op::BrtrueS, &[0], &[0]),
        (5, Op::LeaveS, &[6], &[5]),
        (7, Op::Switch, &[3, 0, 7, 8], &[2, 0, 4, 5]),
    ];
    check(&rt, rt.alloc(), &rising)?;
    // Places out of order, where the first at a place counts.
    let loose: [Line; 4] = [
        (9, Op::BrS, &[4], &[1]),
        (4, Op::Switch, &[9, 4, 5], &[0, 1, 4]),
        (4, Op::Ret, &[], &[]),
        (0, Op::BeqS, &[0], &[3]),
    ];
    check(&rt, rt.alloc(), &loose)
}

fn check<R: Abort>(rt: &R, alloc: Global, lines: &[Line]) -> Result<(), Fail> {
    let mut code = Vec::new(alloc);
    for (place, op, targets, _) in lines {
        code.push((*place, instr(alloc, *op, 0, targets)?))?;
    }
    let rows = rows_of(alloc, code.as_slice())?;
    assert_eq!(rt; rows.len(), lines.len());
    for (row, line) in rows.iter().zip(lines) {
        assert_eq!(rt; row.aims(), line.3, "the aims at {}", line.0);
    }
    Ok(())
}

fn instr(alloc: Global, op: Op, arg: i64, targets: &[u32]) -> Result<Instr, AllocError> {
    Ok(Instr {
        op,
        arg,
        targets: Seq::of(Vec::from_slice(alloc, targets)?),
    })
}
