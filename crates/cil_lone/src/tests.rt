// Lone bodies that are read and refused.

ghost use Rattle.std.specs.Prelude.{◌≤◌, length};

use crate::{LoneFault, lone};
use cil_instruction::{Op, Simple};
use dc_base::Or;
use std::alloc::Global;
use std::process::Abort;
use std::test::Fail;

// The bytes that the instructions of a lone body begin with.
const TAKEN: [u8; 20] = [
    0x02, 0x03, 0x04, 0x05, 0x15, 0x16, 0x17, 0x18, 0x19, 0x1A, 0x1B, 0x1C, 0x1D, 0x1E, 0x1F, 0x20,
    0x58, 0x59, 0x5A, 0x2A,
];

#[test]
fn a_lone_body_has_no_other_instruction(rt: HostRuntime) {
    for code in 0..=255u8 {
        let is_taken = TAKEN.contains(&code);
        let due = LoneFault::NotYet(code, 1);
        let is_refused =
            matches!(lone(rt.alloc(), &[0x06, code]), Err(Or::Fault(found)) if found == due);
        assert!(rt; is_taken != is_refused, "byte {code}");
    }
}

fn at(place: u32, op: Op, arg: i64) -> (u32, Simple) {
    (place, Simple { op, arg })
}

#[test]
fn a_lone_body_is_its_instructions(rt: HostRuntime) -> Result<(), Fail> {
    let sum = [
        at(1, Op::Ldarg0, 0),
        at(2, Op::Ldarg1, 0),
        at(3, Op::Add, 0),
        at(4, Op::Ret, 0),
    ];
    assert!(rt; reads(rt.alloc(), &[0x12, 0x02, 0x03, 0x58, 0x2A], &sum)?);
    let numbers = [
        at(1, Op::LdcI4S, -1),
        at(3, Op::LdcI4, 256),
        at(8, Op::Mul, 0),
        at(9, Op::Ret, 0),
    ];
    let file = [0x26, 0x1F, 0xFF, 0x20, 0x00, 0x01, 0x00, 0x00, 0x5A, 0x2A];
    assert!(rt; reads(rt.alloc(), &file, &numbers)?);
    Ok(())
}

fn reads(alloc: Global, file: &[u8], code: &[(u32, Simple)]) -> Result<bool, Or<LoneFault>>
    requires { length file.now ≤ 64 }
{
    Ok(lone(alloc, file)?.as_slice() == code)
}

#[test]
fn a_file_that_is_no_lone_body_has_its_fault(rt: HostRuntime) {
    let header = LoneFault::BadHeader(0);
    refuses(&rt, rt.alloc(), &[], header);
    refuses(&rt, rt.alloc(), &[0x13, 0x02, 0x03, 0x58, 0x2A], header);
    refuses(&rt, rt.alloc(), &[0x02, 0x2A], header);
    let cut = LoneFault::Truncated(4);
    refuses(&rt, rt.alloc(), &[0x12, 0x02, 0x03, 0x58], cut);
    let cut = LoneFault::Truncated(2);
    refuses(&rt, rt.alloc(), &[0x0E, 0x02, 0x20, 0x2A], cut);
    let division = LoneFault::NotYet(0x5B, 2);
    refuses(&rt, rt.alloc(), &[0x0E, 0x02, 0x5B, 0x2A], division);
    refuses(&rt, rt.alloc(), &[0x0E, 0x58, 0x5B, 0x2A], division);
    let few = LoneFault::Underflow(1);
    refuses(&rt, rt.alloc(), &[0x0A, 0x58, 0x2A], few);
    let end = LoneFault::BadReturn(3);
    refuses(&rt, rt.alloc(), &[0x0A, 0x02, 0x03], end);
    refuses(&rt, rt.alloc(), &[0x0E, 0x02, 0x03, 0x2A], end);
    let early = LoneFault::BadReturn(2);
    refuses(&rt, rt.alloc(), &[0x0E, 0x02, 0x2A, 0x58], early);
    let behind = LoneFault::Trailing(3);
    refuses(&rt, rt.alloc(), &[0x0A, 0x02, 0x2A, 0x00], behind);
}

fn refuses(rt: &impl Abort, alloc: Global, file: &[u8], fault: LoneFault)
    requires { length file.now ≤ 64 }
{
    let is_refused = matches!(lone(alloc, file), Err(Or::Fault(found)) if found == fault);
    assert!(rt; is_refused, "{fault:?}");
}
