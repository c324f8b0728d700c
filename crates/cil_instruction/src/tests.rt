// Instructions that are read and refused.

ghost use Rattle.std.specs.Prelude.{◌≤◌, length};

use crate::{BodyCause, BodyFault, Op, Simple, next};
use std::process::Abort;

// The numbers of the instructions, as Partition III has them.
const OPCODES: [(u8, Op); 20] = [
    (0x02, Op::Ldarg0),
    (0x03, Op::Ldarg1),
    (0x04, Op::Ldarg2),
    (0x05, Op::Ldarg3),
    (0x15, Op::LdcI4M1),
    (0x16, Op::LdcI40),
    (0x17, Op::LdcI41),
    (0x18, Op::LdcI42),
    (0x19, Op::LdcI43),
    (0x1A, Op::LdcI44),
    (0x1B, Op::LdcI45),
    (0x1C, Op::LdcI46),
    (0x1D, Op::LdcI47),
    (0x1E, Op::LdcI48),
    (0x1F, Op::LdcI4S),
    (0x20, Op::LdcI4),
    (0x58, Op::Add),
    (0x59, Op::Sub),
    (0x5A, Op::Mul),
    (0x2A, Op::Ret),
];

#[test]
fn each_opcode_is_its_instruction(rt: HostRuntime) {
    for (code, op) in OPCODES {
        let found = next(&[code, 0, 0, 0, 0], 0);
        assert!(rt;
            matches!(found, Ok((simple, _)) if simple.op == op),
            "opcode {code}"
        );
    }
}

#[test]
fn operands_are_signed_with_the_least_byte_first(rt: HostRuntime) {
    let code = [
        0xFF, 0x20, 0xFE, 0xFF, 0xFF, 0xFF, 0x20, 0x01, 0x02, 0x00, 0x80, 0x1F, 0x80, 0x59, 0x1F,
    ];
    let least = -0x7FFF_FDFF;
    assert_eq!(rt; next(&code, 1), found(Op::LdcI4, -2, 6));
    assert_eq!(rt; next(&code, 6), found(Op::LdcI4, least, 11));
    assert_eq!(rt; next(&code, 11), found(Op::LdcI4S, -128, 13));
    assert_eq!(rt; next(&code, 13), found(Op::Sub, 0, 14));
    assert_eq!(rt; next(&code, 14), fault(BodyCause::Truncated, 14));
    assert_eq!(rt; next(&code, 15), fault(BodyCause::Truncated, 15));
    assert_eq!(rt; next(&code, 0), fault(BodyCause::BadOpcode(0xFF), 0));
}

fn found(op: Op, arg: i64, after: usize) -> Result<(Simple, usize), BodyFault> {
    Ok((Simple { op, arg }, after))
}

fn fault(cause: BodyCause, at: u32) -> Result<(Simple, usize), BodyFault> {
    Err(BodyFault { cause, at })
}

// The opcodes of the standard that aren't taken, of one byte and behind the prefix.
const LEFT_OUT_ALONE: [u8; 32] = [
    0x01, 0x22, 0x23, 0x27, 0x29, 0x4D, 0x4E, 0x4F, 0x56, 0x57, 0x6B, 0x6C, 0x70, 0x76, 0x81, 0x8A,
    0x8B, 0x97, 0x98, 0x99, 0x9B, 0xA0, 0xA1, 0xC2, 0xC3, 0xC6, 0xD0, 0xD3, 0xD4, 0xD5, 0xDF, 0xE0,
];

const LEFT_OUT_BEHIND: [u8; 14] = [
    0x00, 0x0F, 0x11, 0x12, 0x13, 0x14, 0x15, 0x16, 0x17, 0x18, 0x19, 0x1C, 0x1D, 0x1E,
];

#[test]
fn other_opcodes_are_left_out_or_bad(rt: HostRuntime) {
    for byte in 0..=255u8 {
        let alone = u16::from(byte);
        let is_left_out = LEFT_OUT_ALONE.contains(&byte);
        let bytes = [byte, 0, 0, 0, 0, 0, 0, 0, 0];
        assert!(rt;
            byte == 0xFE || is_refused(&bytes, alone, is_left_out),
            "{byte}"
        );
        let behind = 0xFE00 + u16::from(byte);
        let is_left_out = LEFT_OUT_BEHIND.contains(&byte);
        assert!(rt;
            is_refused(&[0xFE, byte, 0, 0, 0, 0], behind, is_left_out),
            "{behind}"
        );
    }
}

// Whether `next` refuses just an opcode that no instruction has, with the cause that is due.
fn is_refused(bytes: &[u8], code: u16, is_left_out: bool) -> bool
    requires { length bytes.now ≤ 16 }
{
    match next(bytes, 0) {
        Ok(_) => !is_left_out,
        Err(BodyFault { cause, at }) => {
            at == 0
                && match cause {
                    BodyCause::OutOfProfile(refused) => is_left_out && refused == code,
                    BodyCause::BadOpcode(refused) => !is_left_out && refused == code,
                    _ => false,
                }
        }
    }
}
