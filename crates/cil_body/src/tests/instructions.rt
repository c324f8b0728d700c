// Instructions, the aims of branches, and headers, each read and refused.

ghost use Rattle.std.specs.Prelude.{◌≤◌, length};

use crate::{Body, BodyCause, BodyFault, decode};
use cil_instruction::Op;
use dc_base::{Or, Token};
use std::alloc::Global;
use std::process::Abort;
use std::test::Fail;

// The body that mono's ilasm makes of each instruction once, in the order of the opcodes, with `nop` and `ret` behind
// them. Short branches lead to the next instruction, long ones to the first, and the switch to the first and to the last
// `nop`; variables have the numbers 200 and 40000, and constants are -2, -3 and -4.
const EACH: [u8; 402] = [
    0x03, 0x30, 0x4D, 0x00, 0x86, 0x01, 0x00, 0x00, 0x00, 0x00, 0x00, 0x00, 0x00, 0x02, 0x03, 0x04,
    0x05, 0x06, 0x07, 0x08, 0x09, 0x0A, 0x0B, 0x0C, 0x0D, 0x0E, 0xC8, 0x0F, 0xC8, 0x10, 0xC8, 0x11,
    0xC8, 0x12, 0xC8, 0x13, 0xC8, 0x14, 0x15, 0x16, 0x17, 0x18, 0x19, 0x1A, 0x1B, 0x1C, 0x1D, 0x1E,
    0x1F, 0xFE, 0x20, 0xFD, 0xFF, 0xFF, 0xFF, 0x21, 0xFC, 0xFF, 0xFF, 0xFF, 0xFF, 0xFF, 0xFF, 0xFF,
    0x25, 0x26, 0x28, 0x02, 0x00, 0x00, 0x06, 0x2A, 0x2B, 0x00, 0x2C, 0x00, 0x2D, 0x00, 0x2E, 0x00,
    0x2F, 0x00, 0x30, 0x00, 0x31, 0x00, 0x32, 0x00, 0x33, 0x00, 0x34, 0x00, 0x35, 0x00, 0x36, 0x00,
    0x37, 0x00, 0x38, 0xA5, 0xFF, 0xFF, 0xFF, 0x39, 0xA0, 0xFF, 0xFF, 0xFF, 0x3A, 0x9B, 0xFF, 0xFF,
    0xFF, 0x3B, 0x96, 0xFF, 0xFF, 0xFF, 0x3C, 0x91, 0xFF, 0xFF, 0xFF, 0x3D, 0x8C, 0xFF, 0xFF, 0xFF,
    0x3E, 0x87, 0xFF, 0xFF, 0xFF, 0x3F, 0x82, 0xFF, 0xFF, 0xFF, 0x40, 0x7D, 0xFF, 0xFF, 0xFF, 0x41,
    0x78, 0xFF, 0xFF, 0xFF, 0x42, 0x73, 0xFF, 0xFF, 0xFF, 0x43, 0x6E, 0xFF, 0xFF, 0xFF, 0x44, 0x69,
    0xFF, 0xFF, 0xFF, 0x45, 0x02, 0x00, 0x00, 0x00, 0x5C, 0xFF, 0xFF, 0xFF, 0xE0, 0x00, 0x00, 0x00,
    0x46, 0x47, 0x48, 0x49, 0x4A, 0x4B, 0x4C, 0x50, 0x51, 0x52, 0x53, 0x54, 0x55, 0x58, 0x59, 0x5A,
    0x5B, 0x5C, 0x5D, 0x5E, 0x5F, 0x60, 0x61, 0x62, 0x63, 0x64, 0x65, 0x66, 0x67, 0x68, 0x69, 0x6A,
    0x6D, 0x6E, 0x6F, 0x01, 0x00, 0x00, 0x0A, 0x71, 0x02, 0x00, 0x00, 0x02, 0x72, 0x01, 0x00, 0x00,
    0x70, 0x73, 0x01, 0x00, 0x00, 0x06, 0x74, 0x02, 0x00, 0x00, 0x02, 0x75, 0x02, 0x00, 0x00, 0x02,
    0x79, 0x02, 0x00, 0x00, 0x02, 0x7A, 0x7B, 0x01, 0x00, 0x00, 0x04, 0x7C, 0x01, 0x00, 0x00, 0x04,
    0x7D, 0x01, 0x00, 0x00, 0x04, 0x7E, 0x02, 0x00, 0x00, 0x04, 0x7F, 0x02, 0x00, 0x00, 0x04, 0x80,
    0x02, 0x00, 0x00, 0x04, 0x82, 0x83, 0x84, 0x85, 0x86, 0x87, 0x88, 0x89, 0x8C, 0x02, 0x00, 0x00,
    0x02, 0x8D, 0x02, 0x00, 0x00, 0x02, 0x8E, 0x8F, 0x02, 0x00, 0x00, 0x02, 0x90, 0x91, 0x92, 0x93,
    0x94, 0x95, 0x96, 0x9A, 0x9C, 0x9D, 0x9E, 0x9F, 0xA2, 0xA3, 0x02, 0x00, 0x00, 0x02, 0xA4, 0x02,
    0x00, 0x00, 0x02, 0xA5, 0x02, 0x00, 0x00, 0x02, 0xB3, 0xB4, 0xB5, 0xB6, 0xB7, 0xB8, 0xB9, 0xBA,
    0xD1, 0xD2, 0xD6, 0xD7, 0xD8, 0xD9, 0xDA, 0xDB, 0xDC, 0xDD, 0xAE, 0xFE, 0xFF, 0xFF, 0xDE, 0x00,
    0xFE, 0x01, 0xFE, 0x02, 0xFE, 0x03, 0xFE, 0x04, 0xFE, 0x05, 0xFE, 0x06, 0x02, 0x00, 0x00, 0x06,
    0xFE, 0x07, 0x02, 0x00, 0x00, 0x06, 0xFE, 0x09, 0x40, 0x9C, 0xFE, 0x0A, 0x40, 0x9C, 0xFE, 0x0B,
    0x40, 0x9C, 0xFE, 0x0C, 0x40, 0x9C, 0xFE, 0x0D, 0x40, 0x9C, 0xFE, 0x0E, 0x40, 0x9C, 0xFE, 0x1A,
    0x00, 0x2A,
];

// What the instructions are in the source that it was given.
const MNEMONICS: [Op; 173] = [
    Op::Nop,
    Op::Ldarg0,
    Op::Ldarg1,
    Op::Ldarg2,
    Op::Ldarg3,
    Op::Ldloc0,
    Op::Ldloc1,
    Op::Ldloc2,
    Op::Ldloc3,
    Op::Stloc0,
    Op::Stloc1,
    Op::Stloc2,
    Op::Stloc3,
    Op::LdargS,
    Op::LdargaS,
    Op::StargS,
    Op::LdlocS,
    Op::LdlocaS,
    Op::StlocS,
    Op::Ldnull,
    Op::LdcI4M1,
    Op::LdcI40,
    Op::LdcI41,
    Op::LdcI42,
    Op::LdcI43,
    Op::LdcI44,
    Op::LdcI45,
    Op::LdcI46,
    Op::LdcI47,
    Op::LdcI48,
    Op::LdcI4S,
    Op::LdcI4,
    Op::LdcI8,
    Op::Dup,
    Op::Pop,
    Op::Call,
    Op::Ret,
    Op::BrS,
    Op::BrfalseS,
    Op::BrtrueS,
    Op::BeqS,
    Op::BgeS,
    Op::BgtS,
    Op::BleS,
    Op::BltS,
    Op::BneUnS,
    Op::BgeUnS,
    Op::BgtUnS,
    Op::BleUnS,
    Op::BltUnS,
    Op::Br,
    Op::Brfalse,
    Op::Brtrue,
    Op::Beq,
    Op::Bge,
    Op::Bgt,
    Op::Ble,
    Op::Blt,
    Op::BneUn,
    Op::BgeUn,
    Op::BgtUn,
    Op::BleUn,
    Op::BltUn,
    Op::Switch,
    Op::LdindI1,
    Op::LdindU1,
    Op::LdindI2,
    Op::LdindU2,
    Op::LdindI4,
    Op::LdindU4,
    Op::LdindI8,
    Op::LdindRef,
    Op::StindRef,
    Op::StindI1,
    Op::StindI2,
    Op::StindI4,
    Op::StindI8,
    Op::Add,
    Op::Sub,
    Op::Mul,
    Op::Div,
    Op::DivUn,
    Op::Rem,
    Op::RemUn,
    Op::And,
    Op::Or,
    Op::Xor,
    Op::Shl,
    Op::Shr,
    Op::ShrUn,
    Op::Neg,
    Op::Not,
    Op::ConvI1,
    Op::ConvI2,
    Op::ConvI4,
    Op::ConvI8,
    Op::ConvU4,
    Op::ConvU8,
    Op::Callvirt,
    Op::Ldobj,
    Op::Ldstr,
    Op::Newobj,
    Op::Castclass,
    Op::Isinst,
    Op::Unbox,
    Op::Throw,
    Op::Ldfld,
    Op::Ldflda,
    Op::Stfld,
    Op::Ldsfld,
    Op::Ldsflda,
    Op::Stsfld,
    Op::ConvOvfI1Un,
    Op::ConvOvfI2Un,
    Op::ConvOvfI4Un,
    Op::ConvOvfI8Un,
    Op::ConvOvfU1Un,
    Op::ConvOvfU2Un,
    Op::ConvOvfU4Un,
    Op::ConvOvfU8Un,
    Op::Box,
    Op::Newarr,
    Op::Ldlen,
    Op::Ldelema,
    Op::LdelemI1,
    Op::LdelemU1,
    Op::LdelemI2,
    Op::LdelemU2,
    Op::LdelemI4,
    Op::LdelemU4,
    Op::LdelemI8,
    Op::LdelemRef,
    Op::StelemI1,
    Op::StelemI2,
    Op::StelemI4,
    Op::StelemI8,
    Op::StelemRef,
    Op::Ldelem,
    Op::Stelem,
    Op::UnboxAny,
    Op::ConvOvfI1,
    Op::ConvOvfU1,
    Op::ConvOvfI2,
    Op::ConvOvfU2,
    Op::ConvOvfI4,
    Op::ConvOvfU4,
    Op::ConvOvfI8,
    Op::ConvOvfU8,
    Op::ConvU2,
    Op::ConvU1,
    Op::AddOvf,
    Op::AddOvfUn,
    Op::MulOvf,
    Op::MulOvfUn,
    Op::SubOvf,
    Op::SubOvfUn,
    Op::Endfinally,
    Op::Leave,
    Op::LeaveS,
    Op::Ceq,
    Op::Cgt,
    Op::CgtUn,
    Op::Clt,
    Op::CltUn,
    Op::Ldftn,
    Op::Ldvirtftn,
    Op::Ldarg,
    Op::Ldarga,
    Op::Starg,
    Op::Ldloc,
    Op::Ldloca,
    Op::Stloc,
    Op::Rethrow,
];

#[test]
fn each_instruction_is_read_with_its_operand(rt: HostRuntime) -> Result<(), Fail> {
    let body = decode(rt.alloc(), &EACH, 0x4000)?;
    assert_eq!(rt;
        (body.max_stack, body.init_locals, body.size),
        (77, false, 390)
    );
    assert_eq!(rt; body.locals, Token(0));
    assert_eq!(rt; body.clauses.items().len(), 0);
    let code = body.code.items();
    assert_eq!(rt; code.len(), MNEMONICS.len() + 2);
    for ((place, instr), op) in code.iter().zip(MNEMONICS.iter()) {
        assert_eq!(rt; instr.op, *op, "at {place}");
        let (arg, targets) = operand_of(*op);
        if let Some(arg) = arg {
            assert_eq!(rt; instr.arg, arg, "{op:?}");
        }
        assert_eq!(rt; instr.targets.items().len(), targets, "{op:?}");
    }
    Ok(())
}

// The branches, which have one aim each.
const BRANCHES: [Op; 28] = [
    Op::BrS,
    Op::BrfalseS,
    Op::BrtrueS,
    Op::BeqS,
    Op::BgeS,
    Op::BgtS,
    Op::BleS,
    Op::BltS,
    Op::BneUnS,
    Op::BgeUnS,
    Op::BgtUnS,
    Op::BleUnS,
    Op::BltUnS,
    Op::LeaveS,
    Op::Br,
    Op::Brfalse,
    Op::Brtrue,
    Op::Beq,
    Op::Bge,
    Op::Bgt,
    Op::Ble,
    Op::Blt,
    Op::BneUn,
    Op::BgeUn,
    Op::BgtUn,
    Op::BleUn,
    Op::BltUn,
    Op::Leave,
];

// The number that the source gives an instruction, if it is one, and how many aims.
fn operand_of(op: Op) -> (Option<i64>, usize) {
    match op {
        Op::LdargS | Op::LdargaS | Op::StargS | Op::LdlocS | Op::LdlocaS | Op::StlocS => (
            Some(200),
            0,
        ),
        Op::Ldarg | Op::Ldarga | Op::Starg | Op::Ldloc | Op::Ldloca | Op::Stloc => (Some(40000), 0),
        Op::LdcI4S => (Some(-2), 0),
        Op::LdcI4 => (Some(-3), 0),
        Op::LdcI8 => (Some(-4), 0),
        Op::Switch => (Some(2), 2),
        _ if BRANCHES.contains(&op) => (None, 1),
        _ => (None, 0),
    }
}

#[test]
fn a_body_that_has_no_reading_has_its_fault(rt: HostRuntime) {
    let header = BodyCause::BadHeader;
    let cut = BodyCause::Truncated;
    let table: [(&[u8], BodyCause, u32); 14] = [
        (&[], header, 0),
        (&[0x04], header, 0),
        (&[0x13], header, 0),
        (&[0x13, 0x20, 0x08, 0x00], header, 0),
        (&[0x13, 0x30, 0x08], header, 2),
        (&[0x13, 0x30, 0x08, 0x00, 0x01, 0x00, 0x00], header, 4),
        (
            &[0x13, 0x30, 0x08, 0x00, 0x01, 0x00, 0x00, 0x00, 0x00],
            header,
            8,
        ),
        (&[0x0E, 0x00, 0x2A], cut, 3),
        (&[0x0E, 0x00, 0x20, 0x2A, 0x00, 0x00, 0x00], cut, 2),
        (&[0x06, 0xFE, 0x01], cut, 1),
        // A switch speaks of more cases than there can be.
        (&[0x1A, 0x00, 0x45, 0xFF, 0xFF, 0xFF, 0xFF], cut, 2),
        (&[0x06, 0xFF], BodyCause::BadOpcode(0xFF), 1),
        (&[0x0A, 0xFE, 0x08], BodyCause::BadOpcode(0xFE08), 1),
        (&[0x0A, 0x01, 0x2A], BodyCause::OutOfProfile(0x01), 1),
    ];
    for (file, cause, at) in table {
        assert!(rt; file.len() <= 64);
        refuses(&rt, rt.alloc(), file, cause, at);
    }
}

#[test]
fn an_aim_starts_an_instruction(rt: HostRuntime) {
    let table: [(&[u8], u32); 5] = [
        // To the code's end, into an instruction, before the code, and far behind it.
        (&[0x0A, 0x2B, 0x00], 1),
        (&[0x12, 0x2B, 0x01, 0x1F, 0x05], 1),
        (&[0x0E, 0x00, 0x2B, 0xFC], 2),
        (&[0x1A, 0x2A, 0x38, 0xFF, 0xFF, 0xFF, 0x7F], 2),
        // The second case of a switch.
        (&[0x3A, 0x45, 2, 0, 0, 0, 0, 0, 0, 0, 1, 0, 0, 0, 0x2A], 1),
    ];
    for (file, at) in table {
        assert!(rt; file.len() <= 64);
        refuses(&rt, rt.alloc(), file, BodyCause::BadTarget, at);
    }
}

#[test]
fn aims_count_from_the_next_instruction(rt: HostRuntime) -> Result<(), Fail> {
    let file = [
        0x4E, 0x00, 0x2B, 0xFD, 0x45, 0x02, 0x00, 0x00, 0x00, 0x01, 0x00, 0x00, 0x00, 0xF0, 0xFF,
        0xFF, 0xFF, 0x2A, 0x00, 0x2A,
    ];
    let body = decode(rt.alloc(), &file, 0x4000)?;
    assert!(rt; leads(&body, 1, 1, &[0]));
    assert!(rt; leads(&body, 2, 3, &[17, 0]));
    Ok(())
}

// Whether the instruction of this number stands at this place and leads to those.
fn leads(body: &Body, number: usize, place: u32, targets: &[u32]) -> bool {
    match body.code.items().get(number) {
        Some((at, instr)) => *at == place && instr.targets.items() == targets,
        None => false,
    }
}

#[test]
fn code_is_no_longer_than_the_limit(rt: HostRuntime) -> Result<(), Fail> {
    let file = [0x0A, 0x00, 0x2A];
    let body = decode(rt.alloc(), &file, 2)?;
    assert_eq!(rt;
        (body.max_stack, body.size, body.code.items().len()),
        (8, 2, 2)
    );
    let fault = fault_of(rt.alloc(), &file, 1);
    assert_eq!(rt;
        fault,
        Some(BodyFault {
            cause: BodyCause::TooLong,
            at: 0
        })
    );
    Ok(())
}

fn fault_of(alloc: Global, file: &[u8], limit: u32) -> Option<BodyFault>
    requires { length file.now ≤ 64 }
{
    match decode(alloc, file, limit) {
        Err(Or::Fault(fault)) => Some(fault),
        _ => None,
    }
}

fn refuses(rt: &impl Abort, alloc: Global, file: &[u8], cause: BodyCause, at: u32)
    requires { length file.now ≤ 64 }
{
    let fault = fault_of(alloc, file, 0x4000);
    assert!(rt;
        fault == Some(BodyFault { cause, at }),
        "{cause:?} at {at}, and not {fault:?}"
    );
}
