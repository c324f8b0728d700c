// One instruction.

ghost use Rattle.std.specs.Prelude.{◌≡◌, ◌≤◌, ◌<◌, ◌+◌, ◌^◌, length, drop, IfOk, IfErr, IsOkAnd};
ghost use Rattle.cil_instruction.specs.Opcode.{operand_len, entry_of};
ghost use Rattle.cil_instruction.specs.Instruction.{number_of, operand_size, instruction_at, prefixed, with_code, cause_of};

use crate::fault::{BodyCause, BodyFault};
use crate::opcode::{LEFT_OUT, Op, Operand, PREFIX, TABLE};
use byteorder::{ByteOrder, LittleEndian};
use dc_base::Seq;

/// An instruction with the number that its operand spells, or 0 where it has none. For a branch it says how far it goes
/// from the next instruction on, for a switch how many cases it has.
#[derive(Clone, Copy, Debug, PartialEq, Eq)]
pub struct Simple {
    pub op: Op,
    pub arg: i64,
}

/// An instruction with the number that its operand spells, as in [`Simple`], and the places in the code that it
/// may lead to besides the next one: the aim of a branch, or those of a switch.
#[derive(Debug, Drop)]
pub struct Instr {
    pub op: Op,
    pub arg: i64,
    pub targets: Seq<u32>,
}

/// An instruction in the bytes of some code: which one, the kind of its operand, and its size in bytes.
#[derive(Clone, Copy, Debug, PartialEq, Eq)]
pub struct Found {
    pub simple: Simple,
    pub operand: Operand,
    pub size: usize,
}

/// The instruction that stands at `at` in some code, and the place after it.
pub fn next(bytes: &[u8], at: usize) -> Result<(Simple, usize), BodyFault>
    requires within { at ≤ length bytes.now }
    requires short { length bytes.now ≤ 2 ^ 31 }
    ensures found { IfOk result (λ found. IsOkAnd (instruction_at (drop at bytes.now)) (λ read. (found.0 ≡ read.simple) × (found.1 ≡ at + read.size))) }
    ensures ends { IfOk result (λ found. found.1 ≤ length bytes.now) }
    ensures cause { IfErr result (λ fault. instruction_at (drop at bytes.now) ≡ Err fault.cause) }
    ensures place { IfErr result (λ fault. fault.at ≡ at) }
{
    match first(&bytes[at..]) {
        Ok(found) => Ok((found.simple, at + found.size)),
        Err(cause) => Err(BodyFault {
            cause,
            at: at as u32,
        }),
    }
}

/// The instruction that the bytes begin with.
pub fn first(bytes: &[u8]) -> Result<Found, BodyCause>
    requires { length bytes.now ≤ 2 ^ 31 }
    ensures read { result ≡ instruction_at bytes.now }
    ensures some { IfOk result (λ found. 0 < found.size) }
    ensures within { IfOk result (λ found. found.size ≤ length bytes.now) }
{
    let [code, behind @ ..] = bytes else {
        return Err(BodyCause::Truncated);
    };
    if *code == PREFIX {
        prefixed(behind)
    } else {
        with_code(1, u16::from(*code), behind)
    }
}

// The instruction with an opcode of two bytes, where these stand behind the prefix.
fn prefixed(bytes: &[u8]) -> Result<Found, BodyCause>
    requires { length bytes.now ≤ 2 ^ 31 }
    ensures { result ≡ prefixed bytes.now }
{
    let [code, behind @ ..] = bytes else {
        return Err(BodyCause::Truncated);
    };
    with_code(2, 0xFE00 + u16::from(*code), behind)
}

// The instruction with this opcode of so many bytes, and these bytes behind it.
fn with_code(len: usize, code: u16, behind: &[u8]) -> Result<Found, BodyCause>
    requires short { length behind.now ≤ 2 ^ 31 }
    requires one_or_two { len ≤ 2 }
    ensures { result ≡ with_code len code behind.now }
{
    let Some((_, op, operand)) = entry(code) else {
        return Err(refused(code));
    };
    if behind.len() < operand.len() {
        return Err(BodyCause::Truncated);
    }
    let size = size_of(operand, behind);
    if behind.len() < size {
        return Err(BodyCause::Truncated);
    }
    let arg = number(operand, behind);
    Ok(Found {
        simple: Simple { op, arg },
        operand,
        size: len + size,
    })
}

/// The table's line for an opcode: the opcode, its mnemonic and its operand.
pub fn entry(code: u16) -> Option<(u16, Op, Operand)>
    ensures { result ≡ entry_of code }
{
    TABLE.iter().find(|line| line.0 == code).copied()
}

// Why an opcode isn't taken.
fn refused(code: u16) -> BodyCause
    ensures { result ≡ cause_of code }
{
    if LEFT_OUT.contains(&code) {
        BodyCause::OutOfProfile(code)
    } else {
        BodyCause::BadOpcode(code)
    }
}

// The bytes of an operand, a switch's cases included.
fn size_of(operand: Operand, bytes: &[u8]) -> usize
    requires { operand_len operand ≤ length bytes.now }
    ensures { result ≡ operand_size operand bytes.now }
{
    match operand {
        Operand::Switch => 4 + 4 * LittleEndian::read_u32(bytes) as usize,
        other => other.len(),
    }
}

/// The number that an operand's bytes spell, or 0 where there are none.
pub fn number(operand: Operand, bytes: &[u8]) -> i64
    requires { operand_len operand ≤ length bytes.now }
    ensures { result ≡ number_of operand bytes.now }
{
    match operand {
        Operand::Absent => 0,
        Operand::Var8 => i64::from(bytes[0]),
        Operand::Var16 => i64::from(LittleEndian::read_u16(bytes)),
        Operand::Int8 | Operand::Target8 => i64::from(bytes[0].cast_signed()),
        Operand::Int32 | Operand::Target32 => i64::from(LittleEndian::read_i32(bytes)),
        Operand::Int64 => LittleEndian::read_i64(bytes),
        Operand::Token | Operand::Switch => i64::from(LittleEndian::read_u32(bytes)),
    }
}
