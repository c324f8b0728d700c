// What the instructions of a lone body do.

ghost use Rattle.std.specs.Prelude.{◌≡◌};
ghost use Rattle.cil_lone.specs.Row.{row_of, size_of};

use cil_instruction::Op;

/// What an instruction of a lone body does, apart from the values that it does it with.
#[derive(Clone, Copy, Debug, PartialEq, Eq)]
pub enum Row {
    Load(Source),
    Binary(Two),
    Return,
    /// No lone body has the instruction.
    Beyond,
}

/// Where a load takes its value: an argument, a number that the mnemonic names, or the operand.
#[derive(Clone, Copy, Debug, PartialEq, Eq)]
pub enum Source {
    Argument(u8),
    Number(i32),
    Operand,
}

/// An operator on the two topmost slots.
#[derive(Clone, Copy, Debug, PartialEq, Eq)]
pub enum Two {
    Add,
    Sub,
    Mul,
}

impl Row {
    /// What the instruction does in a lone body.
    pub fn of(op: Op) -> Row
        ensures { result ≡ row_of op }
    {
        match op {
            Op::Ldarg0 => Row::Load(Source::Argument(0)),
            Op::Ldarg1 => Row::Load(Source::Argument(1)),
            Op::Ldarg2 => Row::Load(Source::Argument(2)),
            Op::Ldarg3 => Row::Load(Source::Argument(3)),
            Op::LdcI4M1 => Row::Load(Source::Number(-1)),
            Op::LdcI40 => Row::Load(Source::Number(0)),
            Op::LdcI41 => Row::Load(Source::Number(1)),
            Op::LdcI42 => Row::Load(Source::Number(2)),
            Op::LdcI43 => Row::Load(Source::Number(3)),
            Op::LdcI44 => Row::Load(Source::Number(4)),
            Op::LdcI45 => Row::Load(Source::Number(5)),
            Op::LdcI46 => Row::Load(Source::Number(6)),
            Op::LdcI47 => Row::Load(Source::Number(7)),
            Op::LdcI48 => Row::Load(Source::Number(8)),
            Op::LdcI4S | Op::LdcI4 => Row::Load(Source::Operand),
            Op::Add => Row::Binary(Two::Add),
            Op::Sub => Row::Binary(Two::Sub),
            Op::Mul => Row::Binary(Two::Mul),
            Op::Ret => Row::Return,
            _ => Row::Beyond,
        }
    }
}

/// The bytes of an instruction of a lone body: its opcode of one byte, and its operand. For other instructions the
/// number means nothing.
pub fn size_of(op: Op) -> usize
    ensures { result ≡ size_of op }
{
    match op {
        Op::LdcI4S => 2,
        Op::LdcI4 => 5,
        _ => 1,
    }
}
