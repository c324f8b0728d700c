// Constants, and operators and conversions of them.

ghost use Rattle.std.specs.Prelude.{◌≡◌};
ghost use Rattle.cli_heads.specs.Constant.{constant_of, null_of, low_bits, in_slot, is_out_of_range, is_by_zero, read_as, fits};

use cil_rows::{Operator, Row};
use dc_base::Prim_;

/// A value that is the same whenever it is computed: an integer of 32 or of 64 bits as a slot holds it, a text, or null. A
/// truth is 0 or 1.
#[derive(Clone, Copy, Debug, PartialEq, Eq)]
pub enum Constant {
    Int(i32),
    Long(i64),
    Text,
    Null,
}

/// The constant that the row makes of its first operand, where it makes one.
pub(crate) fn constant_of(row: &Row, operand: Option<Constant>) -> Option<Constant>
    ensures { result ≡ constant_of row.now operand }
{
    match row {
        Row::Truth(truth) => Some(Constant::Int(if *truth { 1 } else { 0 })),
        Row::Int(n) => Some(Constant::Int(*n)),
        Row::Long(n) => Some(Constant::Long(*n)),
        Row::Text(_) => Some(Constant::Text),
        Row::Null => Some(Constant::Null),
        Row::Convert { to, unsigned, .. } => Some(in_slot(*to, low_bits(*unsigned, operand?)?)),
        Row::Cast(_) | Row::UnboxAny(_) => null_of(operand),
        _ => None,
    }
}

fn null_of(operand: Option<Constant>) -> Option<Constant>
    ensures { result ≡ null_of operand }
{
    match operand {
        Some(Constant::Null) => Some(Constant::Null),
        _ => None,
    }
}

// The 64 bits of an integer that is extended with its sign or with zeros.
fn low_bits(unsigned: bool, constant: Constant) -> Option<u64>
    ensures { result ≡ low_bits unsigned constant }
{
    match constant {
        Constant::Int(n) if unsigned => Some(u64::from(n.cast_unsigned())),
        Constant::Int(n) => Some(i64::from(n).cast_unsigned()),
        Constant::Long(n) => Some(n.cast_unsigned()),
        _ => None,
    }
}

// What a slot holds of the low bits that an integer of this type has.
fn in_slot(to: Prim_, bits: u64) -> Constant
    ensures { result ≡ in_slot to bits }
{
    match to {
        Prim_::I1 => Constant::Int(i32::from(((bits & 0xFF) as u8).cast_signed())),
        Prim_::Bool | Prim_::U1 => Constant::Int((bits & 0xFF) as i32),
        Prim_::I2 => Constant::Int(i32::from(((bits & 0xFFFF) as u16).cast_signed())),
        Prim_::Char | Prim_::U2 => Constant::Int((bits & 0xFFFF) as i32),
        Prim_::I4 | Prim_::U4 => Constant::Int(((bits & 0xFFFF_FFFF) as u32).cast_signed()),
        Prim_::I8 | Prim_::U8 => Constant::Long(bits.cast_signed()),
    }
}

/// Whether a checked conversion is of a constant that doesn't fit.
pub(crate) fn is_out_of_range(row: &Row, operand: Option<Constant>) -> bool
    ensures { result ≡ is_out_of_range row.now operand }
{
    let Row::Convert {
        to,
        unsigned,
        checked: true,
    } = row
    else {
        return false;
    };
    let Some(constant) = operand else {
        return false;
    };
    match read_as(*unsigned, constant) {
        Some(n) => !fits(*to, n),
        None => false,
    }
}

// An integer, read with its sign or without.
fn read_as(unsigned: bool, constant: Constant) -> Option<i128>
    ensures { result ≡ read_as unsigned constant }
{
    match constant {
        Constant::Int(n) if unsigned => Some(i128::from(n.cast_unsigned())),
        Constant::Int(n) => Some(i128::from(n)),
        Constant::Long(n) if unsigned => Some(i128::from(n.cast_unsigned())),
        Constant::Long(n) => Some(i128::from(n)),
        _ => None,
    }
}

fn fits(to: Prim_, n: i128) -> bool
    ensures { result ≡ fits to n }
{
    match to {
        Prim_::I1 => (-0x80..=0x7F).contains(&n),
        Prim_::Bool | Prim_::U1 => (0..=0xFF).contains(&n),
        Prim_::I2 => (-0x8000..=0x7FFF).contains(&n),
        Prim_::Char | Prim_::U2 => (0..=0xFFFF).contains(&n),
        Prim_::I4 => (-0x8000_0000..=0x7FFF_FFFF).contains(&n),
        Prim_::U4 => (0..=0xFFFF_FFFF).contains(&n),
        Prim_::I8 => (-0x8000_0000_0000_0000..=0x7FFF_FFFF_FFFF_FFFF).contains(&n),
        Prim_::U8 => (0..=0xFFFF_FFFF_FFFF_FFFF).contains(&n),
    }
}

/// Whether a quotient or a remainder is by a constant zero.
pub(crate) fn is_by_zero(row: &Row, divisor: Option<Constant>) -> bool
    ensures { result ≡ is_by_zero row.now divisor }
{
    let Row::Arithmetic { op, .. } = row else {
        return false;
    };
    matches!(op, Operator::Div | Operator::Rem)
        && matches!(divisor, Some(Constant::Int(0) | Constant::Long(0)))
}
