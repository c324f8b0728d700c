// What the bytes of a constant say.

ghost use Rattle.std.specs.Prelude.{◌≡◌, IfOk};
ghost use Rattle.cli_constants.specs.Values.{literal_of, number_in, number_literal, null_in, unsigned, signed, units_in, text_in};

use byteorder::{ByteOrder, LittleEndian};
use class_rows::Literal;
use dc_base::{NoMemory, Text16};
use std::alloc::Global;

/// The value of a constant of this element type with these bytes; none where they are no value of it, or it is one that is
/// left out.
pub fn literal_of(alloc: Global, element: u32, bytes: &[u8]) -> Result<Option<Literal>, NoMemory>
    ensures { IfOk result (λ value. value ≡ literal_of element bytes.now) }
{
    match element {
        0x0E => text(alloc, bytes),
        0x12 => Ok(null(bytes)),
        _ => Ok(as_literal(number(element, bytes))),
    }
}

fn as_literal(number: Option<i128>) -> Option<Literal>
    ensures { result ≡ number_literal number }
{
    match number {
        Some(number) => Some(Literal::Number(number)),
        None => None,
    }
}

// BOOLEAN to U8, of as many bytes as the element has.
fn number(element: u32, bytes: &[u8]) -> Option<i128>
    ensures { result ≡ number_in element bytes.now }
{
    match element {
        0x02 | 0x05 => unsigned_1(bytes),
        0x03 | 0x07 => unsigned_2(bytes),
        0x04 => signed_1(bytes),
        0x06 => signed_2(bytes),
        0x08 => signed_4(bytes),
        0x09 => unsigned_4(bytes),
        0x0A => signed_8(bytes),
        0x0B => unsigned_8(bytes),
        _ => None,
    }
}

fn unsigned_1(bytes: &[u8]) -> Option<i128>
    ensures { result ≡ unsigned bytes.now 1 }
{
    if bytes.len() != 1 {
        return None;
    }
    Some(i128::from(bytes[0]))
}

fn unsigned_2(bytes: &[u8]) -> Option<i128>
    ensures { result ≡ unsigned bytes.now 2 }
{
    if bytes.len() != 2 {
        return None;
    }
    Some(i128::from(LittleEndian::read_u16(bytes)))
}

fn unsigned_4(bytes: &[u8]) -> Option<i128>
    ensures { result ≡ unsigned bytes.now 4 }
{
    if bytes.len() != 4 {
        return None;
    }
    Some(i128::from(LittleEndian::read_u32(bytes)))
}

fn unsigned_8(bytes: &[u8]) -> Option<i128>
    ensures { result ≡ unsigned bytes.now 8 }
{
    if bytes.len() != 8 {
        return None;
    }
    Some(i128::from(LittleEndian::read_u64(bytes)))
}

fn signed_1(bytes: &[u8]) -> Option<i128>
    ensures { result ≡ signed bytes.now 1 }
{
    if bytes.len() != 1 {
        return None;
    }
    Some(i128::from(bytes[0].cast_signed()))
}

fn signed_2(bytes: &[u8]) -> Option<i128>
    ensures { result ≡ signed bytes.now 2 }
{
    if bytes.len() != 2 {
        return None;
    }
    Some(i128::from(LittleEndian::read_i16(bytes)))
}

fn signed_4(bytes: &[u8]) -> Option<i128>
    ensures { result ≡ signed bytes.now 4 }
{
    if bytes.len() != 4 {
        return None;
    }
    Some(i128::from(LittleEndian::read_i32(bytes)))
}

fn signed_8(bytes: &[u8]) -> Option<i128>
    ensures { result ≡ signed bytes.now 8 }
{
    if bytes.len() != 8 {
        return None;
    }
    Some(i128::from(LittleEndian::read_i64(bytes)))
}

fn null(bytes: &[u8]) -> Option<Literal>
    ensures { result ≡ null_in bytes.now }
{
    if bytes == [0, 0, 0, 0].as_slice() {
        Some(Literal::NullText)
    } else {
        None
    }
}

// A text's units, two bytes each, the low one first.
fn text(alloc: Global, bytes: &[u8]) -> Result<Option<Literal>, NoMemory>
    ensures { IfOk result (λ value. value ≡ text_in (units_in bytes.now)) }
{
    let mut units = Vec::new(alloc);
    let mut rest = bytes;
    while let [low, high, behind @ ..] = rest {
        units.push(u16::from(*low) + 256 * u16::from(*high))?;
        rest = behind;
    }
    if !rest.is_empty() {
        return Ok(None);
    }
    Ok(Some(Literal::Text(Text16::of(alloc, units.as_slice())?)))
}
