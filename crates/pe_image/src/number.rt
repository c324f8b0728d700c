// Numbers in a file, the least byte first.

ghost use Rattle.std.specs.Prelude.{◌<◌, ◌≤◌, ◌+◌, length, IfSome, IfNone};
ghost use Rattle.pe_image.specs.Number.{IsU16, IsU32};

use byteorder::{ByteOrder, LittleEndian};

// The number in the two bytes from `place` on, which the file has.
pub fn read_u16(file: &[u8], place: usize) -> u16
    requires { place + 2 ≤ length file.now }
    ensures { IsU16 file.now place result }
{
    LittleEndian::read_u16(&file[place..])
}

// The number in the two bytes from `place` on, unless they pass the file's end.
pub fn u16_at(file: &[u8], place: usize) -> Option<u16>
    ensures found { IfSome result (IsU16 file.now place) }
    ensures past { IfNone result (length file.now < place + 2) }
{
    let bytes = file.get(place..)?;
    if bytes.len() < 2 {
        return None;
    }
    Some(LittleEndian::read_u16(bytes))
}

// The number in the four bytes from `place` on, unless they pass the file's end.
pub fn u32_at(file: &[u8], place: usize) -> Option<u32>
    ensures found { IfSome result (IsU32 file.now place) }
    ensures past { IfNone result (length file.now < place + 4) }
{
    let bytes = file.get(place..)?;
    if bytes.len() < 4 {
        return None;
    }
    Some(LittleEndian::read_u32(bytes))
}
