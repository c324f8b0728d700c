// Bodies with a fat header, made for the tests.

ghost use Rattle.std.specs.Prelude.{◌≤◌, length};

use std::alloc::{AllocError, Global};

// A clause in the standard's order: its kind, the place and the length of its try, those of its handler, and its class.
pub type Numbers = [u32; 6];

// The bytes of a body with a fat header and this code.
pub fn fat_body(alloc: Global, code: &[u8], flags: u8) -> Result<Vec<u8>, AllocError>
    requires { length code.now ≤ 1024 }
{
    let mut bytes = Vec::new(alloc);
    bytes.extend_from_slice(&[flags, 0x30, 0x08, 0x00])?;
    bytes.extend_from_slice(&(code.len() as u32).to_le_bytes())?;
    bytes.extend_from_slice(&[0x00, 0x00, 0x00, 0x00])?;
    bytes.extend_from_slice(code)?;
    Ok(bytes)
}

// The same, with a fat section of these clauses behind it.
pub fn guarded(alloc: Global, code: &[u8], clauses: &[Numbers]) -> Result<Vec<u8>, AllocError>
    requires code { length code.now ≤ 1024 }
    requires clauses { length clauses.now ≤ 1024 }
{
    let mut bytes = fat_body(alloc, code, 0x0B)?;
    let padding = 3 - (code.len() + 3) % 4;
    bytes.extend_from_slice(&[0x00, 0x00, 0x00][..padding])?;
    let size = 4 + 24 * clauses.len() as u32;
    bytes.extend_from_slice(&(0x41 + size * 0x100).to_le_bytes())?;
    for clause in clauses {
        for number in clause {
            bytes.extend_from_slice(&number.to_le_bytes())?;
        }
    }
    Ok(bytes)
}
