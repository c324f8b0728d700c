// The header of a body.

ghost use Rattle.std.specs.Prelude.{◌≡◌, ◌≤◌, ◌^◌, ◌%◌, length, slice_index, IfOk, IfErr};
ghost use Rattle.cil_body.specs.Header.{tiny_of, IsHeader, IsBadHeader};
ghost use Rattle.cil_instruction.specs.declared.fault.BodyCause.TheVariants.{BadHeader};

use byteorder::{ByteOrder, LittleEndian};
use cil_instruction::{BodyCause, BodyFault};
use dc_base::Token;

/// What a body's header says (ECMA-335 II.25.4.2, II.25.4.3): where the code begins, counted from the header's first
/// byte, how many bytes it has, and what it needs.
#[derive(Clone, Copy, Debug)]
pub struct Header {
    pub start: usize,
    pub size: u32,
    pub max_stack: u16,
    pub init_locals: bool,
    pub locals: Token,
    pub has_sections: bool,
}

/// The stack that a body with a tiny header may use, in slots.
const TINY_STACK: u16 = 8;

/// The header that the bytes begin with.
pub fn header_of(bytes: &[u8]) -> Result<Header, BodyFault>
    requires { length bytes.now ≤ 2 ^ 31 }
    ensures read { IfOk result (IsHeader bytes.now) }
    ensures cause { IfErr result (λ fault. fault.cause ≡ BadHeader) }
    ensures place { IfErr result (λ fault. IsBadHeader bytes.now fault.at) }
{
    let [first, ..] = bytes else {
        return Err(bad_header(0));
    };
    match *first % 4 {
        2 => Ok(tiny(*first)),
        3 => fat(bytes),
        _ => Err(bad_header(0)),
    }
}

fn bad_header(at: u32) -> BodyFault
    ensures cause { result.cause ≡ BadHeader }
    ensures place { result.at ≡ at }
{
    BodyFault {
        cause: BodyCause::BadHeader,
        at,
    }
}

fn tiny(first: u8) -> Header
    ensures { result ≡ tiny_of first }
{
    Header {
        start: 1,
        size: u32::from(first / 4),
        max_stack: TINY_STACK,
        init_locals: false,
        locals: Token(0),
        has_sections: false,
    }
}

// The fat header that the bytes begin with, whose first byte says that it is one.
fn fat(bytes: &[u8]) -> Result<Header, BodyFault>
    requires some { 1 ≤ length bytes.now }
    requires form { slice_index bytes.now 0 % 4 ≡ 3 }
    ensures read { IfOk result (IsHeader bytes.now) }
    ensures cause { IfErr result (λ fault. fault.cause ≡ BadHeader) }
    ensures place { IfErr result (λ fault. IsBadHeader bytes.now fault.at) }
{
    if bytes.len() < 2 {
        return Err(bad_header(0));
    }
    let flags = LittleEndian::read_u16(bytes);
    if flags / 0x1000 != 3 {
        return Err(bad_header(0));
    }
    // The fields behind the flags, of which the first that the bytes don't hold whole is at fault.
    match bytes.len() {
        0..4 => Err(bad_header(2)),
        4..8 => Err(bad_header(4)),
        8..12 => Err(bad_header(8)),
        _ => Ok(Header {
            start: 12,
            size: LittleEndian::read_u32(&bytes[4..]),
            max_stack: LittleEndian::read_u16(&bytes[2..]),
            init_locals: flags & 0x10 != 0,
            locals: Token(LittleEndian::read_u32(&bytes[8..])),
            has_sections: flags & 0x8 != 0,
        }),
    }
}
