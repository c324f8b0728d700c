// A type in a signature.

ghost use Rattle.std.specs.Prelude.{◌≡◌, ◌≤◌, ◌<◌, ◌^◌, length, drop, slice_index, false, IfOk, IfErr};
ghost use Rattle.cli_signature.specs.Grammar.{IsReference, IsWayWord, token_of};
ghost use Rattle.cli_signature.specs.Reading.{ReadsWay, IsFaultAt, IsMark};

use crate::element::{Part, look_up};
use crate::kind::Slot;
use crate::number::number;
use crate::{RawTy, SigFault};
use dc_base::Token;

// The type that stands at `at`, and the place after it.
pub fn ty(blob: &[u8], at: usize, slot: Slot) -> Result<(RawTy, usize), SigFault>
    requires within { at ≤ length blob.now }
    requires short { length blob.now ≤ 2 ^ 31 }
    ensures read { IfOk result (λ found. ReadsWay slot blob.now at found.0 found.1) }
    ensures fault { IfErr result (IsFaultAt (IsWayWord slot) at (drop at blob.now)) }
{
    let mut place = at;
    let mut slot = slot;
    let mut arrays: u8 = 0;
    let mut lent = false;
    while place < blob.len() {
        match look_up(blob[place]) {
            Part::SzArray => arrays = arrays.saturating_add(1),
            Part::ByRef if slot.takes_ref() => lent = true,
            _ => {
                let (found, after) = unmarked(blob, place, slot)?;
                return Ok((
                    RawTy {
                        arrays,
                        lent,
                        ..found
                    },
                    after,
                ));
            }
        }
        slot = Slot::Behind;
        place += 1;
    }
    Err(SigFault::Truncated(blob.len() as u32))
}

// The type that stands at `at`, where no BYREF or SZARRAY stands, and the place after it.
fn unmarked(blob: &[u8], at: usize, slot: Slot) -> Result<(RawTy, usize), SigFault>
    requires within { at < length blob.now }
    requires short { length blob.now ≤ 2 ^ 31 }
    requires bare { IsMark slot (slice_index blob.now at) → ⊥ }
    ensures read { IfOk result (λ found. ReadsWay slot blob.now at found.0 found.1) }
    ensures arrays { IfOk result (λ found. found.0.arrays ≡ 0) }
    ensures lent { IfOk result (λ found. found.0.lent ≡ false) }
    ensures fault { IfErr result (IsFaultAt (IsWayWord slot) at (drop at blob.now)) }
{
    let element = blob[at];
    match look_up(element) {
        Part::Plain => Ok((bare(element, 0), at + 1)),
        Part::Void if slot.takes_void() => Ok((bare(element, 0), at + 1)),
        Part::Named => {
            let (n, after) = number(blob, at + 1, true)?;
            Ok((bare(element, token(n)), after))
        }
        Part::LeftOut => Err(SigFault::OutOfProfile(at as u32, element)),
        _ => Err(SigFault::BadElement(at as u32, element)),
    }
}

fn bare(element: u8, token: u32) -> RawTy
    ensures { result ≡ record { element = element; token = record { 0 = token }; arrays = 0; lent = false } }
{
    RawTy {
        element,
        token: Token(token),
        arrays: 0,
        lent: false,
    }
}

// The token of a number that names a type.
fn token(n: u32) -> u32
    requires { IsReference n }
    ensures { result ≡ token_of n }
{
    let table = match n % 4 {
        0 => 0x02,
        1 => 0x01,
        _ => 0x1B,
    };
    table * 0x100_0000 + n / 4
}
