// The numbers in a signature: counts, and the numbers of types.

ghost use Rattle.std.specs.Prelude.{◌≡◌, ◌≤◌, ◌<◌, ◌^◌, ◌↔◌, IsTrue, length, drop, IfOk, IfErr};
ghost use Rattle.cli_signature.specs.Grammar.{IsReference};
ghost use Rattle.cli_signature.specs.Reading.{ReadsNumber, IsFaultAt, IsNumberWord, IsNumberStop, BeginsWithNoSuch, top_of};

use crate::SigFault;
use dc_base::compressed;

// The number that stands at `at`, which is to be the number of a type if it is a `reference`, and the
// place after it.
pub fn number(blob: &[u8], at: usize, reference: bool) -> Result<(u32, usize), SigFault>
    requires within { at ≤ length blob.now }
    requires short { length blob.now ≤ 2 ^ 31 }
    ensures read { IfOk result (λ found. ReadsNumber reference blob.now at found.0 found.1) }
    ensures fault { IfErr result (IsFaultAt (IsNumberWord reference) at (drop at blob.now)) }
{
    let bytes = &blob[at..];
    if let Some((n, len)) = compressed(bytes)
        && (!reference || is_reference(n))
    {
        return Ok((n, at + len));
    }
    let stop = number_stop(bytes, reference);
    match bytes.get(stop) {
        Some(byte) => Err(SigFault::BadElement((at + stop) as u32, *byte)),
        None => Err(SigFault::Truncated(blob.len() as u32)),
    }
}

// Whether a number is that of a type.
fn is_reference(n: u32) -> bool
    ensures { IsTrue result ↔ IsReference n }
{
    n < 0x400_0000 && n % 4 != 3
}

// The place of the first byte with which no such number goes on, if the bytes have that place.
fn number_stop(bytes: &[u8], reference: bool) -> usize
    requires { BeginsWithNoSuch reference bytes.now }
    ensures { IsNumberStop reference bytes.now result }
{
    let [first, behind @ ..] = bytes else {
        return 0;
    };
    let first = *first;
    if first < 0x80 || top(reference) <= first {
        return 0;
    }
    let [second, behind @ ..] = behind else {
        return 1;
    };
    let second = *second;
    if first < 0xC0 {
        return 1;
    }
    let [third, ..] = behind else {
        return 2;
    };
    let third = *third;
    if first == 0xC0 && second == 0 && third < 0x40 {
        return 2;
    }
    3
}

// The first byte from which on none begins such a number, but for those below 80.
fn top(reference: bool) -> u8
    ensures { result ≡ top_of reference }
{
    if reference { 0xC4 } else { 0xE0 }
}
