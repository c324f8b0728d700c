// Fields at places of some bytes.

ghost use Rattle.std.specs.Prelude.{◌≡◌, ◌≤◌, ◌<◌, ◌+◌, ◌^◌, length, take, drop, position, ◌==◌, OnOk, IfOk, IfSome};
ghost use Rattle.cli_metadata.specs.Reading.{behind, number_at, holds};

use crate::{MetaCause, MetaFault};
use byteorder::{ByteOrder, LittleEndian};

// The place behind `n` bytes at a place.
pub(crate) fn behind(
    bytes: &[u8],
    at: usize,
    n: usize,
    cause: MetaCause,
) -> Result<usize, MetaFault>
    requires place { at < 2 ^ 32 }
    requires few { n < 2 ^ 40 }
    ensures place { result ≡ behind cause n bytes.now at }
    ensures whole { IfOk result (λ end. (end ≡ at + n) × (end ≤ length bytes.now)) }
{
    if bytes.len() < at + n {
        return Err(fault(cause, at));
    }
    Ok(at + n)
}

pub(crate) fn u8_at(bytes: &[u8], at: usize, cause: MetaCause) -> Result<u8, MetaFault>
    requires { at < 2 ^ 32 }
    ensures number { result ≡ number_at cause 1 bytes.now at }
    ensures whole { OnOk result (at + 1 ≤ length bytes.now) }
{
    if bytes.len() < at + 1 {
        return Err(fault(cause, at));
    }
    Ok(bytes[at])
}

pub(crate) fn u16_at(bytes: &[u8], at: usize, cause: MetaCause) -> Result<u16, MetaFault>
    requires { at < 2 ^ 32 }
    ensures number { result ≡ number_at cause 2 bytes.now at }
    ensures whole { OnOk result (at + 2 ≤ length bytes.now) }
{
    if bytes.len() < at + 2 {
        return Err(fault(cause, at));
    }
    Ok(LittleEndian::read_u16(&bytes[at..]))
}

pub(crate) fn u32_at(bytes: &[u8], at: usize, cause: MetaCause) -> Result<u32, MetaFault>
    requires { at < 2 ^ 32 }
    ensures number { result ≡ number_at cause 4 bytes.now at }
    ensures whole { OnOk result (at + 4 ≤ length bytes.now) }
{
    if bytes.len() < at + 4 {
        return Err(fault(cause, at));
    }
    Ok(LittleEndian::read_u32(&bytes[at..]))
}

pub(crate) fn u64_at(bytes: &[u8], at: usize, cause: MetaCause) -> Result<u64, MetaFault>
    requires { at < 2 ^ 32 }
    ensures number { result ≡ number_at cause 8 bytes.now at }
    ensures whole { OnOk result (at + 8 ≤ length bytes.now) }
{
    if bytes.len() < at + 8 {
        return Err(fault(cause, at));
    }
    Ok(LittleEndian::read_u64(&bytes[at..]))
}

// The bytes from a place on.
pub(crate) fn rest(bytes: &[u8], at: usize) -> &[u8]
    requires { at ≤ length bytes.now }
    ensures { result.now ≡ drop at bytes.now }
{
    &bytes[at..]
}

// The first `n` bytes, or all where there are fewer.
pub(crate) fn front(bytes: &[u8], n: usize) -> &[u8]
    ensures front { result.now ≡ take n bytes.now }
    ensures short { length result.now ≤ n }
    ensures long { n ≤ length bytes.now → length result.now ≡ n }
{
    if bytes.len() < n { bytes } else { &bytes[..n] }
}

// How many bytes stand before the first zero.
pub(crate) fn zero_in(bytes: &[u8]) -> Option<usize>
    ensures zero { result ≡ position (λ b. b == 0) bytes.now }
    ensures within { IfSome result (λ n. n < length bytes.now) }
{
    bytes.iter().position(|b| *b == 0)
}

// A fault at a place, unless what is said there holds.
pub(crate) fn check(is_so: bool, at: usize, cause: MetaCause) -> Result<usize, MetaFault>
    requires { at < 2 ^ 32 }
    ensures { result ≡ holds is_so cause at }
{
    if is_so { Ok(at) } else { Err(fault(cause, at)) }
}

pub(crate) fn fault(cause: MetaCause, at: usize) -> MetaFault
    requires { at < 2 ^ 32 }
    ensures { result ≡ record { cause = cause; place = at } }
{
    MetaFault {
        cause,
        place: at as u32,
    }
}
