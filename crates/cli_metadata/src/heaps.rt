// Items of heaps.

ghost use Rattle.std.specs.Prelude.{◌≡◌, ◌≤◌, ◌<◌, ◌+◌, ◌^◌, ◌%◌, length, take, drop, IfOk, IfErr, option_map};
ghost use Rattle.cli_metadata.specs.Metadata.{IsString, IsNoString, IsItem, IsNoItem, IsUserString, IsNoUserString, IsFaultAt, up_to_zero};

use crate::reading::{front, rest, zero_in};
use crate::{MetaCause, MetaFault};
use dc_base::compressed;

// The zero-ended text at a place of a heap.
pub(crate) fn string(heap: &[u8], i: u32) -> Result<&str, MetaFault>
    ensures found { IfOk result (λ text. IsString heap.now i text.now) }
    ensures fault { IfErr result (IsFaultAt (IsNoString heap.now i) i) }
{
    if heap.len() <= i as usize {
        return Err(fault(MetaCause::BadIndex, i));
    }
    let Some(text) = up_to_zero(heap, i) else {
        return Err(fault(MetaCause::BadText, i));
    };
    match str::from_utf8(text) {
        Ok(text) => Ok(text),
        Err(_) => Err(fault(MetaCause::BadText, i)),
    }
}

// The bytes from a place to the next zero.
fn up_to_zero(heap: &[u8], i: u32) -> Option<&[u8]>
    requires { i < length heap.now }
    ensures { option_map (λ x. x.now) result ≡ up_to_zero heap.now i }
{
    let from = rest(heap, i as usize);
    match zero_in(from) {
        Some(size) => Some(front(from, size)),
        None => None,
    }
}

// The item at a place of a heap.
pub(crate) fn item(heap: &[u8], i: u32) -> Result<&[u8], MetaFault>
    ensures found { IfOk result (λ item. IsItem heap.now i item.now) }
    ensures fault { IfErr result (IsFaultAt (IsNoItem heap.now i) i) }
{
    if heap.len() <= i as usize {
        return Err(fault(MetaCause::BadIndex, i));
    }
    let from = rest(heap, i as usize);
    let Some((size, len)) = compressed(from) else {
        return Err(fault(MetaCause::BadBlob, i));
    };
    let behind = rest(from, len);
    if behind.len() < size as usize {
        return Err(fault(MetaCause::BadBlob, i));
    }
    Ok(front(behind, size as usize))
}

// The user string at a place of a heap, without its last byte.
pub(crate) fn user_string(heap: &[u8], i: u32) -> Result<&[u8], MetaFault>
    ensures found { IfOk result (λ text. IsUserString heap.now i text.now) }
    ensures fault { IfErr result (IsFaultAt (IsNoUserString heap.now i) i) }
{
    match item(heap, i) {
        Ok([text @ .., _last]) if text.len() % 2 == 0 => Ok(text),
        Ok(_) => Err(fault(MetaCause::BadBlob, i)),
        Err(fault) => Err(fault),
    }
}

fn fault(cause: MetaCause, i: u32) -> MetaFault
    ensures { result ≡ record { cause = cause; place = i } }
{
    MetaFault { cause, place: i }
}
