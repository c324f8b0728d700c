// Heads read, one instruction after another.

ghost use Rattle.std.specs.Prelude.{◌≡◌, ◌+◌, ◌<◌, ◌^◌, ℕ, None, Some, length, IfOk, IfErr, IfSome, IfNone};
ghost use Rattle.dc_base.specs.declared.failure.Or.TheVariants.{Fault};
ghost use Rattle.dc_causes.specs.Answer.{OnFault, ReadBy};
ghost use Rattle.cil_aims.specs.Aims.{AreMarks};
ghost use Rattle.cli_assembly.specs.Meaning.{AreInOrder};
ghost use Rattle.cli_heads.specs.Head.{IsEnd, IsHead, called_at, begun, closed};
ghost use Rattle.cli_heads.specs.declared.head.Head.{Head};
ghost use Rattle.cli_heads.specs.Fault.{IsBadHead, ReadsHead, is_same, first_bad, offset_at};

use crate::begun::Begun;
use crate::end::{called_by, ended, is_same};
use crate::head::{Head, Store};
use crate::maker::Maker;
use crate::plain::is_plain;
use dc_base::{MemberId, NoMemory, Or, Seq};
use std::alloc::Global;

/// The offset at which a constructor's code isn't its head.
#[derive(Clone, Copy, Debug, PartialEq, Eq)]
pub struct BadHead {
    pub offset: u32,
}

/// The head that a constructor's code begins with. `aimed` says of each instruction whether a jump leads to it.
///
/// It takes the time of one look at each instruction of the head, and of one at each clause for each of them.
pub fn read_head(alloc: Global, maker: &Maker<'_>, aimed: &[bool]) -> Result<Head, Or<BadHead>>
    requires order { AreInOrder maker.now.tokens.now }
    requires marks { AreMarks maker.now.rows.now aimed.now }
    requires few { length maker.now.rows.now < 2 ^ 32 }
    ensures read { IfOk result (ReadBy (ReadsHead maker.now)) }
    ensures fault { IfErr result (OnFault (ReadsHead maker.now)) }
{
    let Some((end, callee)) = end_of(maker) else {
        return Err(Or::Fault(BadHead { offset: 0 }));
    };
    let mut begun = Begun {
        stores: Seq::new(alloc),
        stack: Seq::new(alloc),
    };
    let same = is_same(maker, callee);
    for k in 0..end {
        let bad = bad_at(maker, same, begun.stores.items(), k);
        let Some(more) = next(alloc, maker, aimed, k, begun)? else {
            return Err(Or::Fault(bad));
        };
        begun = more;
    }
    let bad = bad_at(maker, same, begun.stores.items(), end);
    match last(alloc, maker, aimed, end, callee, begun)? {
        Some(head) => Ok(head),
        None => Err(Or::Fault(bad)),
    }
}

/// The offset at which a constructor's code isn't a head that is taken, if it isn't: what the profile asks.
pub fn bad_head(alloc: Global, maker: &Maker<'_>, aimed: &[bool]) -> Result<Option<u32>, NoMemory>
    requires order { AreInOrder maker.now.tokens.now }
    requires marks { AreMarks maker.now.rows.now aimed.now }
    requires few { length maker.now.rows.now < 2 ^ 32 }
    ensures none { IfOk result (λ offset. IfNone offset ((h : Head) × IsHead maker.now h)) }
    ensures some { IfOk result (λ offset. IfSome offset (λ at. IsBadHead maker.now (record { offset = at }))) }
{
    let Err(fault) = read_head(alloc, maker, aimed) else {
        return Ok(None);
    };
    let offset = offset_told(fault)?;
    Ok(Some(offset))
}

fn offset_told(fault: Or<BadHead>) -> Result<u32, NoMemory>
    ensures { IfOk result (λ at. fault ≡ Fault (record { offset = at })) }
{
    match fault {
        Or::Fault(bad) => Ok(bad.offset),
        Or::NoMemory => Err(NoMemory),
    }
}

// The number of the first instruction that calls a constructor, and the constructor.
fn end_of(maker: &Maker<'_>) -> Option<(usize, MemberId)>
    requires { AreInOrder maker.now.tokens.now }
    ensures within { IfSome result (λ found. found.0 < length maker.now.rows.now) }
    ensures some { IfSome result (λ found. IsEnd maker.now found.0 found.1) }
    ensures none { IfNone result ((n : ℕ) → called_at maker.now n ≡ None) }
{
    for (k, row) in maker.rows.iter().enumerate() {
        if let Some(callee) = called_by(maker, row) {
            return Some((k, callee));
        }
    }
    None
}

// Where a refusal stands behind these stores, if no head goes on with instruction k.
fn bad_at(maker: &Maker<'_>, same: bool, stores: &[Store], k: usize) -> BadHead
    ensures { result.offset ≡ offset_at maker.now (first_bad same stores.now k) }
{
    BadHead {
        offset: offset_at(maker, first_bad(same, stores, k)),
    }
}

fn first_bad(same: bool, stores: &[Store], k: usize) -> usize
    ensures { result ≡ first_bad same stores.now k }
{
    if !same {
        return k;
    }
    match stores {
        [store, ..] => store.at as usize,
        _ => k,
    }
}

fn offset_at(maker: &Maker<'_>, n: usize) -> u32
    ensures { result ≡ offset_at maker.now n }
{
    match maker.body.code.items().get(n) {
        Some(placed) => placed.0,
        None => 0,
    }
}

// The beginning of a head that this one is with instruction k.
fn next(
    alloc: Global,
    maker: &Maker<'_>,
    aimed: &[bool],
    k: usize,
    before: Begun,
) -> Result<Option<Begun>, NoMemory>
    requires order { AreInOrder maker.now.tokens.now }
    requires marks { AreMarks maker.now.rows.now aimed.now }
    requires few { length maker.now.rows.now < 2 ^ 32 }
    requires within { k < length maker.now.rows.now }
    requires is { begun maker.now k ≡ Some before }
    ensures { IfOk result (λ more. more ≡ begun maker.now (k + 1)) }
{
    if is_plain(maker, aimed, k) {
        before.with(alloc, maker, k, &maker.rows[k])
    } else {
        Ok(None)
    }
}

// The head that it is with the call at its end.
fn last(
    alloc: Global,
    maker: &Maker<'_>,
    aimed: &[bool],
    end: usize,
    callee: MemberId,
    before: Begun,
) -> Result<Option<Head>, NoMemory>
    requires marks { AreMarks maker.now.rows.now aimed.now }
    requires few { length maker.now.rows.now < 2 ^ 32 }
    requires within { end < length maker.now.rows.now }
    requires is { begun maker.now end ≡ Some before }
    ensures { IfOk result (λ head. head ≡ closed maker.now end callee) }
{
    if is_plain(maker, aimed, end) {
        ended(alloc, maker, end, callee, before)
    } else {
        Ok(None)
    }
}
