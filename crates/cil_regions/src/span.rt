// The ranges that a body's clauses speak of, in the order of its tree.

ghost use Rattle.std.specs.Prelude.{◌≡◌, ℕ, ◌+◌, ◌^◌, ◌<◌, ◌≤◌, ◌++◌, length, IfOk, OnOk};
ghost use Rattle.cil_body.specs.Range.{HasRanges, IsRange};
ghost use Rattle.cil_regions.specs.Region.{is_catch, is_try, shares_try, first_of, handler_kind, spans_of};
ghost use Rattle.cil_regions.specs.Laid.{AreFirsts, AreOrdered, begun};
ghost use Rattle.cil_regions.specs.Tries.{found_at, first_by, found_behind};

use crate::region::{RegionKind, Span};
use cil_body::{Body, Clause, ClauseKind};
use dc_base::NoMemory;
use std::alloc::Global;
use std::cmp::Reverse;
use std::collections::BTreeMap;

/// For each clause the number of the first one that has the same try.
pub fn firsts(alloc: Global, clauses: &[Clause]) -> Result<Vec<u32>, NoMemory>
    requires { length clauses.now < 2 ^ 30 }
    ensures { IfOk result (λ firsts. AreFirsts clauses.now firsts.items) }
{
    let mut tries = BTreeMap::new(alloc);
    let mut firsts = Vec::new(alloc);
    for (i, clause) in clauses.iter().enumerate() {
        firsts.push(first_of(&mut tries, *clause, i as u32)?)?;
    }
    Ok(firsts)
}

// The number of the first clause that has the same try, where the ranges of the catches before this one are known.
fn first_of(
    tries: &mut BTreeMap<(u32, u32), u32>,
    clause: Clause,
    number: u32,
) -> Result<u32, NoMemory>
    ensures first { IfOk result (λ first. first ≡ first_by tries.old clause number) }
    ensures tries { OnOk result ((q : ℕ × ℕ) → found_at tries.new q ≡ found_behind tries.old clause number q) }
{
    if !is_catch(clause.kind) {
        return Ok(number);
    }
    let range = (clause.try_at, clause.try_len);
    if let Some(first) = tries.get(&range) {
        return Ok(*first);
    }
    tries.insert(range, number)?;
    Ok(number)
}

fn is_catch(kind: ClauseKind) -> bool
    ensures { result ≡ is_catch kind }
{
    match kind {
        ClauseKind::Catch => true,
        ClauseKind::Finally => false,
    }
}

/// Whether a region is a try.
pub fn is_try(kind: RegionKind) -> bool
    ensures { result ≡ is_try kind }
{
    match kind {
        RegionKind::Try => true,
        _ => false,
    }
}

/// The regions of a body, each before those that it holds.
pub fn ordered(alloc: Global, body: &Body, firsts: &[u32]) -> Result<Vec<Span>, NoMemory>
    requires ranges { HasRanges body.now }
    requires firsts { AreFirsts body.now.clauses firsts.now }
    ensures { IfOk result (λ spans. AreOrdered body.now spans.items) }
{
    let mut spans = spans(alloc, body, firsts)?;
    spans.sort_by_key(|span| {
        (
            span.from,
            Reverse(span.to),
            Reverse(span.first),
            !is_try(span.kind),
        )
    })?;
    Ok(spans)
}

// The regions of a body, by clauses.
fn spans(alloc: Global, body: &Body, firsts: &[u32]) -> Result<Vec<Span>, NoMemory>
    requires ranges { HasRanges body.now }
    requires firsts { AreFirsts body.now.clauses firsts.now }
    ensures { IfOk result (λ spans. spans.items ≡ spans_of body.now) }
{
    let clauses = body.clauses.items();
    let mut spans = Vec::new(alloc);
    spans.push(Span {
        kind: RegionKind::Code,
        from: 0,
        to: body.size,
        first: clauses.len() as u32,
    })?;
    for (i, clause) in clauses.iter().enumerate() {
        begin(&mut spans, *clause, i as u32, firsts[i], body.size)?;
    }
    Ok(spans)
}

// Adds the regions that a clause begins.
fn begin(
    spans: &mut Vec<Span>,
    clause: Clause,
    number: u32,
    first: u32,
    size: u32,
) -> Result<(), NoMemory>
    requires { IsRange size clause }
    ensures { OnOk result (spans.new.items ≡ spans.old.items ++ begun number clause first) }
{
    if first == number {
        spans.push(Span {
            kind: RegionKind::Try,
            from: clause.try_at,
            to: clause.try_at + clause.try_len,
            first,
        })?;
    }
    spans.push(Span {
        kind: handler_kind(clause),
        from: clause.handler_at,
        to: clause.handler_at + clause.handler_len,
        first: number,
    })?;
    Ok(())
}

fn handler_kind(clause: Clause) -> RegionKind
    ensures { result ≡ handler_kind clause clause.kind }
{
    match clause.kind {
        ClauseKind::Catch => RegionKind::Catch(clause.class),
        ClauseKind::Finally => RegionKind::Finally,
    }
}
