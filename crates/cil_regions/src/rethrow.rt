// Where a rethrow may stand (ECMA-335 III.4.24).

ghost use Rattle.std.specs.Prelude.{◌≡◌, ℕ, ◌≤◌, ◌<◌, length, slice_index_or, take, All, IfOk, IfSome, MatchBool, MatchOption};
ghost use Rattle.std.specs.List.Sorted.{IsNonDecreasingBy};
ghost use Rattle.cil_regions.specs.Region.{IsCatchKind};
ghost use Rattle.cil_regions.specs.Laid.{AreNested, AreBegun, Handles, IsCaught, IsFineBy, IsOffBy, IsStart, IsReaching};
ghost use Rattle.cil_regions.specs.Caught.{AreCatching, IsStanding, IsInnermost, Stays};

use crate::region::{Region, RegionKind};
use crate::tree::reaching_from;
use cil_instruction::{Instr, Op};
use dc_base::NoMemory;
use std::alloc::Global;

// A place, how many regions begin by it, and the number of the innermost one about it.
#[derive(Clone, Copy)]
struct Standing {
    place: u32,
    begun: usize,
    at: usize,
}

/// The place of the first rethrow that stands in no catch, or in a finally inside it.
pub fn misplaced(
    alloc: Global,
    code: &[(u32, Instr)],
    nodes: &[Region],
) -> Result<Option<u32>, NoMemory>
    requires { AreNested nodes.now }
    ensures { IfOk result (λ found. MatchOption found (All (IsFineBy nodes.now) code.now) (IsOffBy nodes.now code.now)) }
{
    let catching = catching(alloc, nodes)?;
    Ok(first_uncaught(code, nodes, catching.as_slice()))
}

// For each region whether the innermost one that is no try, from itself outwards, is a catch.
fn catching(alloc: Global, nodes: &[Region]) -> Result<Vec<bool>, NoMemory>
    requires { AreNested nodes.now }
    ensures { IfOk result (λ catching. AreCatching nodes.now (length nodes.now) catching.items) }
{
    let mut catching = Vec::new(alloc);
    for node in nodes {
        let is_catching = match node.kind {
            RegionKind::Catch(_) => true,
            RegionKind::Try => catching[node.parent as usize],
            RegionKind::Code | RegionKind::Finally => false,
        };
        catching.push(is_catching)?;
    }
    Ok(catching)
}

// The place of the first rethrow that stands in no catch, by that table.
fn first_uncaught(code: &[(u32, Instr)], nodes: &[Region], catching: &[bool]) -> Option<u32>
    requires nested { AreNested nodes.now }
    requires catching { AreCatching nodes.now (length nodes.now) catching.now }
    ensures { MatchOption result (All (IsFineBy nodes.now) code.now) (IsOffBy nodes.now code.now) }
{
    let mut last = None;
    for (place, instr) in code {
        if instr.op == Op::Rethrow {
            let here = innermost(nodes, last, *place);
            if !is_caught(nodes, catching, here, *place) {
                return Some(*place);
            }
            last = here;
        }
    }
    None
}

// Whether the place stands in a catch, where this is the innermost region about it.
fn is_caught(nodes: &[Region], catching: &[bool], here: Option<Standing>, place: u32) -> bool
    requires nested { AreNested nodes.now }
    requires catching { AreCatching nodes.now (length nodes.now) catching.now }
    requires here { IsInnermost nodes.now place here }
    ensures { MatchBool result (IsCaught nodes.now place) (IsCaught nodes.now place → ⊥) }
{
    match here {
        Some(here) => catching[here.at],
        None => false,
    }
}

// The innermost region about the place. Where that of an earlier place is known, each region is passed over once at most.
fn innermost(nodes: &[Region], last: Option<Standing>, place: u32) -> Option<Standing>
    requires nested { AreNested nodes.now }
    requires last { IfSome last (IsStanding nodes.now) }
    ensures { IsInnermost nodes.now place result }
{
    let begun = begun(nodes, place);
    let front = &nodes[..begun];
    let at = reaching_from(front, start(front, last, place)?, place)?;
    Some(Standing { place, begun, at })
}

// A region behind which all that begin by the place end by it: the one that was the innermost before, if none has begun
// since, else the last one.
fn start(front: &[Region], last: Option<Standing>, place: u32) -> Option<usize>
    requires { IfSome last (Stays front.now) }
    ensures { MatchOption result (length front.now ≡ 0) (IsStart front.now place) }
{
    match last {
        Some(last) if last.begun == front.len() && last.place <= place => Some(last.at),
        _ => front.len().checked_sub(1),
    }
}

// How many nodes begin by the place.
fn begun(nodes: &[Region], place: u32) -> usize
    requires { IsNonDecreasingBy (λ (node : Region). node.from) nodes.now }
    ensures { AreBegun nodes.now place result }
{
    nodes.partition_point(|node| node.from <= place)
}
