// The regions of a body's code.

ghost use Rattle.std.specs.Prelude.{◌≡◌, ◌≤◌, ◌^◌, length, IfOk, IfErr};
ghost use Rattle.cil_body.specs.Range.{HasRanges};
ghost use Rattle.cil_regions.specs.Region.{IsNested, IsRegionTree, IsRegionsRefused};
ghost use Rattle.cil_regions.specs.Laid.{IsTree};

use crate::nesting::loose;
use crate::overlap::crossing;
use crate::rethrow::misplaced;
use crate::span::{firsts, ordered};
use crate::tree::{nodes, too_deep};
use cil_body::Body;
use dc_base::{Or, Seq, Token};
use std::alloc::Global;
use thiserror::Error;

/// What a region of the code is: the whole code, a try, or the handler of a clause. A catch has the token of its class.
#[derive(Clone, Copy, Debug, PartialEq, Eq)]
pub enum RegionKind {
    Code,
    Try,
    Catch(Token),
    Finally,
}

/// A region: from the first place in the code to the second, which is the first behind it, and the number of the
/// region around it. The whole code, number 0, is its own parent.
#[derive(Clone, Copy, Debug, PartialEq, Eq)]
pub struct Region {
    pub kind: RegionKind,
    pub from: u32,
    pub to: u32,
    pub parent: u32,
}

/// The regions of a body, by where they begin, and each before those that it holds. Catches over one range have one try;
/// a finally has a try of its own.
#[derive(Debug, Drop)]
pub struct RegionTree {
    pub nodes: Seq<Region>,
}

/// Why a body's clauses make no tree of regions. Of several faults the one that is listed first counts.
#[derive(Clone, Copy, Debug, PartialEq, Eq, Error)]
pub enum RegionFault {
    /// The least start of a try or a handler that crosses another one, or where none does, of one that has another
    /// parent than its partner.
    #[error("the region from {0} on crosses another one, or has another parent than its partner")]
    Nest(u32),
    /// The least place of a `rethrow` (ECMA-335 III.4.24) that stands in no catch, or in a finally inside it.
    #[error("a rethrow at {0} stands in no catch")]
    RethrowPlace(u32),
    /// The least start of a region that stands in more than 40.
    #[error("the region from {0} on stands in too many others")]
    TooDeep(u32),
}

/// A region, with the number of its first clause.
#[derive(Clone, Copy, Debug, PartialEq, Eq)]
pub struct Span {
    pub kind: RegionKind,
    pub from: u32,
    pub to: u32,
    pub first: u32,
}

/// The tree of regions of a body that [`cil_body::decode`] gave, or of any whose clauses are ranges of its code.
pub fn regions(alloc: Global, body: &Body) -> Result<RegionTree, Or<RegionFault>>
    requires { HasRanges body.now }
    ensures tree { IfOk result (IsRegionTree body.now) }
    ensures fault { IfErr result (IsRegionsRefused body.now) }
{
    let nodes = nested(alloc, body)?;
    if let Some(place) = misplaced(alloc, body.code.items(), nodes.as_slice())? {
        return Err(Or::Fault(RegionFault::RethrowPlace(place)));
    }
    if let Some(place) = too_deep(alloc, nodes.as_slice())? {
        return Err(Or::Fault(RegionFault::TooDeep(place)));
    }
    Ok(RegionTree {
        nodes: Seq::of(nodes),
    })
}

// The regions of a body that lie in one another as they have to.
fn nested(alloc: Global, body: &Body) -> Result<Vec<Region>, Or<RegionFault>>
    requires { HasRanges body.now }
    ensures nested { IfOk result (λ nodes. IsNested body.now × IsTree body.now nodes.items) }
    ensures fault { IfErr result (IsRegionsRefused body.now) }
{
    let firsts = firsts(alloc, body.clauses.items())?;
    let spans = ordered(alloc, body, firsts.as_slice())?;
    if let Some(place) = crossing(alloc, spans.as_slice())? {
        return Err(Or::Fault(RegionFault::Nest(place)));
    }
    let nodes = nodes(alloc, spans.as_slice())?;
    if let Some(place) = loose(
        alloc,
        body,
        firsts.as_slice(),
        spans.as_slice(),
        nodes.as_slice(),
    )? {
        return Err(Or::Fault(RegionFault::Nest(place)));
    }
    Ok(nodes)
}
