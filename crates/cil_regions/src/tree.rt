// The tree of regions, and how deep it is.

ghost use Rattle.std.specs.Prelude.{◌≡◌, ◌≤◌, ◌^◌, length, All, IfOk, MatchOption};
ghost use Rattle.cil_regions.specs.Laid.{AreLaid, AreChained, AreLinked, IsStart, IsReaching, IsDepthAnswer};

use crate::region::{Region, Span};
use dc_base::NoMemory;
use std::alloc::Global;

// In how many others a region may stand.
const DEPTH_LIMIT: u32 = 40;

/// The nodes of spans that lie in order, each with the number of the last one before it that ends behind its start.
pub fn nodes(alloc: Global, spans: &[Span]) -> Result<Vec<Region>, NoMemory>
    requires few { length spans.now ≤ 2 ^ 31 }
    requires laid { AreLaid spans.now }
    ensures { IfOk result (λ nodes. AreChained spans.now nodes.items) }
{
    let mut nodes = Vec::new(alloc);
    for span in spans {
        let parent = reaching(nodes.as_slice(), span.from).unwrap_or(0);
        nodes.push(Region {
            kind: span.kind,
            from: span.from,
            to: span.to,
            parent: parent as u32,
        })?;
    }
    Ok(nodes)
}

/// The number of the last node that ends behind the place. No node begins behind it.
pub fn reaching(nodes: &[Region], place: u32) -> Option<usize>
    requires linked { AreLinked nodes.now }
    requires begun { All (λ node. node.from ≤ place) nodes.now }
    ensures { MatchOption result (All (λ node. node.to ≤ place) nodes.now) (IsReaching nodes.now place) }
{
    reaching_from(nodes, nodes.len().checked_sub(1)?, place)
}

/// The same, looked for from a node on behind which all end by the place.
pub fn reaching_from(nodes: &[Region], start: usize, place: u32) -> Option<usize>
    requires linked { AreLinked nodes.now }
    requires begun { All (λ node. node.from ≤ place) nodes.now }
    requires start { IsStart nodes.now place start }
    ensures { MatchOption result (All (λ node. node.to ≤ place) nodes.now) (IsReaching nodes.now place) }
{
    let mut at = start;
    while nodes[at].to <= place {
        if at == 0 {
            return None;
        }
        at = nodes[at].parent as usize;
    }
    Some(at)
}

/// The start of the first node that stands inside more others than it may.
pub fn too_deep(alloc: Global, nodes: &[Region]) -> Result<Option<u32>, NoMemory>
    requires { AreLinked nodes.now }
    ensures { IfOk result (IsDepthAnswer nodes.now) }
{
    let mut depths = Vec::new(alloc);
    for (k, node) in nodes.iter().enumerate() {
        let depth = if k == 0 {
            0
        } else {
            depths[node.parent as usize] + 1
        };
        if depth > DEPTH_LIMIT {
            return Ok(Some(node.from));
        }
        depths.push(depth)?;
    }
    Ok(None)
}
