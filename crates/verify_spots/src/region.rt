// Regions round instructions.

ghost use Rattle.std.specs.Prelude.{◌≡◌, ◌≢◌, ◌⊎◌, slice_get};
ghost use Rattle.std.specs.Bool.{OnTrue, OnFalse};
ghost use Rattle.cil_regions.specs.declared.region.RegionKind.TheVariants.{Code, Finally};
ghost use Rattle.cil_regions.specs.Region.{AreNodes, Holds};
ghost use Rattle.cil_rows.specs.Code.{starts_of};
ghost use Rattle.verify_spots.specs.Spots.{HasRegion, IsPlace, IsTry, IsHandler, IsFirstOf, StandsIn, Crosses};
ghost use Rattle.verify_spots.specs.Questions.{Asks, HasNode, HasNoNode, span_of};

use cil_body::Body;
use cil_regions::{Region, RegionKind};

/// A body and its regions, of which each stands before those that it holds.
#[derive(Clone, Copy)]
pub struct Regions<'a> {
    pub body: &'a Body,
    pub nodes: &'a [Region],
}

/// What is asked of a region, of one instruction or of the way from one to another: it begins there, it isn't the whole code
/// and the instruction stands in it, or it is left or entered so.
#[derive(Clone, Copy, Debug, PartialEq, Eq)]
pub enum Question {
    BeginsTry,
    BeginsHandler,
    StandsIn,
    Crosses,
    LeavesFinally,
    EntersHandler,
    EntersTryInside,
}

/// Whether it is so of some region.
pub fn has_region(regions: &Regions<'_>, question: Question, from: usize, to: usize) -> bool
    requires { AreNodes regions.now.body.now regions.now.nodes.now }
    ensures yes { OnTrue result (HasRegion regions.now.body.now (Asks regions.now.body.now question from to)) }
    ensures no { OnFalse result (HasRegion regions.now.body.now (Asks regions.now.body.now question from to) → ⊥) }
{
    has_node(regions, question, from, to)
}

fn has_node(regions: &Regions<'_>, question: Question, from: usize, to: usize) -> bool
    ensures yes { OnTrue result (HasNode (Asks regions.now.body.now question from to) regions.now.nodes.now) }
    ensures no { OnFalse result (HasNoNode (Asks regions.now.body.now question from to) regions.now.nodes.now) }
{
    for node in regions.nodes {
        if is_so(regions, question, *node, from, to) {
            return true;
        }
    }
    false
}

fn is_so(regions: &Regions<'_>, question: Question, node: Region, from: usize, to: usize) -> bool
    ensures yes { OnTrue result (Asks regions.now.body.now question from to (span_of node)) }
    ensures no { OnFalse result (Asks regions.now.body.now question from to (span_of node) → ⊥) }
{
    match question {
        Question::BeginsTry => is_try(node.kind) && is_first(regions, node, from),
        Question::BeginsHandler => is_handler(node.kind) && is_first(regions, node, from),
        Question::StandsIn => !is_code(node.kind) && stands_in(regions, node, from),
        Question::Crosses => crosses(regions, node, from, to),
        Question::LeavesFinally => is_finally(node.kind) && is_left(regions, node, from, to),
        Question::EntersHandler => is_handler(node.kind) && is_entered(regions, node, from, to),
        Question::EntersTryInside => enters_try_inside(regions, node, from, to),
    }
}

fn crosses(regions: &Regions<'_>, node: Region, from: usize, to: usize) -> bool
    ensures yes { OnTrue result (Crosses regions.now.body.now from to (span_of node)) }
    ensures no { OnFalse result (Crosses regions.now.body.now from to (span_of node) → ⊥) }
{
    is_left(regions, node, from, to) || is_entered_wrongly(regions, node, from, to)
}

fn is_entered_wrongly(regions: &Regions<'_>, node: Region, from: usize, to: usize) -> bool
    ensures yes { OnTrue result ((StandsIn regions.now.body.now (span_of node) from → ⊥) × StandsIn regions.now.body.now (span_of node) to × ((IsTry node.kind × IsFirstOf regions.now.body.now (span_of node) to) → ⊥)) }
    ensures no { OnFalse result ((StandsIn regions.now.body.now (span_of node) from → ⊥) × StandsIn regions.now.body.now (span_of node) to × ((IsTry node.kind × IsFirstOf regions.now.body.now (span_of node) to) → ⊥) → ⊥) }
{
    is_entered(regions, node, from, to) && !begins_try(regions, node, to)
}

fn begins_try(regions: &Regions<'_>, node: Region, number: usize) -> bool
    ensures yes { OnTrue result (IsTry node.kind × IsFirstOf regions.now.body.now (span_of node) number) }
    ensures no { OnFalse result (IsTry node.kind × IsFirstOf regions.now.body.now (span_of node) number → ⊥) }
{
    is_try(node.kind) && is_first(regions, node, number)
}

fn enters_try_inside(regions: &Regions<'_>, node: Region, from: usize, to: usize) -> bool
    ensures yes { OnTrue result (IsTry node.kind × (StandsIn regions.now.body.now (span_of node) from → ⊥) × StandsIn regions.now.body.now (span_of node) to × (IsFirstOf regions.now.body.now (span_of node) to → ⊥)) }
    ensures no { OnFalse result (IsTry node.kind × (StandsIn regions.now.body.now (span_of node) from → ⊥) × StandsIn regions.now.body.now (span_of node) to × (IsFirstOf regions.now.body.now (span_of node) to → ⊥) → ⊥) }
{
    is_try(node.kind) && is_entered(regions, node, from, to) && !is_first(regions, node, to)
}

fn is_left(regions: &Regions<'_>, node: Region, from: usize, to: usize) -> bool
    ensures yes { OnTrue result (StandsIn regions.now.body.now (span_of node) from × (StandsIn regions.now.body.now (span_of node) to → ⊥)) }
    ensures no { OnFalse result (StandsIn regions.now.body.now (span_of node) from × (StandsIn regions.now.body.now (span_of node) to → ⊥) → ⊥) }
{
    stands_in(regions, node, from) && !stands_in(regions, node, to)
}

fn is_entered(regions: &Regions<'_>, node: Region, from: usize, to: usize) -> bool
    ensures yes { OnTrue result ((StandsIn regions.now.body.now (span_of node) from → ⊥) × StandsIn regions.now.body.now (span_of node) to) }
    ensures no { OnFalse result ((StandsIn regions.now.body.now (span_of node) from → ⊥) × StandsIn regions.now.body.now (span_of node) to → ⊥) }
{
    !stands_in(regions, node, from) && stands_in(regions, node, to)
}

/// Whether an instruction stands in a region.
pub fn stands_in(regions: &Regions<'_>, node: Region, number: usize) -> bool
    ensures yes { OnTrue result (StandsIn regions.now.body.now (span_of node) number) }
    ensures no { OnFalse result (StandsIn regions.now.body.now (span_of node) number → ⊥) }
{
    match place(regions, number) {
        Some(place) => holds(node, place),
        None => false,
    }
}

fn holds(node: Region, place: u32) -> bool
    ensures yes { OnTrue result (Holds (span_of node) place) }
    ensures no { OnFalse result (Holds (span_of node) place → ⊥) }
{
    node.from <= place && place < node.to
}

fn is_first(regions: &Regions<'_>, node: Region, number: usize) -> bool
    ensures yes { OnTrue result (IsFirstOf regions.now.body.now (span_of node) number) }
    ensures no { OnFalse result (IsFirstOf regions.now.body.now (span_of node) number → ⊥) }
{
    match place(regions, number) {
        Some(place) => place == node.from,
        None => false,
    }
}

/// The place where an instruction starts.
pub fn place(regions: &Regions<'_>, number: usize) -> Option<u32>
    ensures { result ≡ slice_get (starts_of regions.now.body.now.code) number }
{
    match regions.body.code.get(number) {
        Some(placed) => Some(placed.0),
        None => None,
    }
}

fn is_try(kind: RegionKind) -> bool
    ensures yes { OnTrue result (IsTry kind) }
    ensures no { OnFalse result (IsTry kind → ⊥) }
{
    matches!(kind, RegionKind::Try)
}

fn is_handler(kind: RegionKind) -> bool
    ensures yes { OnTrue result (IsHandler kind) }
    ensures no { OnFalse result (IsHandler kind → ⊥) }
{
    matches!(kind, RegionKind::Catch(_) | RegionKind::Finally)
}

fn is_code(kind: RegionKind) -> bool
    ensures yes { OnTrue result (kind ≡ Code) }
    ensures no { OnFalse result (kind ≡ Code → ⊥) }
{
    matches!(kind, RegionKind::Code)
}

/// Whether it is the handler of a finally.
pub fn is_finally(kind: RegionKind) -> bool
    ensures yes { OnTrue result (kind ≡ Finally) }
    ensures no { OnFalse result (kind ≡ Finally → ⊥) }
{
    matches!(kind, RegionKind::Finally)
}
