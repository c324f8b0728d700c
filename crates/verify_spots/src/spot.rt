// Where each instruction stands.

ghost use Rattle.std.specs.Prelude.{◌≡◌, ◌<◌, ◌^◌, ℕ, Some, length, IfOk};
ghost use Rattle.std.specs.Bool.{OnTrue, OnFalse};
ghost use Rattle.cil_regions.specs.Region.{AreNodes, IsLaminar, IsRegionTree};
ghost use Rattle.cli_assembly.specs.Meaning.{AreInOrder};
ghost use Rattle.verify_spots.specs.Spots.{AreSpots, EndsHead, IsAimed, IsSpot};
ghost use Rattle.verify_spots.specs.Questions.{AreMarked};

use crate::aim::aimed;
use crate::head::head_end;
use crate::jump::{falls_off, jumps_off};
use crate::region::{Question, Regions, has_region};
use cil_body::Body;
use cil_regions::RegionTree;
use dc_base::NoMemory;
use std::alloc::Global;
use verify_rules::{Setting, Spot};

/// Where each instruction of a body stands, by its number. It looks at each region for each instruction and each of its
/// aims.
pub fn spots(
    alloc: Global,
    setting: &Setting<'_>,
    body: &Body,
    tree: &RegionTree,
) -> Result<Vec<Spot>, NoMemory>
    requires ordered { AreInOrder setting.now.tokens.now }
    requires few { length setting.now.rows.now < 2 ^ 32 }
    requires tree { IsRegionTree body.now tree.now }
    ensures { IfOk result (λ spots. AreSpots setting.now body.now spots.items) }
{
    let regions = Regions {
        body,
        nodes: tree.nodes.items(),
    };
    let aimed = aimed(alloc, setting)?;
    spots_among(alloc, setting, &regions, aimed.as_slice())
}

fn spots_among(
    alloc: Global,
    setting: &Setting<'_>,
    regions: &Regions<'_>,
    aimed: &[bool],
) -> Result<Vec<Spot>, NoMemory>
    requires ordered { AreInOrder setting.now.tokens.now }
    requires few { length setting.now.rows.now < 2 ^ 32 }
    requires nodes { AreNodes regions.now.body.now regions.now.nodes.now }
    requires laminar { IsLaminar regions.now.body.now }
    requires marked { AreMarked setting.now aimed.now }
    ensures { IfOk result (λ spots. AreSpots setting.now regions.now.body.now spots.items) }
{
    let head = head_end(setting);
    let mut spots = Vec::new(alloc);
    for number in 0..aimed.len() {
        let ends_head = is_at(head, number);
        spots.push(spot(setting, regions, number, aimed[number], ends_head))?;
    }
    Ok(spots)
}

fn is_at(end: Option<usize>, number: usize) -> bool
    ensures yes { OnTrue result (end ≡ Some number) }
    ensures no { OnFalse result (end ≡ Some number → ⊥) }
{
    match end {
        Some(end) => end == number,
        None => false,
    }
}

fn spot(
    setting: &Setting<'_>,
    regions: &Regions<'_>,
    number: usize,
    is_aim: bool,
    ends_head: bool,
) -> Spot
    requires nodes { AreNodes regions.now.body.now regions.now.nodes.now }
    requires laminar { IsLaminar regions.now.body.now }
    requires small { number < 2 ^ 32 }
    requires aim { OnTrue is_aim (IsAimed setting.now number) }
    requires no_aim { OnFalse is_aim (IsAimed setting.now number → ⊥) }
    requires head { OnTrue ends_head (EndsHead setting.now number) }
    requires no_head { OnFalse ends_head (EndsHead setting.now number → ⊥) }
    ensures { IsSpot setting.now regions.now.body.now number result }
{
    let begins_try = has_region(regions, Question::BeginsTry, number, number);
    let begins_handler = has_region(regions, Question::BeginsHandler, number, number);
    Spot {
        number: number as u32,
        is_aim,
        begins_try,
        begins_region: begins_try || begins_handler,
        falls_off: falls_off(setting, regions, number),
        jumps_off: jumps_off(setting, regions, number),
        ends_head,
    }
}
