// Jumps that regions don't let through.

ghost use Rattle.std.specs.Prelude.{◌≡◌, ◌⊎◌, ◌+◌, ℕ, true, Some, None, slice_get, Contains};
ghost use Rattle.std.specs.Bool.{OnTrue, OnFalse};
ghost use Rattle.std.specs.Option.{option_copied};
ghost use Rattle.cil_regions.specs.declared.region.RegionKind.TheVariants.{Code};
ghost use Rattle.cil_regions.specs.Region.{AreNodes, IsLaminar};
ghost use Rattle.cil_rows.specs.declared.row.Row.{Row};
ghost use Rattle.cil_rows.specs.Flow.{goes_on};
ghost use Rattle.verify_rules.specs.Kinds.{IsSo};
ghost use Rattle.verify_spots.specs.Questions.{IsOwnTry, HasOwnTry, IsLastRound, HasNoneRound, EndsNoFinally};
ghost use Rattle.verify_spots.specs.Spots.{HasRegion, BeginsHandler, IsRow, StandsIn, Crosses, FallsOff, JumpsOff, JumpsWrongly, LeavesWrongly, EntersHandler, EntersTryInside, EntersOwnTry};

use crate::region::{Question, Regions, has_region, is_finally, place, stands_in};
use cil_body::Clause;
use cil_regions::Region;
use cil_rows::Row;
use verify_rules::Setting;

/// Whether an instruction goes on to where no instruction of its region stands, or into a handler.
pub fn falls_off(setting: &Setting<'_>, regions: &Regions<'_>, number: usize) -> bool
    requires { AreNodes regions.now.body.now regions.now.nodes.now }
    ensures yes { OnTrue result (FallsOff setting.now regions.now.body.now number) }
    ensures no { OnFalse result (FallsOff setting.now regions.now.body.now number → ⊥) }
{
    row_falls_off(setting, regions, number, row_at(setting, number))
}

fn row_at<'a>(setting: &Setting<'a>, number: usize) -> Option<&'a Row>
    ensures { option_copied result ≡ slice_get setting.now.rows.now number }
{
    setting.rows.get(number)
}

fn row_falls_off(
    setting: &Setting<'_>,
    regions: &Regions<'_>,
    number: usize,
    row: Option<&Row>,
) -> bool
    requires { AreNodes regions.now.body.now regions.now.nodes.now }
    ensures yes { OnTrue result (IsSo (λ row. (goes_on row ≡ true) × ((slice_get setting.now.rows.now (number + 1) ≡ None) ⊎ HasRegion regions.now.body.now (Crosses regions.now.body.now number (number + 1)))) (option_copied row.entry)) }
    ensures no { OnFalse result (IsSo (λ row. (goes_on row ≡ true) × ((slice_get setting.now.rows.now (number + 1) ≡ None) ⊎ HasRegion regions.now.body.now (Crosses regions.now.body.now number (number + 1)))) (option_copied row.entry) → ⊥) }
{
    match row {
        Some(row) => row.goes_on() && ends_region(setting, regions, number),
        None => false,
    }
}

// Whether no instruction of its region follows.
fn ends_region(setting: &Setting<'_>, regions: &Regions<'_>, number: usize) -> bool
    requires { AreNodes regions.now.body.now regions.now.nodes.now }
    ensures yes { OnTrue result ((slice_get setting.now.rows.now (number + 1) ≡ None) ⊎ HasRegion regions.now.body.now (Crosses regions.now.body.now number (number + 1))) }
    ensures no { OnFalse result ((slice_get setting.now.rows.now (number + 1) ≡ None) ⊎ HasRegion regions.now.body.now (Crosses regions.now.body.now number (number + 1)) → ⊥) }
{
    if number >= setting.rows.len() {
        return true;
    }
    is_last(setting, number + 1) || has_region(regions, Question::Crosses, number, number + 1)
}

fn is_last(setting: &Setting<'_>, next: usize) -> bool
    ensures yes { OnTrue result (slice_get setting.now.rows.now next ≡ None) }
    ensures no { OnFalse result (slice_get setting.now.rows.now next ≡ None → ⊥) }
{
    match setting.rows.get(next) {
        Some(_) => false,
        None => true,
    }
}

/// Whether an instruction leads to where its regions don't let it, or is the first of the method and of a handler.
pub fn jumps_off(setting: &Setting<'_>, regions: &Regions<'_>, number: usize) -> bool
    requires nodes { AreNodes regions.now.body.now regions.now.nodes.now }
    requires laminar { IsLaminar regions.now.body.now }
    ensures yes { OnTrue result (JumpsOff setting.now regions.now.body.now number) }
    ensures no { OnFalse result (JumpsOff setting.now regions.now.body.now number → ⊥) }
{
    begins_handler(regions, number) || leads_wrongly(setting, regions, number)
}

fn begins_handler(regions: &Regions<'_>, number: usize) -> bool
    requires { AreNodes regions.now.body.now regions.now.nodes.now }
    ensures yes { OnTrue result ((number ≡ 0) × BeginsHandler regions.now.body.now number) }
    ensures no { OnFalse result ((number ≡ 0) × BeginsHandler regions.now.body.now number → ⊥) }
{
    number == 0 && has_region(regions, Question::BeginsHandler, number, number)
}

fn leads_wrongly(setting: &Setting<'_>, regions: &Regions<'_>, number: usize) -> bool
    requires nodes { AreNodes regions.now.body.now regions.now.nodes.now }
    requires laminar { IsLaminar regions.now.body.now }
    ensures yes { OnTrue result ((row : Row) × IsRow setting.now number row × JumpsWrongly regions.now.body.now number row) }
    ensures no { OnFalse result ((row : Row) × IsRow setting.now number row × JumpsWrongly regions.now.body.now number row → ⊥) }
{
    row_jumps_off(regions, number, row_at(setting, number))
}

fn row_jumps_off(regions: &Regions<'_>, number: usize, row: Option<&Row>) -> bool
    requires nodes { AreNodes regions.now.body.now regions.now.nodes.now }
    requires laminar { IsLaminar regions.now.body.now }
    ensures yes { OnTrue result (IsSo (JumpsWrongly regions.now.body.now number) (option_copied row.entry)) }
    ensures no { OnFalse result (IsSo (JumpsWrongly regions.now.body.now number) (option_copied row.entry) → ⊥) }
{
    match row {
        Some(row) => jumps_wrongly(regions, number, row),
        None => false,
    }
}

fn jumps_wrongly(regions: &Regions<'_>, number: usize, row: &Row) -> bool
    requires nodes { AreNodes regions.now.body.now regions.now.nodes.now }
    requires laminar { IsLaminar regions.now.body.now }
    ensures yes { OnTrue result (JumpsWrongly regions.now.body.now number row.now) }
    ensures no { OnFalse result (JumpsWrongly regions.now.body.now number row.now → ⊥) }
{
    match row {
        Row::Leave { to } => leaves_wrongly(regions, number, *to as usize),
        Row::Return => has_region(regions, Question::StandsIn, number, number),
        Row::EndFinally => ends_no_finally(regions, number),
        row => crosses_to_some(regions, number, row.aims()),
    }
}

fn leaves_wrongly(regions: &Regions<'_>, from: usize, to: usize) -> bool
    requires { AreNodes regions.now.body.now regions.now.nodes.now }
    ensures yes { OnTrue result (LeavesWrongly regions.now.body.now from to) }
    ensures no { OnFalse result (LeavesWrongly regions.now.body.now from to → ⊥) }
{
    has_region(regions, Question::LeavesFinally, from, to) || enters_wrongly(regions, from, to)
}

fn enters_wrongly(regions: &Regions<'_>, from: usize, to: usize) -> bool
    requires { AreNodes regions.now.body.now regions.now.nodes.now }
    ensures yes { OnTrue result (EntersHandler regions.now.body.now from to ⊎ EntersTryInside regions.now.body.now from to ⊎ EntersOwnTry regions.now.body.now from to) }
    ensures no { OnFalse result (EntersHandler regions.now.body.now from to ⊎ EntersTryInside regions.now.body.now from to ⊎ EntersOwnTry regions.now.body.now from to → ⊥) }
{
    has_region(regions, Question::EntersHandler, from, to) || enters_try(regions, from, to)
}

fn enters_try(regions: &Regions<'_>, from: usize, to: usize) -> bool
    requires { AreNodes regions.now.body.now regions.now.nodes.now }
    ensures yes { OnTrue result (EntersTryInside regions.now.body.now from to ⊎ EntersOwnTry regions.now.body.now from to) }
    ensures no { OnFalse result (EntersTryInside regions.now.body.now from to ⊎ EntersOwnTry regions.now.body.now from to → ⊥) }
{
    has_region(regions, Question::EntersTryInside, from, to) || enters_own_try(regions, from, to)
}

fn enters_own_try(regions: &Regions<'_>, from: usize, to: usize) -> bool
    ensures yes { OnTrue result (EntersOwnTry regions.now.body.now from to) }
    ensures no { OnFalse result (EntersOwnTry regions.now.body.now from to → ⊥) }
{
    has_own_try(regions, regions.body.clauses.items(), from, to)
}

fn has_own_try(regions: &Regions<'_>, clauses: &[Clause], from: usize, to: usize) -> bool
    ensures yes { OnTrue result (HasOwnTry regions.now.body.now clauses.now from to) }
    ensures no { OnFalse result (HasOwnTry regions.now.body.now clauses.now from to → ⊥) }
{
    for number in 0..clauses.len() {
        if is_own_try(regions, clauses, number, clauses[number], from, to) {
            return true;
        }
    }
    false
}

// Whether the one instruction stands in the handler of a clause and the other in its try.
fn is_own_try(
    regions: &Regions<'_>,
    clauses: &[Clause],
    number: usize,
    clause: Clause,
    from: usize,
    to: usize,
) -> bool
    ensures yes { OnTrue result (IsOwnTry regions.now.body.now clauses.now number clause from to) }
    ensures no { OnFalse result (IsOwnTry regions.now.body.now clauses.now number clause from to → ⊥) }
{
    let _of = (clauses.len(), number);
    stands_between(regions, clause.handler_at, clause.handler_len, from)
        && stands_between(regions, clause.try_at, clause.try_len, to)
}

fn stands_between(regions: &Regions<'_>, start: u32, len: u32, number: usize) -> bool
    ensures yes { OnTrue result (StandsIn regions.now.body.now (record { kind = Code; from = start; to = start + len; first = 0 }) number) }
    ensures no { OnFalse result (StandsIn regions.now.body.now (record { kind = Code; from = start; to = start + len; first = 0 }) number → ⊥) }
{
    match place(regions, number) {
        Some(place) => start <= place && place - start < len,
        None => false,
    }
}

fn ends_no_finally(regions: &Regions<'_>, number: usize) -> bool
    requires nodes { AreNodes regions.now.body.now regions.now.nodes.now }
    requires laminar { IsLaminar regions.now.body.now }
    ensures yes { OnTrue result (EndsNoFinally regions.now.body.now number) }
    ensures no { OnFalse result (EndsNoFinally regions.now.body.now number → ⊥) }
{
    match last_round(regions, number) {
        Some(node) => !is_finally(node.kind),
        None => false,
    }
}

// Of the regions that hold an instruction the last, which is the innermost.
fn last_round(regions: &Regions<'_>, number: usize) -> Option<Region>
    ensures found { (node : Region) → result ≡ Some node → IsLastRound regions.now.body.now regions.now.nodes.now number node }
    ensures none { result ≡ None → HasNoneRound regions.now.body.now regions.now.nodes.now number }
{
    for back in 0..regions.nodes.len() {
        let node = regions.nodes[regions.nodes.len() - 1 - back];
        if stands_in(regions, node, number) {
            return Some(node);
        }
    }
    None
}

fn crosses_to_some(regions: &Regions<'_>, number: usize, aims: &[u32]) -> bool
    requires { AreNodes regions.now.body.now regions.now.nodes.now }
    ensures yes { OnTrue result ((j : ℕ) × Contains aims.now j × HasRegion regions.now.body.now (Crosses regions.now.body.now number j)) }
    ensures no { OnFalse result ((j : ℕ) × Contains aims.now j × HasRegion regions.now.body.now (Crosses regions.now.body.now number j) → ⊥) }
{
    for to in aims {
        if has_region(regions, Question::Crosses, number, *to as usize) {
            return true;
        }
    }
    false
}
