// The first member of each sign in each type that is there.

ghost use Rattle.std.specs.Prelude.{◌≡◌, ◌≤◌, ◌<◌, length, IfOk, IsTrue, slice_get, Some};
ghost use Rattle.cli_refs.specs.Picks.{ArePlaces, IsPlace, ArePicks, ArePicked, IsPickedAt};

use class_keys::first_indices;
use class_rows::MemberRow;
use dc_base::NoMemory;
use std::alloc::Global;

/// The type of a member, and its sign.
#[derive(Clone, Copy, Debug, PartialEq, Eq, Hash)]
pub struct Place {
    pub owner: u32,
    pub sign: usize,
}

/// For each member whether it is the first of its sign in its type, and its type one of so many. It takes the time of one
/// look-up in a table of hashes for each member.
pub fn picks_of(
    alloc: Global,
    count: usize,
    members: &[MemberRow],
    signs: &[usize],
) -> Result<Vec<bool>, NoMemory>
    requires { length members.now ≤ length signs.now }
    ensures { IfOk result (λ picks. ArePicks count members.now signs.now picks.items) }
{
    let places = places_of(alloc, members, signs)?;
    let firsts = first_indices(alloc, places.as_slice())?;
    picked(alloc, count, members, firsts.as_slice())
}

fn places_of(alloc: Global, members: &[MemberRow], signs: &[usize]) -> Result<Vec<Place>, NoMemory>
    requires { length members.now ≤ length signs.now }
    ensures { IfOk result (λ places. ArePlaces members.now signs.now (length members.now) places.items) }
{
    let mut places = Vec::new(alloc);
    for m in 0..members.len() {
        places.push(place_of(&members[m], signs[m]))?;
    }
    Ok(places)
}

fn place_of(row: &MemberRow, sign: usize) -> Place
    ensures { IsPlace row.now sign result }
{
    Place {
        owner: row.owner.0,
        sign,
    }
}

fn picked(
    alloc: Global,
    count: usize,
    members: &[MemberRow],
    firsts: &[usize],
) -> Result<Vec<bool>, NoMemory>
    requires { length firsts.now ≡ length members.now }
    ensures { IfOk result (λ picks. ArePicked count members.now firsts.now (length members.now) picks.items) }
{
    let mut picks = Vec::new(alloc);
    for m in 0..members.len() {
        picks.push(is_picked(count, &members[m], firsts[m], m))?;
    }
    Ok(picks)
}

fn is_picked(count: usize, row: &MemberRow, first: usize, m: usize) -> bool
    ensures yes { IsTrue result → (first ≡ m) × (row.now.owner.0 < count) }
    ensures no { (first ≡ m) × (row.now.owner.0 < count) → IsTrue result }
{
    first == m && (row.owner.0 as usize) < count
}
