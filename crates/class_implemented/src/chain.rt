// Methods of interfaces that have no implementer for a class.

ghost use Rattle.std.specs.Prelude.{◌≡◌, ◌<◌, Some, IsTrue, slice_get, length};
ghost use Rattle.class_keys.specs.Least.{IsLeastOf};
ghost use Rattle.class_implemented.specs.Known.{IsKnown};
ghost use Rattle.class_open.specs.Stacks.{AreStacked};
ghost use Rattle.class_implemented.specs.Standing.{IsStandingAt, HasOpenLike};
ghost use Rattle.class_implemented.specs.Open.{IsMethod, IsDone, IsOpen, IsOpenIn, IsOpenAmong, IsOpenFrom, ArePassed};

use crate::known::Known;
use crate::marked::is_marked;
use crate::passed::is_passed;
use crate::standing::Standing;
use class_keys::lesser;
use class_open::{Open, innermost_alike};
use class_rows::{MemberRow, Sort};
use class_spread::spread_at;
use dc_base::TypeId;

// Whether a class or a base of it has an implementer of a method, whose row is `due`.
fn is_done(known: &Known, standing: &Standing, c: TypeId, m: u32, due: &MemberRow) -> bool
    requires known { IsKnown known.now }
    requires standing { IsStandingAt known.now standing.now c.0 }
    requires stands { slice_get known.now.members.now m ≡ Some due.now }
    ensures yes { IsTrue result → IsDone known.now c.0 m }
    ensures no { IsDone known.now c.0 m → IsTrue result }
{
    is_marked(standing.flags.as_slice(), standing.marks.as_slice(), m)
        || has_open_like(known, &standing.stacks, m, due)
}

// Whether a public instance member like it stands open.
fn has_open_like(known: &Known, stacks: &Open, m: u32, due: &MemberRow) -> bool
    requires known { IsKnown known.now }
    requires stacked { AreStacked known.now.signs.now stacks.now.tops.items stacks.now.below.items stacks.now.trail }
    requires stands { slice_get known.now.members.now m ≡ Some due.now }
    ensures yes { IsTrue result → HasOpenLike known.now.types.now known.now.members.now due.now stacks.now.trail }
    ensures no { HasOpenLike known.now.types.now known.now.members.now due.now stacks.now.trail → IsTrue result }
{
    match innermost_alike(known.types, known.members, known.signs, stacks, m, due) {
        Some(_) => true,
        None => false,
    }
}

fn is_method(row: &MemberRow) -> bool
    ensures yes { IsTrue result → IsMethod row.now }
    ensures no { IsMethod row.now → IsTrue result }
{
    !matches!(row.kind.sort(), Sort::Field) && !row.is_static
}

// Whether a member is a method that has no implementer for a class.
fn is_open(known: &Known, standing: &Standing, c: TypeId, m: u32) -> bool
    requires known { IsKnown known.now }
    requires standing { IsStandingAt known.now standing.now c.0 }
    ensures yes { IsTrue result → IsOpen known.now c.0 m }
    ensures no { IsOpen known.now c.0 m → IsTrue result }
{
    match known.members.get(m as usize) {
        Some(row) => is_method(row) && !is_done(known, standing, c, m, row),
        None => false,
    }
}

fn open_one(known: &Known, standing: &Standing, c: TypeId, m: u32) -> Option<usize>
    requires known { IsKnown known.now }
    requires standing { IsStandingAt known.now standing.now c.0 }
    ensures { IsLeastOf (λ n. (n ≡ m) × IsOpen known.now c.0 n) result }
{
    if is_open(known, standing, c, m) {
        Some(m as usize)
    } else {
        None
    }
}

// The least such method of an interface.
fn open_in(known: &Known, standing: &Standing, c: TypeId, i: TypeId) -> Option<usize>
    requires known { IsKnown known.now }
    requires standing { IsStandingAt known.now standing.now c.0 }
    ensures { IsLeastOf (IsOpenIn known.now c.0 i.0) result }
{
    let own = known.index.of_owner(known.members, i);
    let mut least = None;
    for m in own {
        least = lesser(least, open_one(known, standing, c, *m));
    }
    least
}

fn open_anew(
    known: &Known,
    standing: &Standing,
    passed: &[Option<u32>],
    c: TypeId,
    i: TypeId,
) -> Option<usize>
    requires known { IsKnown known.now }
    requires standing { IsStandingAt known.now standing.now c.0 }
    requires passed { ArePassed known.now passed.now }
    ensures { IsLeastOf (IsOpenIn known.now c.0 i.0) result }
{
    if is_passed(known, passed, c, i.0) {
        None
    } else {
        open_in(known, standing, c, i)
    }
}

// The least of some interfaces.
fn open_among(
    known: &Known,
    standing: &Standing,
    passed: &[Option<u32>],
    c: TypeId,
    interfaces: &[u32],
) -> Option<usize>
    requires known { IsKnown known.now }
    requires standing { IsStandingAt known.now standing.now c.0 }
    requires passed { ArePassed known.now passed.now }
    ensures { IsLeastOf (IsOpenAmong known.now c.0 interfaces.now) result }
{
    let mut least = None;
    for i in interfaces {
        least = lesser(least, open_anew(known, standing, passed, c, TypeId(*i)));
    }
    least
}

/// The least method of an interface that `d` names in turn which has no implementer for `c`.
pub fn open_from(
    known: &Known,
    standing: &Standing,
    passed: &[Option<u32>],
    c: TypeId,
    d: TypeId,
) -> Option<usize>
    requires known { IsKnown known.now }
    requires standing { IsStandingAt known.now standing.now c.0 }
    requires passed { ArePassed known.now passed.now }
    requires within { d.0 < length known.now.types.now }
    ensures { IsLeastOf (IsOpenFrom known.now c.0 d.0) result }
{
    let mut least = None;
    let mut at = d.0;
    while let Some(spread) = spread_at(known.spreads, at) {
        if is_passed(known, passed, c, at) {
            return least;
        }
        least = lesser(
            least,
            open_among(known, standing, passed, c, spread.own.items()),
        );
        let Some(onward) = spread.onward else {
            return least;
        };
        at = onward;
    }
    least
}
