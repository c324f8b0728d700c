// Members of one name, kind and result, with parameters of the same types and ways.

ghost use Rattle.std.specs.Prelude.{◌≡◌, IsTrue, length, true};
ghost use Rattle.dc_base.specs.declared.ty.Ty.{Ty};
ghost use Rattle.class_rows.specs.Members.{sort_of};
ghost use Rattle.class_rows.specs.Implemented.{AreAlike, AreOneList, IsOneWay, differs};

use class_rows::{MemberRow, Param, Sort, TypeRow, Way};
use dc_base::{Text, Ty, TypeId};

/// Whether two members have one name, kind and result, and parameters of the same types and ways, where `ref` and `out` are
/// one between an own member and one of the references.
pub fn are_alike(types: &[TypeRow], a: &MemberRow, b: &MemberRow) -> bool
    ensures yes { IsTrue result → AreAlike types.now a.now b.now }
    ensures no { AreAlike types.now a.now b.now → IsTrue result }
{
    let Some(owner) = types.get(a.owner.0 as usize) else {
        return false;
    };
    let Some(other) = types.get(b.owner.0 as usize) else {
        return false;
    };
    is_same_text(&a.name, &b.name)
        && is_same_sort(a.kind.sort(), b.kind.sort())
        && is_same_ty(a.result, b.result)
        && are_one_list(
            is_apart(owner.own, other.own),
            a.params.items(),
            b.params.items(),
        )
}

fn is_same_text(one: &Text, other: &Text) -> bool
    ensures yes { IsTrue result → one.now ≡ other.now }
    ensures no { one.now ≡ other.now → IsTrue result }
{
    one == other
}

fn is_same_sort(one: Sort, other: Sort) -> bool
    ensures yes { IsTrue result → one ≡ other }
    ensures no { one ≡ other → IsTrue result }
{
    one == other
}

fn is_same_ty(one: Ty, other: Ty) -> bool
    ensures yes { IsTrue result → one ≡ other }
    ensures no { one ≡ other → IsTrue result }
{
    one == other
}

fn is_apart(one: bool, other: bool) -> bool
    ensures { result ≡ differs one other }
{
    one != other
}

fn are_one_list(across: bool, ps: &[Param], qs: &[Param]) -> bool
    ensures yes { IsTrue result → AreOneList across ps.now qs.now }
    ensures no { AreOneList across ps.now qs.now → IsTrue result }
{
    if ps.len() != qs.len() {
        return false;
    }
    for k in 0..ps.len() {
        if !is_one(across, ps[k], qs[k]) {
            return false;
        }
    }
    true
}

fn is_one(across: bool, p: Param, q: Param) -> bool
    ensures yes { IsTrue result → (p.ty ≡ q.ty) × IsOneWay across p.way q.way }
    ensures no { (p.ty ≡ q.ty) × IsOneWay across p.way q.way → IsTrue result }
{
    is_same_ty(p.ty, q.ty) && is_one_way(across, p.way, q.way)
}

fn is_one_way(across: bool, v: Way, w: Way) -> bool
    ensures yes { IsTrue result → IsOneWay across v w }
    ensures no { IsOneWay across v w → IsTrue result }
{
    match v {
        Way::ByValue => is_same_way(w, Way::ByValue),
        Way::Ref => match w {
            Way::ByValue => false,
            Way::Ref => true,
            Way::Out => across,
        },
        Way::Out => match w {
            Way::ByValue => false,
            Way::Ref => across,
            Way::Out => true,
        },
    }
}

fn is_same_way(one: Way, other: Way) -> bool
    ensures yes { IsTrue result → other ≡ one }
    ensures no { other ≡ one → IsTrue result }
{
    one == other
}
