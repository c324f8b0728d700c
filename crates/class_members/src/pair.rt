// Two members side by side.

ghost use Rattle.std.specs.Prelude.{◌≡◌, ◌⊎◌, ◌++◌, [], ◌∷◌, map, IsTrue, IfSome, IfNone};
ghost use Rattle.class_rows.specs.declared.row.Sort.TheVariants.{Getter, Setter};
ghost use Rattle.class_rows.specs.Members.{types_of, sort_of, IsOverloaded, IsProperty, AreOverloads, MayShareName};

use class_rows::{MemberRow, Param, Sort};
use dc_base::Ty;

fn same_ty(a: Ty, b: Ty) -> bool
    ensures yes { IsTrue result → a ≡ b }
    ensures no { a ≡ b → IsTrue result }
{
    a == b
}

// Whether the parameters of the one are those of the other by their types.
fn same_types(a: &[Param], b: &[Param]) -> bool
    ensures yes { IsTrue result → map (λ p. p.ty) a.now ≡ map (λ p. p.ty) b.now }
    ensures no { map (λ p. p.ty) a.now ≡ map (λ p. p.ty) b.now → IsTrue result }
{
    if a.len() != b.len() {
        return false;
    }
    for index in 0..a.len() {
        if !same_ty(a[index].ty, b[index].ty) {
            return false;
        }
    }
    true
}

/// Whether members of this sort may have one name.
pub fn is_overloaded(sort: Sort) -> bool
    ensures yes { IsTrue result → IsOverloaded sort }
    ensures no { IsOverloaded sort → IsTrue result }
{
    matches!(
        sort,
        Sort::Method | Sort::Indexer | Sort::Constructor | Sort::Operator
    )
}

fn are_overloads(a: &MemberRow, b: &MemberRow) -> bool
    ensures yes { IsTrue result → AreOverloads a.now b.now }
    ensures no { AreOverloads a.now b.now → IsTrue result }
{
    if a.kind.sort() != b.kind.sort() {
        return false;
    }
    is_overloaded(a.kind.sort()) && !same_types(a.params.items(), b.params.items())
}

fn last_of(params: &[Param]) -> Option<(&[Param], Param)>
    ensures some { IfSome result (λ parts. params.now ≡ parts.0.now ++ (parts.1 ∷ [])) }
    ensures none { IfNone result (params.now ≡ []) }
{
    match params {
        [front @ .., last] => Some((front, *last)),
        [] => None,
    }
}

// Whether a setter takes, last, a value of the getter's result, behind its parameters.
fn takes_value(getter: &MemberRow, setter: &MemberRow) -> bool
    ensures yes { IsTrue result → types_of setter.now ≡ types_of getter.now ++ (getter.now.result ∷ []) }
    ensures no { types_of setter.now ≡ types_of getter.now ++ (getter.now.result ∷ []) → IsTrue result }
{
    match last_of(setter.params.items()) {
        Some((front, last)) => {
            same_ty(last.ty, getter.result) && same_types(front, getter.params.items())
        }
        None => false,
    }
}

fn are_accessors(getter: &MemberRow, setter: &MemberRow) -> bool
    ensures yes { IsTrue result → (sort_of getter.now.kind ≡ Getter) × (sort_of setter.now.kind ≡ Setter) }
    ensures no { (sort_of getter.now.kind ≡ Getter) × (sort_of setter.now.kind ≡ Setter) → IsTrue result }
{
    getter.kind.sort() == Sort::Getter && setter.kind.sort() == Sort::Setter
}

fn is_property(getter: &MemberRow, setter: &MemberRow) -> bool
    ensures yes { IsTrue result → IsProperty getter.now setter.now }
    ensures no { IsProperty getter.now setter.now → IsTrue result }
{
    if getter.is_static != setter.is_static {
        return false;
    }
    are_accessors(getter, setter) && takes_value(getter, setter)
}

fn are_of_one_property(a: &MemberRow, b: &MemberRow) -> bool
    ensures yes { IsTrue result → IsProperty a.now b.now ⊎ IsProperty b.now a.now }
    ensures no { IsProperty a.now b.now ⊎ IsProperty b.now a.now → IsTrue result }
{
    is_property(a, b) || is_property(b, a)
}

/// Whether two members may have one name.
pub fn may_share_name(a: &MemberRow, b: &MemberRow) -> bool
    ensures yes { IsTrue result → MayShareName a.now b.now }
    ensures no { MayShareName a.now b.now → IsTrue result }
{
    are_of_one_property(a, b) || are_overloads(a, b)
}
