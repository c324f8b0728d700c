// The types that are still to be searched.

ghost use Rattle.std.specs.Prelude.{◌≡◌, ◌∷◌, [], IsTrue, MatchOption, None, ⊤};
ghost use Rattle.class_rows.specs.declared.row.Kind.{Kind};
ghost use Rattle.class_rows.specs.Types.{HasType};
ghost use Rattle.class_rows.specs.Lookups.{AreSearched};
ghost use Rattle.class_assign.specs.Supers.{AreSupers};
ghost use Rattle.class_search.specs.Fit.{BasesAreClasses, NamedAreInterfaces, IsSearchedBefore};
ghost use Rattle.class_search.specs.Left.{CanSearch, types_left};

use crate::interfaces::{Interfaces, first_interface};
use class_assign::Supers;
use class_parts::{base_of, derives};
use class_rows::{Kind, TypeRow};
use class_spread::is_among;
use dc_base::TypeId;

/// The types that are still to be searched: a type and its base chain, interfaces, and one type more.
#[derive(Clone, Copy)]
pub struct Search<'a> {
    types: &'a [TypeRow],
    supers: &'a Supers,
    up: Option<TypeId>,
    interfaces: Interfaces<'a>,
    last: Option<TypeId>,
}

/// A search in a type. For an interface it takes the time of its interfaces, for any other type none.
pub fn search_in<'a>(types: &'a [TypeRow], supers: &'a Supers, t: TypeId) -> Search<'a>
    requires supers { AreSupers types.now supers.now }
    requires bases { BasesAreClasses types.now }
    requires interfaces { NamedAreInterfaces types.now }
    ensures can { CanSearch result }
    ensures searched { AreSearched types.now t.0 (types_left result) }
{
    if is_interface(types, t) {
        in_interface(types, supers, t)
    } else {
        in_other(types, supers, t)
    }
}

fn in_interface<'a>(types: &'a [TypeRow], supers: &'a Supers, t: TypeId) -> Search<'a>
    requires supers { AreSupers types.now supers.now }
    requires bases { BasesAreClasses types.now }
    requires interfaces { NamedAreInterfaces types.now }
    requires kind { HasType types.now t.0 (λ row. row.kind ≡ Kind.Interface) }
    ensures can { CanSearch result }
    ensures searched { AreSearched types.now t.0 (types_left result) }
{
    let last = object_behind(types, supers, t);
    Search {
        types,
        supers,
        up: Some(t),
        interfaces: Interfaces {
            own: &[],
            onward: Some(t.0),
        },
        last,
    }
}

fn in_other<'a>(types: &'a [TypeRow], supers: &'a Supers, t: TypeId) -> Search<'a>
    requires supers { AreSupers types.now supers.now }
    requires kind { HasType types.now t.0 (λ row. row.kind ≡ Kind.Interface) → ⊥ }
    ensures can { CanSearch result }
    ensures searched { AreSearched types.now t.0 (types_left result) }
{
    Search {
        types,
        supers,
        up: Some(t),
        interfaces: Interfaces {
            own: &[],
            onward: None,
        },
        last: None,
    }
}

// System.Object, unless it stands in the base chain of a type or among its interfaces.
fn object_behind(types: &[TypeRow], supers: &Supers, t: TypeId) -> Option<TypeId>
    requires { AreSupers types.now supers.now }
    ensures { MatchOption result (IsSearchedBefore types.now t.0 supers.now.object.0) (λ o. (o.0 ≡ supers.now.object.0) × (IsSearchedBefore types.now t.0 supers.now.object.0 → ⊥)) }
{
    if is_searched_before(types, supers, t, supers.object) {
        None
    } else {
        Some(supers.object)
    }
}

fn is_searched_before(types: &[TypeRow], supers: &Supers, t: TypeId, o: TypeId) -> bool
    requires { AreSupers types.now supers.now }
    ensures yes { IsTrue result → IsSearchedBefore types.now t.0 o.0 }
    ensures no { IsSearchedBefore types.now t.0 o.0 → IsTrue result }
{
    let order = supers.orders.bases.items();
    derives(types, order, t, o) || is_among(types, order, supers.spreads.items(), t, o)
}

fn is_interface(types: &[TypeRow], t: TypeId) -> bool
    ensures yes { IsTrue result → HasType types.now t.0 (λ row. row.kind ≡ Kind.Interface) }
    ensures no { HasType types.now t.0 (λ row. row.kind ≡ Kind.Interface) → IsTrue result }
{
    match types.get(t.0 as usize) {
        Some(row) => matches!(row.kind, Kind::Interface),
        None => false,
    }
}

impl<'a> Search<'a> {
    /// The next type, and what is to be searched behind it.
    pub fn split_first(self) -> Option<(TypeId, Search<'a>)>
        requires { CanSearch self }
        ensures can { MatchOption result ⊤ (λ p. CanSearch p.1) }
        ensures first { MatchOption result (types_left self.entry ≡ []) (λ p. types_left self.entry ≡ p.0.0 ∷ types_left p.1) }
    {
        match self.up {
            Some(t) => {
                let up = base_of(self.types, t);
                Some((t, Search { up, ..self }))
            }
            None => self.split_behind(),
        }
    }

    // The same above the base chain.
    fn split_behind(self) -> Option<(TypeId, Search<'a>)>
        requires can { CanSearch self }
        requires top { self.up ≡ None }
        ensures can { MatchOption result ⊤ (λ p. CanSearch p.1) }
        ensures first { MatchOption result (types_left self.entry ≡ []) (λ p. types_left self.entry ≡ p.0.0 ∷ types_left p.1) }
    {
        match first_interface(self.supers, self.interfaces) {
            Some((i, interfaces)) => Some((TypeId(i), Search { interfaces, ..self })),
            None => {
                let last = self.last?;
                Some((last, Search { last: None, ..self }))
            }
        }
    }
}
