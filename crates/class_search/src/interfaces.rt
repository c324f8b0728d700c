// Interfaces that are still to be searched.

ghost use Rattle.std.specs.Prelude.{◌≡◌, ◌∷◌, [], MatchOption};
ghost use Rattle.class_search.specs.Left.{CanFollow, interfaces_left};

use class_assign::Supers;
use class_spread::spread_at;

/// These interfaces, and then those of a type.
#[derive(Clone, Copy)]
pub struct Interfaces<'a> {
    pub own: &'a [u32],
    pub onward: Option<u32>,
}

/// The first of the interfaces, and what is left behind it.
pub fn first_interface<'a>(
    supers: &'a Supers,
    interfaces: Interfaces<'a>,
) -> Option<(u32, Interfaces<'a>)>
    requires { CanFollow supers.now }
    ensures { MatchOption result (interfaces_left supers.now interfaces.entry ≡ []) (λ p. interfaces_left supers.now interfaces.entry ≡ p.0 ∷ interfaces_left supers.now p.1) }
{
    let mut own = interfaces.own;
    let mut onward = interfaces.onward;
    loop {
        if let Some((first, rest)) = own.split_first() {
            return Some((*first, Interfaces { own: rest, onward }));
        }
        let spread = spread_at(supers.spreads.items(), onward?)?;
        own = spread.own.items();
        onward = spread.onward;
    }
}
