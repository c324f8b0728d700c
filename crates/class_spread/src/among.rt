// Whether an interface stands among those of a type.

ghost use Rattle.std.specs.Prelude.{◌≡◌, ◌<◌, ℕ, IsTrue, length, nat_eq};
ghost use Rattle.std.specs.List.{list_any};
ghost use Rattle.class_chains.specs.Ends.{IsAboveFirst};
ghost use Rattle.class_rows.specs.Types.{IsAbove, NamesInterface};
ghost use Rattle.class_spread.specs.Spreads.{AreSpreads};

use crate::{Spread, spread_at};
use class_rows::TypeRow;
use dc_base::TypeId;

/// Whether a type names an interface, or one that it names does in turn. It takes the time of the interfaces of the type.
pub fn is_among(
    types: &[TypeRow],
    order: &[u32],
    spreads: &[Option<Spread>],
    t: TypeId,
    interface: TypeId,
) -> bool
    requires order { IsAboveFirst (IsAbove types.now) (length types.now) order.now }
    requires spreads { AreSpreads types.now spreads.now }
    ensures yes { IsTrue result → NamesInterface types.now t.0 interface.0 }
    ensures no { NamesInterface types.now t.0 interface.0 → IsTrue result }
{
    let mut at = t.0;
    while let Some(spread) = spread_at(spreads, at) {
        if is_one_of(spread.own.items(), interface.0) {
            return true;
        }
        let Some(above) = spread.onward else {
            return false;
        };
        at = above;
    }
    false
}

fn is_one_of(numbers: &[u32], x: u32) -> bool
    ensures { result ≡ list_any (nat_eq x) numbers.now }
{
    numbers.iter().any(|y| x == *y)
}
