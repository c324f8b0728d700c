// A text of UTF-16 units that its holder owns.

ghost use Rattle.std.specs.Prelude.{◌≡◌, IfOk, nat_eq};
ghost use Rattle.std.specs.Cmp.{partial_order_from_own_ties};
ghost use Rattle.std.specs.Cmp.Lexicographic.{slice_cmp};
ghost use Rattle.std.specs.Cmp.Rules.{comparing, hashing};
ghost use Rattle.std.specs.Hash as fed;
ghost use Rattle.std.specs.Ordering.{as_partial_cmp, nat_cmp};
ghost use Rattle.std.proofs.Common.{rules};
ghost use lib.Pointwise.{pointwise};

use crate::NoMemory;
use std::alloc::Global;
use std::cmp::Ordering;
use std::hash::{Hash, Hasher};
use std::marker::Model;

/// A text, which contracts see as the list of its UTF-16 units. Any list of units is one (ECMA-335 III.1.1.3).
#[derive(Debug, Drop)]
pub struct Text16 {
    units: Vec<u16>,
}

impl Model for Text16 {
    ghost use Rattle.std.specs.Prelude.{List, ℕ};
    ghost use Rattle.std.specs.Coded.{coded_list, coded_ℕ};

    ghost Value = { List ℕ };

    ghost coded = { coded_list coded_ℕ };

    ghost view = { λ t. t.units.items };
}

impl Text16 {
    pub fn of(alloc: Global, units: &[u16]) -> Result<Text16, NoMemory>
        ensures { IfOk result (λ text. text ≡ units.now) }
    {
        Ok(Text16 {
            units: Vec::from_slice(alloc, units)?,
        })
    }

    pub fn units(&self) -> &[u16]
        ensures { result.now ≡ self.now }
    {
        self.units.as_slice()
    }

    pub fn copied(&self, alloc: Global) -> Result<Text16, NoMemory>
        ensures { IfOk result (λ text. text ≡ self.now) }
    {
        Text16::of(alloc, self.units())
    }
}

impl PartialEq for Text16 {
    ghost eq = { pointwise nat_eq };

    ghost laws = { Prim.search (comparing, rules) };

    fn eq(&self, other: &Text16) -> bool {
        self.units() == other.units()
    }
}

impl Eq for Text16 {
    ghost laws = { Prim.search (comparing, rules) };
}

/// Texts stand in the order of their units.
impl Ord for Text16 {
    ghost cmp = { slice_cmp nat_cmp };

    ghost total = { Prim.search (comparing, rules) };

    ghost matches_partial_cmp = { Prim.search (comparing, rules) };

    ghost matches_eq = { Prim.search (comparing, rules) };

    fn cmp(&self, other: &Text16) -> Ordering {
        self.units().cmp(other.units())
    }
}

impl PartialOrd for Text16 {
    ghost partial_cmp = { as_partial_cmp (slice_cmp nat_cmp) };

    ghost laws = { partial_order_from_own_ties (Prim.search (comparing, rules)) (Prim.search (comparing, rules)) };

    fn partial_cmp(&self, other: &Text16) -> Option<Ordering> {
        Some(self.cmp(other))
    }
}

impl Hash for Text16 {
    ghost hash_input = { λ t. fed.slice fed.u16 t };

    ghost respects_eq = { Prim.search (hashing, rules) };

    fn hash<H: Hasher>(&self, state: &mut H) {
        self.units().hash(state);
    }
}

#[cfg(test)]
mod tests {
    use super::*;
    use std::test::Fail;

    #[test]
    fn keeps_its_units(rt: HostRuntime) -> Result<(), Fail> {
        let alloc = rt.alloc();
        let text = Text16::of(alloc, &[0x41, 0xD800])?;
        assert_eq!(rt; text.units(), [0x41, 0xD800].as_slice());
        assert!(rt; text.copied(alloc)? == text);
        assert!(rt; Text16::of(alloc, &[0x41])? < text);
        Ok(())
    }
}
