// Types that were gone through for a class: it has an implementer of each of their methods, and of each method of the
// interfaces that they name in turn.

ghost use Rattle.std.specs.Prelude.{◌≡◌, ◌⊎◌, ◌<◌, ℕ, Some, IsTrue, IfSome, length, slice_get};
ghost use Rattle.class_implemented.specs.Known.{IsKnown};
ghost use Rattle.class_implemented.specs.Open.{IsOpenFrom, IsPassed, ArePassed, IsMarkedWith};

use crate::known::Known;
use class_parts::base_of;
use class_spread::spread_at;
use dc_base::TypeId;

/// Whether the base of a class is the last class for which a type was gone through.
pub fn is_passed(known: &Known, passed: &[Option<u32>], c: TypeId, t: u32) -> bool
    requires { ArePassed known.now passed.now }
    ensures { IsTrue result → IsPassed known.now c.0 t }
{
    match base_of(known.types, c) {
        Some(base) => is_passed_for(passed, base, t),
        None => false,
    }
}

fn is_passed_for(passed: &[Option<u32>], c: TypeId, t: u32) -> bool
    ensures { IsTrue result → slice_get passed.now t ≡ Some (Some c.0) }
{
    match passed.get(t as usize) {
        Some(Some(last)) => *last == c.0,
        Some(None) => false,
        None => false,
    }
}

/// Marks the interfaces that a class names in turn as gone through for it, as far as one that was for its base.
pub fn passed_by(known: &Known, passed: Vec<Option<u32>>, c: TypeId) -> Vec<Option<u32>>
    requires known { IsKnown known.now }
    requires within { c.0 < length known.now.types.now }
    requires passed { ArePassed known.now passed.items }
    requires none { (m : ℕ) → IsOpenFrom known.now c.0 c.0 m → ⊥ }
    ensures { ArePassed known.now result.items }
{
    let mut passed = passed;
    let mut at = c.0;
    while let Some(spread) = spread_at(known.spreads, at) {
        let next = next_of(known, passed.as_slice(), c, spread.onward);
        passed = with_all(passed, spread.own.items(), c);
        let Some(onward) = next else {
            return passed;
        };
        at = onward;
    }
    passed
}

// The type that the interfaces go on with, unless it was gone through for the base.
fn next_of(known: &Known, passed: &[Option<u32>], c: TypeId, onward: Option<u32>) -> Option<u32>
    requires { ArePassed known.now passed.now }
    ensures { IfSome result (λ b. onward ≡ Some b) }
{
    match onward {
        Some(t) => {
            if is_passed(known, passed, c, t) {
                None
            } else {
                Some(t)
            }
        }
        None => None,
    }
}

fn with_all(mut passed: Vec<Option<u32>>, interfaces: &[u32], c: TypeId) -> Vec<Option<u32>>
    ensures { IsMarkedWith passed.items result.items interfaces.now c.0 }
{
    for i in interfaces {
        passed = with_one(passed, *i, c);
    }
    passed
}

fn with_one(mut passed: Vec<Option<u32>>, i: u32, c: TypeId) -> Vec<Option<u32>>
    ensures { (t x : ℕ) → slice_get result.items t ≡ Some (Some x) → ((x ≡ c.0) × (t ≡ i)) ⊎ (slice_get passed.items t ≡ Some (Some x)) }
{
    if (i as usize) < passed.len() {
        passed[i as usize] = Some(c.0);
    }
    passed
}
