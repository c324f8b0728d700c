// Whether regions cross one another.

ghost use Rattle.std.specs.Prelude.{◌≡◌, ◌+◌, ◌<◌, length, AllPairs, IfOk, MatchBool, MatchOption};
ghost use Rattle.cil_regions.specs.Region.{AreLaminar, ComesBefore, CrossesAt, IsLeast};
ghost use Rattle.cil_regions.specs.Outlasting.{IsCrossed, IsOutlasting, AreOutlasting};

use crate::region::Span;
use dc_base::NoMemory;
use std::alloc::Global;

/// The least start of a region that crosses another one.
pub fn crossing(alloc: Global, spans: &[Span]) -> Result<Option<u32>, NoMemory>
    requires { AllPairs ComesBefore spans.now }
    ensures { IfOk result (λ found. MatchOption found (AllPairs AreLaminar spans.now) (IsLeast (CrossesAt spans.now))) }
{
    let outlasting = outlasting(alloc, spans)?;
    Ok(first_crossed(spans, outlasting.as_slice()))
}

// The start of the first region that a later one crosses, where for each the next one is known that ends behind it.
fn first_crossed(spans: &[Span], outlasting: &[usize]) -> Option<u32>
    requires ordered { AllPairs ComesBefore spans.now }
    requires outlasting { AreOutlasting spans.now 0 outlasting.now }
    ensures { MatchOption result (AllPairs AreLaminar spans.now) (IsLeast (CrossesAt spans.now)) }
{
    for (i, span) in spans.iter().enumerate() {
        if is_crossed(spans, i, outlasting[i]) {
            return Some(span.from);
        }
    }
    None
}

// Whether a later region crosses this one. The next one that ends behind it does so if any does.
fn is_crossed(spans: &[Span], i: usize, next: usize) -> bool
    requires within { i < length spans.now }
    requires ordered { AllPairs ComesBefore spans.now }
    requires next { IsOutlasting spans.now i next }
    ensures { MatchBool result (IsCrossed spans.now i) (IsCrossed spans.now i → ⊥) }
{
    match spans.get(next) {
        Some(other) => other.from < spans[i].to,
        None => false,
    }
}

// For each region the number of the next one that ends behind it.
fn outlasting(alloc: Global, spans: &[Span]) -> Result<Vec<usize>, NoMemory>
    ensures { IfOk result (λ outlasting. AreOutlasting spans.now 0 outlasting.items) }
{
    let mut outlasting = vec![in alloc; 0; spans.len()]?;
    let mut i = spans.len();
    while i > 0 {
        i -= 1;
        outlasting[i] = next_outlasting(spans, outlasting.as_slice(), i);
    }
    Ok(outlasting)
}

// The number of the next region that ends behind this one, where it is known for those behind this one. A region that
// doesn't end behind this one is passed over with all those that it outlasts.
fn next_outlasting(spans: &[Span], outlasting: &[usize], i: usize) -> usize
    requires within { i < length spans.now }
    requires outlasting { AreOutlasting spans.now (i + 1) outlasting.now }
    ensures { IsOutlasting spans.now i result }
{
    let mut next = i + 1;
    while next < spans.len() && spans[next].to <= spans[i].to {
        next = outlasting[next];
    }
    next
}
