// Conditions in their order, asked of rows.

ghost use Rattle.std.specs.Prelude.{◌≡◌, ◌<◌, ◌≤◌, ℕ, All, IfSome, IfNone, Ok, Err};
ghost use Rattle.std.specs.Bool.{OnTrue, OnFalse};
ghost use Rattle.dc_causes.specs.Rows.{OfRows, AtPlace, InTurn};

/// A condition on a subject `S`, which is asked of a row at a time. It says itself of how many rows it is asked: those of
/// the table that it is about.
pub trait Condition<S>: Copy {
    ghost rows: { Self → S → ℕ };

    ghost Holds: { Self → S → ℕ → Type 0 };

    fn rows(self, subject: &S) -> usize
        ensures { result ≡ rows self subject.now };

    fn holds(self, subject: &S, row: usize) -> bool
        requires { row < rows self subject.now }
        ensures yes { OnTrue result (Holds self subject.now row) }
        ensures no { OnFalse result (Holds self subject.now row → ⊥) };
}

/// The first condition that doesn't hold of all of its rows, with the least row of which it doesn't.
pub fn first_broken<S, C: Condition<S>>(conditions: &[C], subject: &S) -> Option<(C, usize)>
    ensures broken { IfSome result (λ found. OfRows C.rows C.Holds subject.now conditions.now (Err found)) }
    ensures met { IfNone result (OfRows C.rows C.Holds subject.now conditions.now (Ok tt)) }
{
    for condition in conditions {
        if let Some(row) = broken_row(*condition, subject) {
            return Some((*condition, row));
        }
    }
    None
}

// The least row of which a condition doesn't hold.
fn broken_row<S, C: Condition<S>>(condition: C, subject: &S) -> Option<usize>
    ensures within { IfSome result (λ row. row < C.rows condition subject.now) }
    ensures before { IfSome result (λ row. (k : ℕ) → k < row → C.Holds condition subject.now k) }
    ensures broken { IfSome result (λ row. C.Holds condition subject.now row → ⊥) }
    ensures met { IfNone result ((k : ℕ) → k < C.rows condition subject.now → C.Holds condition subject.now k) }
{
    for row in 0..condition.rows(subject) {
        if !condition.holds(subject, row) {
            return Some(row);
        }
    }
    None
}

/// The first of the `places` at which not all rules hold, with the first rule that doesn't hold there.
pub fn first_broken_place<S, C: Condition<S>>(
    rules: &[C],
    subject: &S,
    places: usize,
) -> Option<(C, usize)>
    requires { All (λ c. places ≤ C.rows c subject.now) rules.now }
    ensures broken { IfSome result (λ found. InTurn places C.Holds subject.now rules.now (Err found)) }
    ensures met { IfNone result (InTurn places C.Holds subject.now rules.now (Ok tt)) }
{
    for place in 0..places {
        if let Some(rule) = broken_rule(rules, subject, place) {
            return Some((rule, place));
        }
    }
    None
}

// The first rule that doesn't hold at a place.
fn broken_rule<S, C: Condition<S>>(rules: &[C], subject: &S, place: usize) -> Option<C>
    requires { All (λ c. place < C.rows c subject.now) rules.now }
    ensures broken { IfSome result (λ rule. AtPlace C.Holds subject.now place rules.now (Err (rule, place))) }
    ensures met { IfNone result (AtPlace C.Holds subject.now place rules.now (Ok tt)) }
{
    for rule in rules {
        if !rule.holds(subject, place) {
            return Some(*rule);
        }
    }
    None
}
