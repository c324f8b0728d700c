// Marks of methods that a type on the way implements explicitly.

ghost use Rattle.std.specs.Prelude.{◌≡◌, ◌<◌, Some, true, length, slice_get, IsTrue};
ghost use Rattle.dc_base.specs.declared.names.MemberId.{MemberId};
ghost use Rattle.class_implemented.specs.Known.{IsKnown};
ghost use Rattle.class_implemented.specs.Marked.{IsMarked, IsMarkedOne, AreMarkedMore};

use crate::known::Known;
use dc_base::TypeId;

/// Whether the mark of a method is a type that is flagged.
pub fn is_marked(flags: &[bool], marks: &[Option<u32>], m: u32) -> bool
    ensures yes { IsTrue result → IsMarked flags.now marks.now m }
    ensures no { IsMarked flags.now marks.now m → IsTrue result }
{
    match marks.get(m as usize) {
        Some(Some(u)) => is_flagged(flags, *u),
        Some(None) => false,
        None => false,
    }
}

fn is_flagged(flags: &[bool], u: u32) -> bool
    ensures yes { IsTrue result → slice_get flags.now u ≡ Some true }
    ensures no { slice_get flags.now u ≡ Some true → IsTrue result }
{
    match flags.get(u as usize) {
        Some(flag) => *flag,
        None => false,
    }
}

/// Marks the methods that a type implements explicitly, where no type that is flagged is their mark yet.
pub fn with_marks(
    known: &Known,
    flags: &[bool],
    marks: Vec<Option<u32>>,
    t: TypeId,
) -> Vec<Option<u32>>
    requires known { IsKnown known.now }
    requires within { t.0 < length known.now.types.now }
    requires flagged { slice_get flags.now t.0 ≡ Some true }
    ensures { AreMarkedMore known.now flags.now t.0 marks.items result.items }
{
    let mut marks = marks;
    let mut at = last_of(known, t);
    while let Some(p) = at {
        marks = with_mark(flags, marks, t, method_of(known, p));
        at = before_of(known, p);
    }
    marks
}

// The last explicit implementation of a type.
fn last_of(known: &Known, t: TypeId) -> Option<usize>
    requires known { IsKnown known.now }
    requires within { t.0 < length known.now.types.now }
    ensures { slice_get known.now.by_type.now.last.items t.0 ≡ Some result }
{
    known.by_type.last[t.0 as usize]
}

// The method that it implements.
fn method_of(known: &Known, p: usize) -> u32
    requires { p < length known.now.explicit.now }
    ensures { (pair : MemberId × MemberId) → slice_get known.now.explicit.now p ≡ Some pair → result ≡ pair.1.0 }
{
    known.explicit[p].1.0
}

// The one before it of its type.
fn before_of(known: &Known, p: usize) -> Option<usize>
    requires { p < length known.now.by_type.now.before.items }
    ensures { slice_get known.now.by_type.now.before.items p ≡ Some result }
{
    known.by_type.before[p]
}

fn with_mark(flags: &[bool], marks: Vec<Option<u32>>, t: TypeId, m: u32) -> Vec<Option<u32>>
    requires { slice_get flags.now t.0 ≡ Some true }
    ensures { IsMarkedOne flags.now t.0 m marks.items result.items }
{
    let mut marks = marks;
    if (m as usize) < marks.len() && !is_marked(flags, marks.as_slice(), m) {
        marks[m as usize] = Some(t.0);
    }
    marks
}
