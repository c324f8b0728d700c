// The lesser of two numbers, each of which may be missing.

ghost use Rattle.std.specs.Prelude.{◌≡◌};
ghost use Rattle.class_keys.specs.Least.{lesser_of};

/// The lesser of two numbers, or the one that is there.
pub fn lesser(one: Option<usize>, other: Option<usize>) -> Option<usize>
    ensures { result ≡ lesser_of one other }
{
    match one {
        None => other,
        Some(first) => match other {
            None => one,
            Some(second) => Some(first.min(second)),
        },
    }
}
