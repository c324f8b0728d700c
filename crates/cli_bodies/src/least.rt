// The least offset.

ghost use Rattle.std.specs.Prelude.{◌≡◌};
ghost use Rattle.cli_bodies.specs.Earlier.{sooner};

/// The least of the offsets so far and this one.
pub(crate) fn sooner(least: Option<u32>, offset: u32) -> Option<u32>
    ensures { result ≡ sooner least offset }
{
    match least {
        Some(other) => Some(other.min(offset)),
        None => Some(offset),
    }
}
