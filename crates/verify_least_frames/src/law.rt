// A law, and no step.

ghost use Rattle.verify_least_frames.specs.Exist.{LeastFramesExist};

/// A verified method has least frames.
pub fn least_frames_exist()
    ensures { LeastFramesExist }
{}
