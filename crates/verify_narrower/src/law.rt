// A law, and no step.

ghost use Rattle.verify_narrower.specs.Narrower.{NarrowerFramesAreAccepted};

/// An instruction that is accepted at a frame is so at each frame in it, and leaves a frame in the other's.
pub fn narrower_frames_are_accepted()
    ensures { NarrowerFramesAreAccepted }
{}
