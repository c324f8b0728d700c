// Laws of holding, and no step.

ghost use Rattle.verify_slots.specs.Slots.{IsIn, AreIn, IsOrder, UnitedAreOne};

/// A slot holds itself, and what one holds that holds another. So do frames.
pub fn frames_are_in_order()
    ensures slots { IsOrder IsIn }
    ensures frames { IsOrder AreIn }
{}

/// Two frames that others unite to hold each other.
pub fn united_frames_are_one()
    ensures { UnitedAreOne }
{}
