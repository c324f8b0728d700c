// What is printed is read back.

ghost use Rattle.cs_roundtrip_members.specs.Laws.{MembersAreReadBack};

/// The tokens of a printed member are that member and nothing else, its notes aside.
pub fn members_are_read_back()
    ensures { MembersAreReadBack }
{}
