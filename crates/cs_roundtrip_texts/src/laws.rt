// What is printed is written well, and is read back.

ghost use Rattle.cs_roundtrip_texts.specs.Laws.{MembersAreWrittenWell, TextsAreWrittenWell, PrintedMembersAreReadBack, PrintedTextsAreReadBack};

/// A printed member is a text in UTF-8, which has just the tokens of its layout.
pub fn members_are_written_well()
    ensures { MembersAreWrittenWell }
{}

/// The same of whole texts.
pub fn texts_are_written_well()
    ensures { TextsAreWrittenWell }
{}

/// The text of a printed member has tokens, which are that member and nothing else, its places and its note aside.
pub fn printed_members_are_read_back()
    ensures { PrintedMembersAreReadBack }
{}

/// The same of whole texts.
pub fn printed_texts_are_read_back()
    ensures { PrintedTextsAreReadBack }
{}
