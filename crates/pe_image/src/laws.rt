// What follows from the definitions of an image, for the crates above.

ghost use Rattle.pe_image.specs.Laws.{HasOneReading, HasNoFault, HasOneFault, RangesAreWithin, RestsAreWithin, MetadataIsWithin};

/// A file is an image in one way, or has one fault, and never both.
pub fn one_reading()
    ensures one_image { HasOneReading }
    ensures no_fault { HasNoFault }
    ensures one_fault { HasOneFault }
{}

/// What an image hands out is in its file.
pub fn ranges_are_within()
    ensures ranges { RangesAreWithin }
    ensures rests { RestsAreWithin }
    ensures metadata { MetadataIsWithin }
{}
