// A law of the definitions.

ghost use Rattle.class_lookup.specs.Law.{LookupsAreOne};

/// A look-up of a name in a type gives one list and no other, where there is one System.Object.
pub fn one_lookup()
    ensures { LookupsAreOne }
{}
