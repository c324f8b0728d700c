// The kinds of signatures, and where a type stands in one.

ghost use Rattle.std.specs.Prelude.{◌≡◌, ◌↔◌, IsTrue};
ghost use Rattle.cli_signature.specs.Reading.{results_of};
ghost use Rattle.cli_signature.specs.Grammar.{first_slot, IsLead, TakesRef, TakesVoid};

/// What a blob is the signature of.
#[derive(Clone, Copy, Debug, PartialEq, Eq)]
pub enum Kind {
    Field,
    Locals,
    Method,
    Property,
}

/// Where a type stands: as a method's result, where it may be VOID; as another whole type, which may be
/// BYREF; or behind a BYREF or SZARRAY.
#[derive(Clone, Copy, Debug, PartialEq, Eq)]
pub enum Slot {
    Outcome,
    Whole,
    Behind,
}

impl Kind {
    // Whether such a signature begins with this byte.
    pub fn is_lead(self, byte: u8) -> bool
        ensures { IsTrue result ↔ IsLead self byte }
    {
        match self {
            Kind::Field => byte == 0x06,
            Kind::Locals => byte == 0x07,
            Kind::Method => byte == 0x00 || byte == 0x20,
            Kind::Property => byte == 0x08 || byte == 0x28,
        }
    }

    // Where the first type stands.
    pub fn first_slot(self) -> Slot
        ensures { result ≡ first_slot self }
    {
        match self {
            Kind::Method => Slot::Outcome,
            _ => Slot::Whole,
        }
    }

    // How many types the count leaves out.
    pub fn results(self) -> usize
        ensures { result ≡ results_of self }
    {
        match self {
            Kind::Method | Kind::Property => 1,
            _ => 0,
        }
    }
}

impl Slot {
    // Whether BYREF may stand here.
    pub fn takes_ref(self) -> bool
        ensures { IsTrue result ↔ TakesRef self }
    {
        !matches!(self, Slot::Behind)
    }

    // Whether VOID may stand here.
    pub fn takes_void(self) -> bool
        ensures { IsTrue result ↔ TakesVoid self }
    {
        matches!(self, Slot::Outcome)
    }
}
