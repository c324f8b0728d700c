// The elements that types are spelled with.

ghost use Rattle.std.specs.Prelude.{◌≡◌};
ghost use Rattle.cli_signature.specs.Element.{entry_of, part_of};

/// What an element is in a type: nothing, a type by itself, a reference before a type, a type that a number
/// behind it names, an array of the type behind it, or a part of the standard that isn't taken.
#[derive(Clone, Copy, Debug, PartialEq, Eq)]
pub enum Part {
    Void,
    Plain,
    ByRef,
    Named,
    SzArray,
    LeftOut,
    Unknown,
}

/// An element, and what it is.
#[derive(Clone, Copy, Debug)]
pub struct Element {
    pub byte: u8,
    pub part: Part,
}

/// The elements (ECMA-335 II.23.1.16).
pub const ELEMENTS: [Element; 32] = [
    // VOID
    Element {
        byte: 0x01,
        part: Part::Void,
    },
    // BOOLEAN
    Element {
        byte: 0x02,
        part: Part::Plain,
    },
    // CHAR
    Element {
        byte: 0x03,
        part: Part::Plain,
    },
    // I1
    Element {
        byte: 0x04,
        part: Part::Plain,
    },
    // U1
    Element {
        byte: 0x05,
        part: Part::Plain,
    },
    // I2
    Element {
        byte: 0x06,
        part: Part::Plain,
    },
    // U2
    Element {
        byte: 0x07,
        part: Part::Plain,
    },
    // I4
    Element {
        byte: 0x08,
        part: Part::Plain,
    },
    // U4
    Element {
        byte: 0x09,
        part: Part::Plain,
    },
    // I8
    Element {
        byte: 0x0A,
        part: Part::Plain,
    },
    // U8
    Element {
        byte: 0x0B,
        part: Part::Plain,
    },
    // R4
    Element {
        byte: 0x0C,
        part: Part::LeftOut,
    },
    // R8
    Element {
        byte: 0x0D,
        part: Part::LeftOut,
    },
    // STRING
    Element {
        byte: 0x0E,
        part: Part::Plain,
    },
    // PTR
    Element {
        byte: 0x0F,
        part: Part::LeftOut,
    },
    // BYREF
    Element {
        byte: 0x10,
        part: Part::ByRef,
    },
    // VALUETYPE
    Element {
        byte: 0x11,
        part: Part::Named,
    },
    // CLASS
    Element {
        byte: 0x12,
        part: Part::Named,
    },
    // VAR
    Element {
        byte: 0x13,
        part: Part::LeftOut,
    },
    // ARRAY
    Element {
        byte: 0x14,
        part: Part::LeftOut,
    },
    // GENERICINST
    Element {
        byte: 0x15,
        part: Part::LeftOut,
    },
    // TYPEDBYREF
    Element {
        byte: 0x16,
        part: Part::LeftOut,
    },
    // I
    Element {
        byte: 0x18,
        part: Part::LeftOut,
    },
    // U
    Element {
        byte: 0x19,
        part: Part::LeftOut,
    },
    // FNPTR
    Element {
        byte: 0x1B,
        part: Part::LeftOut,
    },
    // OBJECT
    Element {
        byte: 0x1C,
        part: Part::Plain,
    },
    // SZARRAY
    Element {
        byte: 0x1D,
        part: Part::SzArray,
    },
    // MVAR
    Element {
        byte: 0x1E,
        part: Part::LeftOut,
    },
    // CMOD_REQD
    Element {
        byte: 0x1F,
        part: Part::LeftOut,
    },
    // CMOD_OPT
    Element {
        byte: 0x20,
        part: Part::LeftOut,
    },
    // SENTINEL
    Element {
        byte: 0x41,
        part: Part::LeftOut,
    },
    // PINNED
    Element {
        byte: 0x45,
        part: Part::LeftOut,
    },
];

// What an element is by the table.
pub fn look_up(byte: u8) -> Part
    ensures { result ≡ part_of byte }
{
    match entry(byte) {
        Some(element) => element.part,
        None => Part::Unknown,
    }
}

// The table's line for a byte.
fn entry(byte: u8) -> Option<Element>
    ensures { result ≡ entry_of byte }
{
    ELEMENTS.iter().find(|e| e.byte == byte).copied()
}
