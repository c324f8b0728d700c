// The types of a text by their full names.

ghost use Rattle.std.specs.Prelude.{◌≡◌, IfOk, map, slice_get};
ghost use Rattle.std.specs.Option.{option_map};
ghost use Rattle.class_written.specs.Named.{Known, number_of, named};
ghost use Rattle.class_written.specs.Numbered.{AreNumbered, known_in};

use crate::kinds::kind_of;
use class_rows::Kind;
use cs_declared::Declared;
use dc_base::NoMemory;
use indexmap::IndexMap;
use std::alloc::Global;
use std::marker::Model;

/// The types that a text declares, with an index of their full names.
#[derive(Drop)]
pub struct Types<'a> {
    found: &'a [Declared<'a>],
    numbers: IndexMap<&'a [u8], u32>,
}

impl<'a> Model for Types<'a> {
    ghost use Rattle.std.specs.Prelude.{List};
    ghost use Rattle.class_written.specs.Named.{Known};
    ghost use Rattle.class_written.specs.Numbered.{AreNumbered, known_in};

    ghost Value = { List Known };

    ghost view = { λ t. known_in t.found.now };

    ghost invariant = { λ t. AreNumbered 0 t.found.now t.numbers.entries };
}

impl<'a> Types<'a> {
    pub fn of(alloc: Global, found: &'a [Declared<'a>]) -> Result<Types<'a>, NoMemory>
        ensures { IfOk result (λ types. types ≡ known_in found.now) }
    {
        let numbers = numbers(alloc, found)?;
        Ok(Types { found, numbers })
    }

    /// The number of the first type with a full name. It takes the time of one look-up in a table of hashes.
    pub fn number(&self, name: &str) -> Option<u32>
        ensures { result ≡ number_of self.now name.now }
    {
        match self.numbers.get(name.as_bytes()) {
            Some(number) => Some(*number),
            None => None,
        }
    }

    /// The same, or a number that names nothing.
    pub fn named(&self, name: &str) -> u32
        ensures { result ≡ named self.now name.now }
    {
        self.number(name).unwrap_or(u32::MAX)
    }

    /// What the type of a number is.
    pub fn kind(&self, number: u32) -> Option<Kind>
        ensures { result ≡ option_map (λ (k : Known). k.kind) (slice_get self.now number) }
    {
        match self.found.get(number as usize) {
            Some(declared) => Some(kind_of(declared)),
            None => None,
        }
    }
}

// For each name its first type. No memory holds more types than there are numbers.
fn numbers<'a>(
    alloc: Global,
    found: &'a [Declared<'a>],
) -> Result<IndexMap<&'a [u8], u32>, NoMemory>
    ensures { IfOk result (λ numbers. AreNumbered 0 found.now numbers.entries) }
{
    let mut numbers = IndexMap::new(alloc);
    for index in (0..found.len()).rev() {
        let Ok(number) = u32::try_from(index) else {
            return Err(NoMemory);
        };
        numbers.insert(found[index].full.as_str().as_bytes(), number)?;
    }
    Ok(numbers)
}
