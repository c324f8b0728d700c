// A text that is printed, and then read.

ghost use Rattle.std.specs.Prelude.{◌≤◌, ◌^◌, length};
ghost use Rattle.cs_unit_layout.specs.Units.{unit_laid};
ghost use Rattle.cs_roundtrip_texts.specs.Laws.{bytes_of};
ghost use Rattle.cs_roundtrip.specs.Printed.{IsPrintable, IsReadBack};

use cs_print::print;
use cs_read::{ReadFault, read};
use cs_tree::Unit;
use dc_base::Or;
use std::alloc::Global;

/// Prints a text and reads what was printed: the same text, with the places that it has there, and without its notes. Only memory can be
/// wanting.
pub fn printed_and_read(alloc: Global, unit: &Unit) -> Result<Unit, Or<ReadFault>>
    requires printable { IsPrintable unit.now }
    requires size { length (bytes_of (unit_laid unit.now)) ≤ 2 ^ 31 }
    ensures back { IsReadBack unit.now result }
{
    let text = print(alloc, unit)?;
    read(alloc, text.as_str())
}
