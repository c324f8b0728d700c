// The marks of the rows.

ghost use Rattle.std.specs.Prelude.{◌≡◌, IfOk};
ghost use Rattle.std.specs.List.{filter_map};
ghost use Rattle.cli_named.specs.Numbers.{numbers_of, number_of};
ghost use Rattle.cli_reached_rows.specs.Reached.{AreMarked};

use cli_metadata::Metadata;
use cli_named::{Numbers, named_rows, names_are_one};
use cli_reached::reached;
use dc_base::{NoMemory, Token};
use std::alloc::Global;

/// For each row that has a number by `Numbers` whether it is reached from these tokens. It takes the time of one look at each
/// row of TypeRef, TypeSpec, MemberRef and StandAloneSig, and at each signature.
pub fn reached_rows(
    alloc: Global,
    metadata: &Metadata,
    roots: &[Token],
) -> Result<Vec<bool>, NoMemory>
    ensures { IfOk result (λ marks. AreMarked metadata.now roots.now marks.items) }
{
    let names = named_rows(alloc, metadata)?;
    let numbers = in_numbers(alloc, metadata, roots)?;
    names_are_one();
    reached(alloc, numbers.as_slice(), names.as_slice())
}

// The numbers of tokens, without those that have none.
fn in_numbers(alloc: Global, metadata: &Metadata, tokens: &[Token]) -> Result<Vec<u32>, NoMemory>
    ensures { IfOk result (λ found. found.items ≡ filter_map (number_of (numbers_of metadata.now)) tokens.now) }
{
    let numbers = Numbers::of(metadata);
    Ok(
        tokens
            .iter()
            .filter_map(|token| numbers.number(*token))
            .collect(alloc)?,
    )
}
