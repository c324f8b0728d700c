// All rows, each with what it names.

ghost use Rattle.std.specs.Prelude.{◌≡◌, ◌<◌, IfOk, map};
ghost use Rattle.std.specs.List.{filter_map};
ghost use Rattle.cli_named.specs.Lists.{AreListed, IsListed};
ghost use Rattle.cli_named.specs.Numbers.{numbers_of, count_of, number_of};

use crate::Numbers;
use crate::rows::named_by;
use cli_metadata::Metadata;
use dc_base::{NoMemory, Seq, Token};
use std::alloc::Global;

/// For each row of TypeRef, TypeSpec, MemberRef and StandAloneSig that a token can name the numbers of those that it names. It
/// takes the time of one look at each row and each signature.
pub fn named_rows(alloc: Global, metadata: &Metadata) -> Result<Vec<Seq<u32>>, NoMemory>
    ensures { IfOk result (λ lists. AreListed metadata.now lists.items) }
{
    let numbers = Numbers::of(metadata);
    let mut lists = Vec::new(alloc);
    for k in 0..numbers.count() {
        lists.push(list(alloc, metadata, &numbers, k)?)?;
    }
    Ok(lists)
}

fn list(alloc: Global, metadata: &Metadata, numbers: &Numbers, k: u32) -> Result<Seq<u32>, NoMemory>
    requires numbers { numbers.now ≡ numbers_of metadata.now }
    requires within { k < count_of numbers.now }
    ensures { IfOk result (IsListed metadata.now k) }
{
    let tokens = named_by(alloc, metadata, numbers, k)?;
    Ok(Seq::of(in_numbers(alloc, metadata, numbers, tokens.as_slice())?))
}

fn in_numbers(
    alloc: Global,
    metadata: &Metadata,
    numbers: &Numbers,
    tokens: &[Token],
) -> Result<Vec<u32>, NoMemory>
    requires { numbers.now ≡ numbers_of metadata.now }
    ensures { IfOk result (λ found. found.items ≡ filter_map (number_of numbers.now) tokens.now) }
{
    Ok(
        tokens
            .iter()
            .filter_map(|token| numbers.number(*token))
            .collect(alloc)?,
    )
}
