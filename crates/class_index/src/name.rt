// The name that C# knows a member by.

ghost use Rattle.std.specs.Prelude.{◌≡◌, drop};
ghost use Rattle.class_rows.specs.Members.{known_as};

use class_rows::{MemberRow, Sort};

/// The name that C# knows a member by: an accessor goes by its property's, which is its own without `get_` or `set_`.
pub fn known_name(row: &MemberRow) -> &[u8]
    ensures { result.now ≡ known_as row.now }
{
    let name = row.name.as_str().as_bytes();
    match row.kind.sort() {
        Sort::Getter => behind_four(name),
        Sort::Setter => behind_four(name),
        Sort::Indexer => behind_four(name),
        Sort::Field => name,
        Sort::Method => name,
        Sort::Constructor => name,
        Sort::Operator => name,
    }
}

fn behind_four(name: &[u8]) -> &[u8]
    ensures { result.now ≡ drop 4 name.now }
{
    if name.len() < 4 { &[] } else { &name[4..] }
}
