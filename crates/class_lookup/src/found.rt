// A look-up, and the members that it finds.

ghost use Rattle.std.specs.Prelude.{◌≡◌, ◌<◌, [], ◌++◌, length};
ghost use Rattle.class_rows.specs.Bases.{BasesAreThere};
ghost use Rattle.class_rows.specs.Lookups.{IsLookup};
ghost use Rattle.class_assign.specs.Supers.{AreSupers};
ghost use Rattle.class_alike.specs.Named.{IsNamed};
ghost use Rattle.class_index.specs.Order.{IsIndex, key_of};
ghost use Rattle.class_search.specs.Left.{CanSearch, types_left};
ghost use Rattle.class_lookup.specs.Left.{CanFind, all_found, found_left};

use crate::rest::{Rest, first_found};
use class_alike::Named;
use class_assign::Supers;
use class_index::known_name;
use class_rows::{MemberRow, TypeRow};
use class_search::{Search, search_in};
use dc_base::{MemberId, Text, TypeId};

/// The members that a look-up finds, from the nearest type up. The name is the table's own, so that the name that was
/// asked for isn't lent.
#[derive(Drop)]
pub struct Found<'a> {
    members: &'a [MemberRow],
    named: &'a Named,
    name: &'a [u8],
    rest: Rest<'a>,
}

/// Looks a name up in a type. All steps together take the time of the types that are searched, of a search in the sorted
/// members for each, and of the members of the name that they have.
pub fn lookup<'a>(
    types: &'a [TypeRow],
    members: &'a [MemberRow],
    explicit: &[(MemberId, MemberId)],
    supers: &'a Supers,
    named: &'a Named,
    t: TypeId,
    name: &Text,
) -> Found<'a>
    requires supers { AreSupers types.now supers.now }
    requires named { IsNamed types.now members.now explicit.now named.now }
    requires bases { BasesAreThere types.now members.now }
    ensures can { CanFind result }
    ensures found { IsLookup types.now members.now explicit.now t.0 name.now (found_left result) }
{
    let search = search_in(types, supers, t);
    found_in(members, named, search, name.as_str().as_bytes())
}

// Goes on to the first type that has members of the name.
fn found_in<'a>(
    members: &'a [MemberRow],
    named: &'a Named,
    search: Search<'a>,
    name: &[u8],
) -> Found<'a>
    requires can { CanSearch search }
    requires index { IsIndex members.now named.now.index.order }
    ensures can { CanFind result }
    ensures left { found_left result ≡ all_found members.now named.now.nameless name.now (types_left search.entry) }
{
    let mut search = search;
    while let Some((t, behind)) = search.split_first() {
        let those = named.index.of_name(members, t, name);
        if let Some(first) = those.first() {
            return Found {
                members,
                named,
                name: own_name(members, *first),
                rest: Rest {
                    those,
                    search: behind,
                },
            };
        }
        search = behind;
    }
    Found {
        members,
        named,
        name: &[],
        rest: Rest { those: &[], search },
    }
}

fn own_name(members: &[MemberRow], m: u32) -> &[u8]
    requires { m < length members.now }
    ensures { result.now ≡ (key_of members.now m).1 }
{
    known_name(&members[m as usize])
}

impl<'a> Iterator for Found<'a> {
    ghost use Rattle.std.specs.Iterator.{YieldsFirstBy, item_count};
    ghost use Rattle.dc_base.specs.declared.names.MemberId.{MemberId};

    type Item = MemberId;

    ghost can_next = { CanFind };

    ghost next_gives = { YieldsFirstBy (λ m. m.0) found_left };

    ghost remaining = { item_count found_left };

    fn next(&mut self) -> Option<MemberId> {
        let (m, rest) = first_found(self.members, self.named, self.name, self.rest)?;
        self.rest = rest;
        Some(MemberId(m))
    }
}
