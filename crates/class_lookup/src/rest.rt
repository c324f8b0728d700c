// What is still to be looked at: members of one type, and types.

ghost use Rattle.std.specs.Prelude.{◌≡◌, ◌∷◌, [], MatchOption, filter, ⊤};
ghost use Rattle.class_index.specs.Order.{IsIndex};
ghost use Rattle.class_search.specs.Left.{CanSearch};
ghost use Rattle.class_lookup.specs.Left.{rest_left};
ghost use Rattle.class_lookup.specs.Stand.{is_override, may_stand};

use class_alike::{Named, has_name};
use class_rows::{MemberRow, Virt};
use class_search::Search;

/// Members of the name in a type, and the types behind it.
#[derive(Clone, Copy)]
pub struct Rest<'a> {
    pub those: &'a [u32],
    pub search: Search<'a>,
}

/// The first member that is found, and what is left behind it.
pub fn first_found<'a>(
    members: &'a [MemberRow],
    named: &'a Named,
    name: &[u8],
    rest: Rest<'a>,
) -> Option<(u32, Rest<'a>)>
    requires can { CanSearch rest.search }
    requires index { IsIndex members.now named.now.index.order }
    ensures can { MatchOption result ⊤ (λ p. CanSearch p.1.search) }
    ensures first { MatchOption result (rest_left members.now named.now name.now rest.entry ≡ []) (λ p. rest_left members.now named.now name.now rest.entry ≡ p.0 ∷ rest_left members.now named.now name.now p.1) }
{
    let mut those = rest.those;
    let mut search = rest.search;
    loop {
        if let Some((m, others)) = first_that_stands(members, named, those) {
            return Some((
                m,
                Rest {
                    those: others,
                    search,
                },
            ));
        }
        let (t, behind) = search.split_first()?;
        those = named.index.of_name(members, t, name);
        search = behind;
    }
}

// The first of some members that isn't left out, and those behind it.
fn first_that_stands<'a>(
    members: &[MemberRow],
    named: &Named,
    those: &'a [u32],
) -> Option<(u32, &'a [u32])>
    ensures { MatchOption result (filter (may_stand members.now named.now.nameless) those.now ≡ []) (λ p. filter (may_stand members.now named.now.nameless) those.now ≡ p.0 ∷ filter (may_stand members.now named.now.nameless) p.1.now) }
{
    let mut left = those;
    while let Some((m, others)) = left.split_first() {
        if stands(members, named, *m) {
            return Some((*m, others));
        }
        left = others;
    }
    None
}

// Whether a member has a name and is no override.
fn stands(members: &[MemberRow], named: &Named, m: u32) -> bool
    ensures { result ≡ may_stand members.now named.now.nameless m }
{
    match members.get(m as usize) {
        Some(row) => !takes_over(row.virt) && has_name(named, m),
        None => false,
    }
}

fn takes_over(virt: Virt) -> bool
    ensures { result ≡ is_override virt }
{
    match virt {
        Virt::Plain => false,
        Virt::Virtual => false,
        Virt::Abstract => false,
        Virt::Override => true,
        Virt::SealedOverride => true,
    }
}
